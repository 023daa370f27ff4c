//! Reading scripts: the commands of a text, one by one.
ghost use Rattle.std.specs.Prelude.{◌≡◌, ◌≤◌, length, All, OnOk, IfOk, IfErr};
ghost use Rattle.dd_values.specs.Bounds.{most_script};
ghost use Rattle.dd_commands.specs.Scripts.{IsScript, IsWritten};
ghost use Rattle.dd_script.specs.Scripts.{Spells, HasFault, kind_of, IsScriptRefusal};
ghost use Rattle.dd_script.specs.Walk.{start, is_topology, has_topology};
ghost use Rattle.dd_script.specs.Kept.{IsScriptOf};
ghost use Rattle.dd_script.specs.Drafts.{parts_of, draft_of};

use crate::draft::Draft;
use crate::fault::{ScriptFault, ScriptKind};
use crate::script::Script;
use dd_commands::{Command, Syntax, Written, read};
use dd_faults::{Fault, Refusal};
use dd_written::{Text, name_text};
use std::alloc::{AllocError, Global};

/// Whether this is a `topology` command. Such a command names a built-in topology, or gives the edges of a topology.
fn is_topology(written: &Written) -> bool
    ensures { result ≡ is_topology written.now }
{
    matches!(
        written.command,
        Command::Topology { .. } | Command::Edges { .. }
    )
}

/// Whether one of the commands is a `topology` command.
fn has_topology(commands: &[Written]) -> bool
    ensures { result ≡ has_topology commands.now }
{
    commands.iter().any(|written| is_topology(written))
}

/// The error that says that the command with this number has this fault.
fn refusal_for(
    alloc: Global,
    text: &Text,
    command: u32,
    fault: Fault,
) -> Result<ScriptFault, AllocError>
    requires { HasFault text.now command (kind_of text.now fault) }
    ensures { IfOk result (IsScriptRefusal text.now) }
{
    let kind = match fault {
        Fault::Unknown(name) => {
            ScriptKind::Unknown(String::from_str(alloc, name_text(text, name))?)
        }
        Fault::Twice(name) => ScriptKind::Twice(String::from_str(alloc, name_text(text, name))?),
        Fault::TwiceVector => ScriptKind::Twice(String::from_str(alloc, "vector")?),
        Fault::Dimension => ScriptKind::Dimension,
        Fault::Size(limit) => ScriptKind::Size(limit),
    };
    Ok(ScriptFault { command, kind })
}

/// Adds all commands of a text to the draft. The draft must be the one before the first of these commands. If some command has
/// a fault, the error gives the number of the first such command, and the first fault of that command. The error may also say
/// that memory ran out.
fn walk(alloc: Global, draft: &mut Draft, commands: &[Written]) -> Result<(), ScriptFault>
    requires begun { draft.old ≡ draft_of draft.old.context.text (has_topology commands.now) 1 start }
    requires kept { IsScriptOf start }
    requires written { IsScript draft.old.context.text (record { text = draft.old.context.text; commands = commands.now }) }
    requires each { All (IsWritten draft.old.context.text) commands.now }
    ensures spelled { OnOk result (Spells draft.old.context.text (parts_of draft.new)) }
    ensures kept { OnOk result (IsScriptOf (parts_of draft.new)) }
    ensures refused { IfErr result (IsScriptRefusal draft.old.context.text) }
{
    for written in commands {
        match draft.meaning_of(alloc, written) {
            Ok(meaning) => {
                draft.add(alloc, meaning)?;
                // This call tells the proof what the type `Sets` guarantees.
                let _symbols = draft.context.known.setting.sets.symbols();
            }
            Err(Refusal::Memory) => return Err(ScriptFault::from(AllocError)),
            Err(Refusal::At(fault)) => {
                let context = &draft.context;
                return Err(refusal_for(alloc, &context.text, context.number, fault)?);
            }
        }
    }
    Ok(())
}

/// The script that the commands of a text spell. If some command has a fault, the error gives the number of the first such
/// command, and the first fault of that command. The error may also say that memory ran out.
fn script_of(alloc: Global, text: Text, commands: &[Written]) -> Result<Script, ScriptFault>
    requires written { IsScript text (record { text = text; commands = commands.now }) }
    requires each { All (IsWritten text) commands.now }
    ensures spelled { IfOk result (Spells text) }
    ensures refused { IfErr result (IsScriptRefusal text) }
{
    let mut draft = Draft::new(alloc, text, has_topology(commands))?;
    match walk(alloc, &mut draft, commands) {
        Ok(()) => Ok(draft.into_script(alloc)?),
        Err(fault) => {
            // Without this explicit drop the proof is much longer.
            drop(draft);
            Err(fault)
        }
    }
}

/// The script that the bytes spell, or why they spell none. There may be at most 1,048,576 bytes.
///
/// # Errors
/// The error gives the number of the first command that is not well formed, or 0 if some token stands before the first command.
/// If all are well formed, it gives the number of the first command with a fault, and the first fault of that command. Of a
/// command's faults, unknown names come first, then repetitions, then wrong dimensions and wrong numbers of items, then
/// exceeded limits, in the order of `Limit`. Faults of the same kind or the same limit come in the order of the text. If a
/// query asks about pairs of automata, the limits on a pair and on the question about it are tested before those on the next
/// pair. If the pair is about an image, the depth of the formula that says that the image obeys the target (see `Limit::Depth`)
/// is tested before the pair's other limits. The error may also say that memory ran out.
pub fn parse(alloc: Global, bytes: &[u8]) -> Result<Script, ScriptFault>
    requires { length bytes.now ≤ most_script }
    ensures spelled { IfOk result (Spells bytes.now) }
    ensures refused { IfErr result (IsScriptRefusal bytes.now) }
{
    let Syntax { text, commands } = read(alloc, bytes)?;
    script_of(alloc, text, commands.as_slice())
}
