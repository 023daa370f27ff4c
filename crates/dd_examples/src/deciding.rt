//! Reading a script, and finding the first line of a right answer to each of its queries.
ghost use Rattle.std.specs.Prelude.{◌≤◌, length, Contains, IfOk, IfErr};
ghost use Rattle.dd_values.specs.Bounds.{most_script};
ghost use Rattle.dd_script.specs.Parts.{Parts};
ghost use Rattle.dd_script.specs.Scripts.{Spells, IsScriptRefusal};
ghost use Rattle.dd_examples.specs.Lines.{IsLine, AreLines};

use dd_answer::answer;
use dd_certificate::answer_line;
use dd_engines::Roster;
use dd_query::Query;
use dd_script::{Script, ScriptFault, ScriptKind, parse};
use std::alloc::{AllocError, Global};

/// The first line of a right answer to a query of the script. The query has the number `number`.
fn line_of(
    alloc: Global,
    script: &Script,
    query: &Query,
    number: u32,
) -> Result<Vec<u8>, AllocError>
    requires { Contains script.now.queries query.now }
    ensures { IfOk result (λ line. IsLine script.now number query.now line.items) }
{
    // The roster is empty, so no engine is asked.
    let mut roster: Roster = Roster::new(Vec::new(alloc));
    let found = answer(alloc, script, query, &mut roster)?;
    answer_line(alloc, number, &found)
}

/// The first lines of right answers to the queries of a script, in order.
#[tactic(auto, using(dd_values::specs::lemmas::Lists::contains_at, crate::proofs::Lines::line_next))]
pub fn lines_of(alloc: Global, script: &Script) -> Result<Vec<u8>, AllocError>
    ensures { IfOk result (λ text. AreLines script.now 1 script.now.queries text.items) }
{
    let queries = script.queries();
    let mut text = Vec::new(alloc);
    for (done, query) in queries.iter().enumerate() {
        let Ok(number) = u32::try_from(done + 1) else {
            return Err(AllocError);
        };
        let line = line_of(alloc, script, query, number)?;
        text.extend_from_slice(&line)?;
    }
    Ok(text)
}

/// The first lines of right answers to the queries of the script that the bytes spell. The error says why the bytes are refused,
/// or that memory ran out.
pub fn answered(alloc: Global, bytes: &[u8]) -> Result<Vec<u8>, ScriptFault>
    requires { length bytes.now ≤ most_script }
    ensures lines { IfOk result (λ text. (s : Parts) × Spells bytes.now s × AreLines s 1 s.queries text.items) }
    ensures refused { IfErr result (IsScriptRefusal bytes.now) }
{
    let script = parse(alloc, bytes)?;
    match lines_of(alloc, &script) {
        Ok(text) => Ok(text),
        Err(AllocError) => Err(ScriptFault {
            command: 0,
            kind: ScriptKind::Memory,
        }),
    }
}
