//! Reads a script, command by command. A part consists of the tokens of one command: those after its `%`, up to the next `%`.
ghost use Rattle.std.specs.Prelude.{◌≡◌, [], ◌∷◌, ◌+◌, ◌<◌, ◌≤◌, length, IfOk, All};
ghost use Rattle.std.specs.List.{prefix_len, list_all};
ghost use Rattle.dd_values.specs.Bounds.{most_script};
ghost use Rattle.dd_written.specs.reading.Readers.{Gives};
ghost use Rattle.dd_commands.specs.Heads.{head_of};
ghost use Rattle.dd_commands.specs.Scripts.{parts, is_whole, IsWritten, IsReading};
ghost use Rattle.dd_commands.specs.reading.Parts.{is_inside, written_of, IsPartsReading};

use crate::bodies::command;
use crate::command::Command;
use crate::fault::SyntaxFault;
use crate::head::Head;
use crate::reading::Source;
use dd_values::Items;
use dd_written::{Lexeme, Mark, ReadFault, Text, formula_is_read, lexemes};
use std::alloc::Global;

/// A command, and the tokens after its `%`.
#[derive(Debug, Drop)]
pub struct Written {
    pub tokens: Items<Lexeme>,
    pub command: Command,
}

/// The syntax tree of a script: its text, and its commands in order.
#[derive(Debug, Drop)]
pub struct Syntax {
    pub text: Text,
    pub commands: Items<Written>,
}

/// The number of tokens before the next `%`.
fn part_length(tokens: &[Lexeme]) -> usize
    ensures value { result ≡ prefix_len is_inside tokens.now }
    ensures within { result ≤ length tokens.now }
{
    tokens
        .iter()
        .take_while(|token| !matches!(token, Lexeme::Mark(Mark::Percent)))
        .count()
}

/// The part after the `%` at the front of the tokens, and the tokens after that part.
#[tactic(auto, using(crate::proofs::Parts::cut, crate::proofs::Parts::behind_mark))]
fn next_part(tokens: &[Lexeme]) -> (&[Lexeme], &[Lexeme])
    requires some { 0 < length tokens.now }
    requires at_mark { (parts tokens.now).0 ≡ [] }
    ensures part { (parts tokens.now).1 ≡ result.0.now ∷ (parts result.1.now).1 }
    ensures at_mark { (parts result.1.now).0 ≡ [] }
    ensures shorter { length result.1.now < length tokens.now }
{
    let after = tokens.split_at(1).1;
    after.split_at(part_length(after))
}

impl Command {
    /// The head of this command.
    fn head(&self) -> Head
        ensures { result ≡ head_of self.now }
    {
        match self {
            Command::Dimension { .. } => Head::Dimension,
            Command::Nodes { .. } => Head::Nodes,
            Command::Alphabet { .. } => Head::Alphabet,
            Command::Topology { .. } | Command::Edges { .. } => Head::Topology,
            Command::Only { .. } => Head::Only,
            Command::Weights { .. } => Head::Weights,
            Command::Limits { .. } => Head::Limits,
            Command::Rule { .. } => Head::Rule,
            Command::Automaton { .. } => Head::Automaton,
            Command::Composition { .. } => Head::Composition,
            Command::Configuration { .. } => Head::Configuration,
            Command::Query(request) => Head::Query(request.kind),
        }
    }
}

/// Whether no token of the part is `Stray`.
fn are_whole(part: &[Lexeme]) -> bool
    ensures { result ≡ list_all is_whole part.now }
{
    part.iter().all(|token| !matches!(token, Lexeme::Stray))
}

/// Reads this part as a command. The command's stage must be at least `from`, and no token of the part may be `Stray`.
fn command_from(source: Source, from: u32, part: &[Lexeme]) -> Result<Written, ReadFault>
    ensures { Gives (λ x. x) result (written_of source.entry.bytes.now from part.now) }
{
    let command = command(source, part)?;
    let fits = are_whole(part) && from <= command.get().head().row().stage;
    if !fits {
        return Err(ReadFault::Syntax);
    }
    let tokens = Items::from_slice(source.alloc, part)?;
    let command = command.into_inner();
    Ok(Written { tokens, command })
}

/// The commands of a script with these bytes and tokens.
#[tactic(auto, using(crate::proofs::Parts::starts, crate::proofs::Parts::cut, crate::proofs::Parts::something_before))]
fn commands(alloc: Global, bytes: &[u8], tokens: &[Lexeme]) -> Result<Items<Written>, SyntaxFault>
    requires { length tokens.now ≤ most_script + 1 }
    ensures { IsPartsReading bytes.now tokens.now result }
{
    formula_is_read();
    if part_length(tokens) > 0 {
        return Err(SyntaxFault::At { command: 0 });
    }
    let mut commands = Items::new(alloc);
    let mut number = 0;
    // the lowest stage that the next command may have
    let mut from = 0;
    let mut rest = tokens;
    while !rest.is_empty() {
        let (part, next) = next_part(rest);
        number += 1;
        match command_from(Source { alloc, bytes }, from, part) {
            Ok(written) => {
                from = written.command.head().next_stage();
                commands.push(written)?;
            }
            Err(ReadFault::Memory) => return Err(SyntaxFault::Memory),
            Err(ReadFault::Syntax) => return Err(SyntaxFault::At { command: number }),
        }
        rest = next;
    }
    Ok(commands)
}

/// The syntax tree of a script. There may be at most 1,048,576 bytes.
///
/// # Errors
/// `At` if the bytes have no syntax tree. `Memory` if memory ran out.
#[tactic(auto, using(crate::proofs::Texts::ascii_text))]
pub fn read(alloc: Global, bytes: &[u8]) -> Result<Syntax, SyntaxFault>
    requires { length bytes.now ≤ most_script }
    ensures tells { IsReading bytes.now result }
    ensures written { IfOk result (λ s. All (IsWritten s.text) s.commands) }
{
    let lexemes = lexemes(alloc, bytes)?;
    let commands = commands(alloc, bytes, lexemes.as_slice())?;
    let text = Text::new(alloc, bytes)?;
    Ok(Syntax { text, commands })
}
