//! The lines for bytes that aren't a script.
ghost use Rattle.std.specs.Prelude.{◌≡◌, IfOk, string_bytes, ◌++◌, codes};
ghost use Rattle.dd_session.specs.Output.{limit_text, IsLineOf, header};
ghost use Rattle.std.specs.Fmt.{decimal};

use dd_script::{Limit, ScriptKind};
use std::alloc::{AllocError, Global};

// The word for a limit in the line that refuses an input.
fn limit_text(limit: Limit) -> &'static str
    ensures { result.now ≡ limit_text limit }
{
    match limit {
        Limit::Commands => "commands",
        Limit::Word => "word",
        Limit::Number => "number",
        Limit::Nodes => "nodes",
        Limit::Alphabet => "alphabet",
        Limit::Edges => "edges",
        Limit::Offset => "offset",
        Limit::Weight => "weight",
        Limit::Limits => "limits",
        Limit::Moves => "moves",
        Limit::Radius => "radius",
        Limit::Balls => "balls",
        Limit::Instances => "instances",
        Limit::Reach => "reach",
        Limit::Depth => "depth",
        Limit::Periods => "periods",
        Limit::Vectors => "vectors",
        Limit::Patterns => "patterns",
        Limit::States => "states",
        Limit::Clauses => "clauses",
    }
}

// The line for a refused command. It has `words`, the command's number, `fault` and `name`. Here `name` may also be the word
// for a limit, or empty. If it isn't empty, `fault` ends with a space.
fn refused_line(
    alloc: Global,
    words: &str,
    command: u32,
    fault: &str,
    name: &str,
) -> Result<String, AllocError>
    ensures { IfOk result (λ line. string_bytes line ≡ words.now ++ (codes " " ++ (decimal command ++ (codes " " ++ (fault.now ++ (name.now ++ codes "\n")))))) }
{
    format!(in alloc; "{words} {command} {fault}{name}\n")
}

/// The line for bytes that aren't a script. The line begins with `words`. There is no line if memory ran out, either here or
/// when the bytes were parsed.
pub(crate) fn refused_text(
    alloc: Global,
    words: &str,
    command: u32,
    kind: &ScriptKind,
) -> Result<String, AllocError>
    ensures { IfOk result (λ line. IsLineOf words.now command kind.now (string_bytes line)) }
{
    match kind {
        ScriptKind::Syntax => refused_line(alloc, words, command, "syntax", ""),
        ScriptKind::Unknown(name) => refused_line(alloc, words, command, "unknown ", name.as_str()),
        ScriptKind::Twice(name) => refused_line(alloc, words, command, "twice ", name.as_str()),
        ScriptKind::Dimension => refused_line(alloc, words, command, "dimension", ""),
        ScriptKind::Size(limit) => {
            refused_line(alloc, words, command, "size ", limit_text(*limit))
        }
        ScriptKind::Memory => Err(AllocError),
    }
}
