//! Reads queries. For each kind of query, a row of the table of queries says what follows the first word.
ghost use Rattle.std.specs.Prelude.{◌≡◌};
ghost use Rattle.dd_written.specs.reading.Readers.{Gives};
ghost use Rattle.dd_commands.specs.declared.head.Head.TheVariants as head;
ghost use Rattle.dd_commands.specs.reading.Commands.{lists_at, body};

use crate::command::{Command, Request, Vector};
use crate::reading::{Read, Source, exactly, some};
use crate::table::{Lists, QueryKind};
use crate::vectors::plain;
use dd_values::Items;
use dd_written::{Lexeme, ReadFault};

/// The vectors at the end of a query.
fn lists<'a>(from: Source, lists: Lists, tokens: &'a [Lexeme]) -> Read<'a, Items<Vector>>
    ensures { Gives (λ x. (x.0, x.1.now)) result (lists_at lists tokens.now) }
{
    match lists {
        Lists::None => Ok((Items::new(from.alloc), tokens)),
        Lists::Strip | Lists::Torus => {
            let (periods, rest) = plain(from, tokens)?;
            let mut one = Items::new(from.alloc);
            one.push(periods)?;
            Ok((one, rest))
        }
        Lists::Vectors => some(from, tokens),
    }
}

/// The body of a query of this kind.
pub(crate) fn query<'a>(from: Source, kind: QueryKind, tokens: &'a [Lexeme]) -> Read<'a, Command>
    ensures { Gives (λ x. (x.0, x.1.now)) result (body from.entry.bytes.now (head.Query kind) tokens.now) }
{
    let row = kind.row();
    let (words, rest) = exactly(from, row.names.len(), tokens)?;
    let (numbers, rest) = exactly(from, row.numbers, rest)?;
    let (vectors, rest) = lists(from, row.lists, rest)?;
    let request = Request {
        kind,
        words,
        numbers,
        vectors,
    };
    Ok((Command::Query(request), rest))
}
