//! Reads items from the front of a list of tokens: one item, or several in a row.
ghost use Rattle.std.specs.Prelude.{◌≡◌, ℕ, List};
ghost use Rattle.dd_written.specs.reading.Readers.{Gives, Reader};
ghost use Rattle.dd_commands.specs.reading.Forms.{at_most, each_at, some_at, exactly_at};

use dd_values::Items;
use dd_written::{Lexeme, ReadFault};
use std::alloc::Global;

/// The bytes of a script, and the allocator for what is read from them.
#[derive(Clone, Copy)]
pub(crate) struct Source<'a> {
    pub(crate) alloc: Global,
    pub(crate) bytes: &'a [u8],
}

/// The item that was read and the tokens after it, or why nothing was read.
pub(crate) type Read<'a, T> = Result<(T, &'a [Lexeme]), ReadFault>;

/// Items that can be read from the front of a list of tokens.
pub(crate) trait FromTokens: Drop {
    // The reader of such an item, given the bytes of the script.
    ghost item: { List ℕ → Reader Self };

    fn read<'a>(from: Source, tokens: &'a [Lexeme]) -> Read<'a, Self>
        ensures { Gives (λ x. (x.0, x.1.now)) result (item from.entry.bytes.now tokens.now) };
}

/// As many items as can be read, up to `most`.
fn at_most<'a, T: FromTokens>(from: Source, most: usize, tokens: &'a [Lexeme]) -> Read<'a, Items<T>>
    ensures { Gives (λ x. (x.0, x.1.now)) result (at_most (T.item from.entry.bytes.now) most tokens.now) }
{
    let mut items = Items::new(from.alloc);
    let mut rest = tokens;
    for _ in 0..most {
        match T::read(from, rest) {
            Ok((next, after)) => {
                items.push(next)?;
                rest = after;
            }
            Err(ReadFault::Syntax) => return Ok((items, rest)),
            Err(ReadFault::Memory) => return Err(ReadFault::Memory),
        }
    }
    Ok((items, rest))
}

/// All items that come next. There may be none.
pub(crate) fn each<'a, T: FromTokens>(from: Source, tokens: &'a [Lexeme]) -> Read<'a, Items<T>>
    ensures { Gives (λ x. (x.0, x.1.now)) result (each_at (T.item from.entry.bytes.now) tokens.now) }
{
    at_most(from, tokens.len(), tokens)
}

/// All items that come next. There must be at least one.
pub(crate) fn some<'a, T: FromTokens>(from: Source, tokens: &'a [Lexeme]) -> Read<'a, Items<T>>
    ensures { Gives (λ x. (x.0, x.1.now)) result (some_at (T.item from.entry.bytes.now) tokens.now) }
{
    let (items, rest) = each(from, tokens)?;
    if items.is_empty() {
        return Err(ReadFault::Syntax);
    }
    Ok((items, rest))
}

/// Exactly `count` items.
pub(crate) fn exactly<'a, T: FromTokens>(
    from: Source,
    count: usize,
    tokens: &'a [Lexeme],
) -> Read<'a, Items<T>>
    ensures { Gives (λ x. (x.0, x.1.now)) result (exactly_at count (T.item from.entry.bytes.now) tokens.now) }
{
    let (items, rest) = at_most(from, count, tokens)?;
    if items.len() != count {
        return Err(ReadFault::Syntax);
    }
    Ok((items, rest))
}
