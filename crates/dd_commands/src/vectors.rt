//! Reads words, names, numbers, vectors and edges.
ghost use Rattle.std.specs.Prelude.{◌≡◌};
ghost use Rattle.dd_written.specs.reading.{Atoms.name_at, Readers.Gives};
ghost use Rattle.dd_commands.specs.Commands.{is_plain_entry, is_plain};
ghost use Rattle.dd_commands.specs.reading.Vectors.{word_at, number_at, entry_at, mark_at, vector, plain, shear, edge};

use crate::command::{Edge, Entry, Vector};
use crate::reading::{FromTokens, Read, Source, each};
use dd_values::Items;
use dd_written::{Lexeme, Mark, Name, Number, ReadFault, Word, read_name};

impl FromTokens for Word {
    ghost item = { λ bytes. word_at };

    fn read<'a>(_from: Source, tokens: &'a [Lexeme]) -> Read<'a, Word> {
        match tokens {
            [Lexeme::Word(word), rest @ ..] => Ok((*word, rest)),
            _ => Err(ReadFault::Syntax),
        }
    }
}

impl FromTokens for Number {
    ghost item = { λ bytes. number_at };

    fn read<'a>(_from: Source, tokens: &'a [Lexeme]) -> Read<'a, Number> {
        match tokens {
            [Lexeme::Number(number), rest @ ..] => Ok((*number, rest)),
            _ => Err(ReadFault::Syntax),
        }
    }
}

impl FromTokens for Name {
    ghost item = { λ bytes. name_at };

    fn read<'a>(_from: Source, tokens: &'a [Lexeme]) -> Read<'a, Name> {
        read_name(tokens)
    }
}

impl FromTokens for Entry {
    ghost item = { λ bytes. entry_at };

    fn read<'a>(_from: Source, tokens: &'a [Lexeme]) -> Read<'a, Entry> {
        match tokens {
            [Lexeme::Number(number), rest @ ..] => Ok((Entry::Number(*number), rest)),
            [Lexeme::Negative(number), rest @ ..] => Ok((Entry::Negative(*number), rest)),
            _ => Err(ReadFault::Syntax),
        }
    }
}

/// Reads one token, which must be the wanted mark. Returns the tokens after it.
#[tactic(auto, unfolding(crate::specs::reading::Vectors::same_mark))]
fn past<'a>(wanted: Mark, tokens: &'a [Lexeme]) -> Result<&'a [Lexeme], ReadFault>
    ensures { Gives (λ x. (tt, x.now)) result (mark_at wanted tokens.now) }
{
    match tokens {
        [Lexeme::Mark(mark), rest @ ..] if *mark == wanted => Ok(rest),
        _ => Err(ReadFault::Syntax),
    }
}

impl FromTokens for Vector {
    ghost item = { λ bytes. vector.item };

    fn read<'a>(from: Source, tokens: &'a [Lexeme]) -> Read<'a, Vector> {
        let rest = past(Mark::OpenList, tokens)?;
        let (entries, rest) = each(from, rest)?;
        let rest = past(Mark::CloseList, rest)?;
        Ok((Vector { entries }, rest))
    }
}

impl FromTokens for Edge {
    ghost item = { λ bytes. edge.item };

    fn read<'a>(from: Source, tokens: &'a [Lexeme]) -> Read<'a, Edge> {
        let rest = past(Mark::Open, tokens)?;
        let (label, rest) = Word::read(from, rest)?;
        let (start, rest) = read_name(rest)?;
        let (offset, rest) = Vector::read(from, rest)?;
        let (to, rest) = read_name(rest)?;
        let rest = past(Mark::Close, rest)?;
        let edge = Edge {
            label,
            from: start,
            offset,
            to,
        };
        Ok((edge, rest))
    }
}

/// Whether a vector has no negative number.
fn is_plain(vector: &Vector) -> bool
    ensures { result ≡ is_plain vector.now }
{
    let entries = vector.entries.as_slice();
    entries
        .iter()
        .all(|entry| matches!(entry, Entry::Number(_)))
}

/// A vector, which must have no negative number.
pub(crate) fn plain<'a>(from: Source, tokens: &'a [Lexeme]) -> Read<'a, Vector>
    ensures { Gives (λ x. (x.0, x.1.now)) result (plain.item tokens.now) }
{
    let (vector, rest) = Vector::read(from, tokens)?;
    if !is_plain(&vector) {
        return Err(ReadFault::Syntax);
    }
    Ok((vector, rest))
}

/// The shear of a configuration, if a vector without negative numbers comes next. Otherwise there is no shear, and nothing is
/// read.
pub(crate) fn shear<'a>(from: Source, tokens: &'a [Lexeme]) -> Read<'a, Option<Vector>>
    ensures { Gives (λ x. (x.0, x.1.now)) result (shear.item tokens.now) }
{
    match plain(from, tokens) {
        Ok((shear, rest)) => Ok((Some(shear), rest)),
        Err(ReadFault::Syntax) => Ok((None, tokens)),
        Err(ReadFault::Memory) => Err(ReadFault::Memory),
    }
}
