//! Turns the bytes of a script into lexemes, the tokens that the grammar reads.
ghost use Rattle.std.specs.Prelude.{◌≡◌, ◌≤◌, ◌+◌, length, map, IfOk};
ghost use Rattle.std.specs.{Char.is_ascii, List.list_all};
ghost use Rattle.dd_values.specs.Bounds.{most_script};
ghost use Rattle.dd_written.specs.Lexemes.{one_byte_mark, mark_at, lexeme_of, lexemes_of};

use crate::lexeme::{Lexeme, Mark, Number, Word};
use crate::words::part;
use dd_tokens::{Token, TokenKind, tokens};
use dd_values::Items;
use std::alloc::{AllocError, Global};

/// The mark that consists of this byte.
fn one_byte_mark(byte: u8) -> Option<Mark>
    ensures { result ≡ one_byte_mark byte }
{
    match byte {
        b'A' => Some(Mark::All),
        b'E' => Some(Mark::Exists),
        b'%' => Some(Mark::Percent),
        b'(' => Some(Mark::Open),
        b')' => Some(Mark::Close),
        b'[' => Some(Mark::OpenList),
        b']' => Some(Mark::CloseList),
        b'.' => Some(Mark::Dot),
        b'=' => Some(Mark::Equal),
        b'!' => Some(Mark::Not),
        b'&' => Some(Mark::And),
        b'|' => Some(Mark::Or),
        b'~' => Some(Mark::Tilde),
        b'@' => Some(Mark::At),
        b':' => Some(Mark::Colon),
        _ => None,
    }
}

/// The mark with this text.
fn mark(written: &[u8]) -> Option<Mark>
    ensures { result ≡ mark_at written.now }
{
    match written {
        [byte] => one_byte_mark(*byte),
        b"!=" => Some(Mark::NotEqual),
        b"->" => Some(Mark::Arrow),
        b"<->" => Some(Mark::BothWays),
        _ => None,
    }
}

/// The lexeme of a token that was cut from these bytes. A mark with an unknown text would become `Stray`, but `tokens` never
/// cuts such a mark.
fn lexeme(bytes: &[u8], token: Token) -> Lexeme
    ensures { result ≡ lexeme_of bytes.now token }
{
    let Token { start, length, .. } = token;
    match token.kind {
        TokenKind::Word => Lexeme::Word(Word { start, length }),
        TokenKind::Number => Lexeme::Number(Number { start, length }),
        TokenKind::Negative => Lexeme::Negative(Number { start, length }),
        TokenKind::Mark => mark(part(bytes, start, length)).map_or(Lexeme::Stray, Lexeme::Mark),
    }
}

/// The lexemes of the tokens in `list`, in order.
fn lexemes_in(alloc: Global, bytes: &[u8], list: &[Token]) -> Result<Items<Lexeme>, AllocError>
    ensures { IfOk result (λ lexemes. lexemes ≡ map (lexeme_of bytes.now) list.now) }
{
    let mut lexemes = Items::new(alloc);
    for token in list {
        lexemes.push(lexeme(bytes, *token))?;
    }
    Ok(lexemes)
}

fn is_ascii(bytes: &[u8]) -> bool
    ensures { result ≡ list_all is_ascii bytes.now }
{
    bytes.iter().all(|byte| byte.is_ascii())
}

/// The lexemes of some bytes, up to the first byte that isn't allowed. If there is such a byte, `Stray` comes last. There may
/// be at most 1,048,576 bytes. Fails only if memory runs out.
pub fn lexemes(alloc: Global, bytes: &[u8]) -> Result<Items<Lexeme>, AllocError>
    requires { length bytes.now ≤ most_script }
    ensures value { IfOk result (λ lexemes. lexemes ≡ lexemes_of bytes.now) }
    ensures few { IfOk result (λ lexemes. length lexemes ≤ most_script + 1) }
{
    let cut = tokens(alloc, bytes)?;
    let mut lexemes = lexemes_in(alloc, bytes, cut.list.as_slice())?;
    if cut.stop as usize != bytes.len() || !is_ascii(bytes) {
        lexemes.push(Lexeme::Stray)?;
    }
    Ok(lexemes)
}
