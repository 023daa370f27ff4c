//! Cuts bytes into tokens, piece by piece.
ghost use Rattle.std.specs.Prelude.{◌≡◌, ◌≤◌, length, IfOk};
ghost use Rattle.dd_values.specs.Bounds.{most_script};
ghost use Rattle.dd_tokens.specs.Format.{tokens_of};

use crate::piece::{Piece, first};
use crate::token::{Token, Tokens};
use dd_values::Items;
use std::alloc::{AllocError, Global};

/// Cuts bytes into tokens, up to the first byte that isn't allowed. Each token is as long as possible. There may be at most
/// 1,048,576 bytes. Fails only if memory runs out.
pub fn tokens(alloc: Global, bytes: &[u8]) -> Result<Tokens, AllocError>
    requires { length bytes.now ≤ most_script }
    ensures value { IfOk result (λ cut. cut ≡ tokens_of bytes.now) }
    ensures few { IfOk result (λ cut. length cut.list ≤ length bytes.now) }
{
    let mut list = Items::new(alloc);
    let mut position = 0;
    let mut rest = bytes;
    while !rest.is_empty() {
        match first(rest) {
            Piece::Gap(n) => {
                rest = rest.split_at(n as usize).1;
                position += n;
            }
            Piece::Cut(kind, n) => {
                list.push(Token {
                    kind,
                    start: position,
                    length: n,
                })?;
                rest = rest.split_at(n as usize).1;
                position += n;
            }
            Piece::Fault(n) => {
                let stop = position + n;
                return Ok(Tokens { list, stop });
            }
        }
    }
    Ok(Tokens {
        list,
        stop: position,
    })
}
