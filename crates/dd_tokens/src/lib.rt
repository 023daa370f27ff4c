//! Cuts the bytes of a script into tokens: words, numbers, and marks such as `->`. Blanks (spaces, tabs, line feeds and
//! carriage returns) and comments may stand between tokens. A comment begins with `--` and extends up to the next line feed or
//! to the end of the script. A byte isn't allowed if it should begin a blank, a comment or a token and begins none, or if it is
//! in a comment and greater than 127. Cutting stops at the first such byte.
#![tactic(auto)]

mod cutting;
mod piece;
mod token;

pub use cutting::tokens;
pub use token::{Token, TokenKind, Tokens};
