//! The syntax trees of scripts and their commands, and how they are read from bytes. Tokens are the lexemes of `dd_written`.
//! The token `Stray` stands for the first byte that isn't allowed and for all bytes after it. A reader takes an item from the
//! front of a list of tokens.
//!
//! A command is a `%`, a first word, and a body, which is all that follows up to the next `%`. The first word determines the
//! head and the stage of the command. The head says which command it is. The stage is a number: no command may follow one of a
//! higher stage. Some commands are queries. For each kind of query, a row of a table says what follows the first word.
//!
//! A vector is a list of integers in brackets. A periodic configuration has a vector of periods, one for each axis. The box
//! with these side lengths repeats. The configuration may have a shear too: each time the box repeats along y, it moves along x
//! by the shear.
#![tactic(auto)]

mod bodies;
mod command;
mod fault;
mod head;
mod keywords;
mod laws;
mod reading;
mod requests;
mod script;
mod table;
mod vectors;

pub use command::{Case, Command, Edge, Entry, Request, Vector};
pub use fault::SyntaxFault;
pub use laws::{one_fault, one_tree, tree_or_fault};
pub use script::{Syntax, Written, read};
pub use table::{Lists, QueryKind, QueryRow, Role};
