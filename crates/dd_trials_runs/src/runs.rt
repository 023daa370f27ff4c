//! Whole runs over bytes in memory.
use crate::engines::{Member, NO_ENGINES, session_over};
use dd_outside::MemorySink;
use dd_session::Status;
use std::alloc::{AllocError, Global};
use std::test::Fail;

/// A script with one query: is the chessboard a configuration in which no two neighbours are both 1?
pub const HARD: &str =
    "%rule hard o=1 -> (o.rt=0 & o.up=0)\n%conf c [2 2] 1 0 0 1\n%member c hard\n";

/// The words that follow the program's name, from a text in which they are separated by single spaces.
pub fn words_of(alloc: Global, text: &str) -> Result<Vec<String>, AllocError> {
    let mut words = Vec::new(alloc);
    for word in text.split(' ') {
        words.push(String::from_str(alloc, word)?)?;
    }
    Ok(words)
}

/// How a run ended.
#[derive(Drop)]
pub struct Ran {
    /// The status with which it ended.
    pub status: Status,
    /// What it wrote.
    pub output: Vec<u8>,
    /// How many engines are left in the roster.
    pub left: usize,
}

/// How a run over these bytes with these engines ended. Its sink can hold 1,000,000 bytes.
pub fn run_over(alloc: Global, bytes: &[u8], members: &[Member]) -> Result<Ran, AllocError> {
    let mut sink = MemorySink::new(alloc, 1_000_000, 5, Vec::new(alloc))?;
    let (status, left) = session_over(alloc, "run", bytes, members, &mut sink)?;
    let output = Vec::from_slice(alloc, sink.held_bytes())?;
    Ok(Ran {
        status,
        output,
        left,
    })
}

/// The status of a run over these bytes without engines, and what it wrote.
pub fn run_on(alloc: Global, bytes: &[u8]) -> Result<(Status, Vec<u8>), AllocError> {
    let ran = run_over(alloc, bytes, NO_ENGINES)?;
    Ok((ran.status, ran.output))
}

/// The lines of an output that begin with the word `query`, each with a line feed. If no line of the script begins with this
/// word, these are the first lines of the answers. Fails if the output is not UTF-8, or if memory runs out.
pub fn first_lines(alloc: Global, output: Vec<u8>) -> Result<String, Fail> {
    let mut lines = String::new(alloc);
    for line in String::from_utf8(output)?.lines() {
        if line.starts_with("query ") {
            lines.push_str(line)?;
            lines.push('\n')?;
        }
    }
    Ok(lines)
}
