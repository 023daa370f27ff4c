//! Examples of how the crates are used. Without arguments, this program reads an output of diddy, which has a script and the
//! answers to its queries, and writes it again. With `check` it reads an output and says whether each query has exactly one
//! answer and each answer is a certificate. With `answer` it reads a script and writes the first line of each answer. With
//! `squares` it says whether the chessboard is a configuration of hard squares, in which no two 1s are side by side or one
//! above the other.
//!
//! A certificate is an answer that diddy's check accepts; the check makes no search. A roster is a list of engines. An engine
//! may propose an assignment that satisfies a list of clauses, or a refutation of the list, before diddy searches for one. Each
//! proposal is checked. Each position of the lattice has one or more nodes, and a cell is a position together with one of its
//! nodes. A topology has labelled edges between cells.
#![tactic(auto)]

mod asking;
mod checking;
mod deciding;
mod guessing;
mod lone;
mod rewriting;
mod squares;
mod tasks;

use crate::tasks::{Fault, Task};
use dd_outside::{StdSink, StdSource, write_whole};
use std::env;
use std::process::ExitCode;

// The task that the words after the program's name ask for.
fn task_of(rt: &HostRuntime) -> Result<Task, Fault> {
    let Ok(given) = env::args(rt) else {
        return Err(Fault::Words);
    };
    let mut words = Vec::new(rt.alloc());
    for word in given.skip(1) {
        if words.push(word).is_err() {
            return Err(Fault::Memory);
        }
    }
    Task::named(&words)
}

// What the task writes.
fn text_of(rt: &HostRuntime) -> Result<Vec<u8>, Fault> {
    let task = task_of(rt)?;
    let mut source = StdSource::new(rt.stdin());
    task.text(rt.alloc(), &mut source)
}

fn main(rt: HostRuntime) -> ExitCode {
    let text = match text_of(&rt) {
        Ok(text) => text,
        Err(fault) => {
            let _ = eprintln!(rt; "{}", fault.message());
            return ExitCode::FAILURE;
        }
    };
    let mut sink = StdSink::new(rt.stdout());
    match write_whole(&mut sink, &text) {
        Ok(()) => ExitCode::SUCCESS,
        Err(_) => ExitCode::FAILURE,
    }
}
