// Outputs of runs over scripts, and whether a check accepts them. A run may have engines. Before diddy itself searches, an
// engine may propose an assignment that should satisfy a list of clauses, or steps that should refute the list.
use dd_outside::{MemorySink, MemorySource};
use dd_session::{Status, check_diddy};
use dd_trials_runs::{Member, NO_ENGINES, OF_PROGRAM, Ran, first_lines, run_over};
use std::alloc::{AllocError, Global};
use std::process::Abort;
use std::test::Fail;

// The status with which a check of these bytes ends.
fn check_of(alloc: Global, bytes: &[u8]) -> Result<Status, AllocError> {
    let mut source = MemorySource::new(Vec::from_slice(alloc, bytes)?, 7, Vec::new(alloc));
    let mut sink = MemorySink::new(alloc, 400, 5, Vec::new(alloc))?;
    Ok(check_diddy(alloc, &mut source, &mut sink))
}

// The status of a run or a check with these lines of answers, if all answers are right.
fn status_with(answers: &str) -> Status {
    if answers.contains("UNKNOWN") {
        Status::SomeUnknown
    } else {
        Status::Definite
    }
}

// The whole output for a script with these lines of answers.
fn output_of(alloc: Global, script: &str, answers: &str) -> Result<String, AllocError> {
    let length = script.len();
    format!(in alloc; "diddy 1\nscript {length}\n{script}\n{answers}end\n")
}

// Runs the script with these engines, and returns the whole output. Asserts that the run, and a check of its output, end with
// the status for these lines of answers.
fn checked_output(
    rt: &impl Abort,
    alloc: Global,
    members: &[Member],
    script: &str,
    answers: &str,
) -> Result<Vec<u8>, Fail> {
    let Ran { status, output, .. } = run_over(alloc, script.as_bytes(), members)?;
    assert_eq!(rt; status, status_with(answers), "{script}");
    assert_eq!(rt; check_of(alloc, &output)?, status, "{script}");
    Ok(output)
}

/// Asserts that runs of the script, without engines and with those of the program, give answers with these first lines, and that
/// a check accepts each output.
pub(crate) fn assert_first_lines(
    rt: &impl Abort,
    alloc: Global,
    script: &str,
    answers: &str,
) -> Result<(), Fail> {
    for members in [NO_ENGINES, OF_PROGRAM] {
        let output = checked_output(rt, alloc, members, script, answers)?;
        let lines = first_lines(alloc, output)?;
        assert_eq!(rt; lines.as_str(), answers, "{script}");
    }
    Ok(())
}

/// Asserts that the answers to each script have these first lines, and that a check accepts each output.
pub(crate) fn assert_lines(
    rt: &impl Abort,
    alloc: Global,
    rows: &[(&str, &str)],
) -> Result<(), Fail> {
    for (script, answers) in rows {
        assert_first_lines(rt, alloc, script, answers)?;
    }
    Ok(())
}

/// Asserts that a run of each script without engines gives exactly these lines of answers, and that a check accepts its output.
pub(crate) fn assert_answers(
    rt: &impl Abort,
    alloc: Global,
    rows: &[(&str, &str)],
) -> Result<(), Fail> {
    for (script, answers) in rows {
        let output = checked_output(rt, alloc, NO_ENGINES, script, answers)?;
        let wanted = output_of(alloc, script, answers)?;
        assert_eq!(rt; output.as_slice(), wanted.as_bytes(), "{script}");
    }
    Ok(())
}

/// For each row, asserts that a check accepts the output with the row's lines of answers, or that the check rejects an answer
/// in this output, as the row says.
pub(crate) fn assert_checks(
    rt: &impl Abort,
    alloc: Global,
    script: &str,
    rows: &[(&str, bool)],
) -> Result<(), Fail> {
    for (answers, accepted) in rows {
        let output = output_of(alloc, script, answers)?;
        let wanted = if *accepted {
            status_with(answers)
        } else {
            Status::Rejected
        };
        assert_eq!(rt; check_of(alloc, output.as_bytes())?, wanted, "{answers}");
    }
    Ok(())
}
