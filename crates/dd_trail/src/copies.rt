//! A copy of the literals of all clauses, one clause after the other. While propagation passes watchers (see `watches`), it
//! reads this copy and not the clauses themselves: the copy lies in one piece in memory, and the literals of a clause can
//! change places in it. Each place of the copy holds a literal or an end mark, and the number of a clause. The places of a
//! clause stand side by side. The last of them holds an end mark, and the others hold its literals.
ghost use Rattle.std.specs.Prelude.{◌≡◌, ◌≢◌, ℕ, ◌+◌, ◌<◌, ◌≤◌, ◌++◌, ◌∷◌, [], true, false, List, Option, All, length, map, replicate, slice_index_or, IfOk, OnOk, OnErr, MatchOption, IfSome, ⊤};
ghost use Rattle.dd_clause.specs.declared.clause.Literal.{Literal};
ghost use Rattle.dd_trail.specs.Trails.{falses};
ghost use Rattle.dd_trail.specs.Propagation.{Says};
ghost use Rattle.dd_trail.specs.Copies.{AreCopied, IsOrdered, number_at, end_mark};
ghost use Rattle.dd_trail.specs.keeping.Values.{code};
ghost use Rattle.dd_trail.specs.keeping.Copying.{encode, HasCode, is_kept, IsStop, AreOnly, SaysForced};

use crate::database::Database;
use crate::propagation::Scan;
use crate::trail::{Trail, code_of};
use dd_clause::Literal;
use std::alloc::{AllocError, Global};

/// A literal's code (see `code_of`), in four bytes. It always fits, as a clause list has at most 2^24 variables.
#[derive(Clone, Copy, PartialEq, Eq)]
pub(crate) struct Code {
    pub index: u32,
}

impl Code {
    /// The code of a literal. If it didn't fit, this would be the end mark.
    pub fn new(literal: Literal) -> Code
        ensures { result.index ≢ 0 → result.index ≡ code literal }
    {
        Code {
            index: u32::try_from(code_of(literal)).unwrap_or(0),
        }
    }

    /// The literal that has this code.
    pub fn literal(self) -> Literal
        ensures { code result ≡ self.index }
    {
        Literal {
            variable: self.index / 2,
            positive: self.index % 2 == 1,
        }
    }

    pub fn negation(self) -> Code {
        Code {
            index: self.index ^ 1,
        }
    }

    pub fn index(self) -> usize
        ensures { result ≡ self.index }
    {
        self.index as usize
    }

    /// Whether the literal is false. `denied` says this of each literal, at the index of its code.
    pub fn is_false(self, denied: &[bool]) -> bool
        ensures { result ≡ slice_index_or denied.now self.index false }
    {
        let index = self.index();
        index < denied.len() && denied[index]
    }

    pub fn is_true(self, denied: &[bool]) -> bool {
        self.negation().is_false(denied)
    }
}

/// The end mark that follows the literals of each clause. No literal has this code, and it is never false.
pub(crate) const END: Code = Code { index: 0 };

/// A clause at which the passing of watchers stops. All of its literals are false, except perhaps the first two.
#[derive(Clone, Copy)]
pub(crate) struct Stop {
    /// The place of the clause's watcher in the list of watchers.
    pub at: usize,
    /// The place of the clause's first literal.
    pub first: usize,
    /// The place of the clause's end mark.
    pub end: usize,
}

/// The codes of the literals, and an end mark after them. `None` if the `Code` of a literal is the end mark, which never
/// happens.
fn encoded(alloc: Global, literals: &[Literal]) -> Result<Option<Vec<Code>>, AllocError>
    ensures { IfOk result (λ found. IfSome found (λ codes. (codes.items ≡ map encode literals.now ++ end_mark ∷ []) × All HasCode literals.now)) }
{
    let mut codes: Vec<Code> = Vec::with_capacity(alloc, literals.len() + 1)?;
    for literal in literals {
        let code = Code::new(*literal);
        if code == END {
            return Ok(None);
        }
        codes.push(code)?;
    }
    codes.push(END)?;
    Ok(Some(codes))
}

/// Adds the places of a clause, which has the given number, at the end of the copy. If memory runs out, nothing changes.
fn append(
    alloc: Global,
    numbers: &mut Vec<u32>,
    codes: &mut Vec<Code>,
    number: u32,
    added: &[Code],
) -> Result<(), AllocError>
    requires { length numbers.old.items ≡ length codes.old.items }
    ensures added { OnOk result ((codes.new.items ≡ codes.old.items ++ added.now) × (numbers.new.items ≡ numbers.old.items ++ replicate (length added.now) number)) }
    ensures failed { OnErr result ((codes.new.items ≡ codes.old.items) × (numbers.new.items ≡ numbers.old.items)) }
{
    let count = numbers.len();
    let more = vec![in alloc; number; added.len()]?;
    numbers.extend_from_slice(more.as_slice())?;
    if let Err(error) = codes.extend_from_slice(added) {
        numbers.truncate(count);
        return Err(error);
    }
    Ok(())
}

/// Whether the number is greater than all numbers in the copy.
fn is_next(numbers: &[u32], number: u32) -> bool
    requires { (j k : ℕ) → j ≤ k → k < length numbers.now → number_at numbers.now j ≤ number_at numbers.now k }
    ensures { result ≡ true → (p : ℕ) → p < length numbers.now → number_at numbers.now p < number }
{
    match numbers.last() {
        None => true,
        Some(last) => *last < number,
    }
}

/// Copies the clause with this number, if there is one. Nothing changes if the number is not greater than all numbers in the
/// copy, if it doesn't fit in 32 bits, if the `Code` of a literal is the end mark, or if memory runs out.
pub(crate) fn copy_clause(
    alloc: Global,
    numbers: &mut Vec<u32>,
    codes: &mut Vec<Code>,
    database: &Database,
    number: u64,
) -> Result<(), AllocError>
    requires { IsOrdered numbers.old.items codes.old.items }
    ensures ordered { IsOrdered numbers.new.items codes.new.items }
    ensures copied { AreCopied database.now (record { numbers = numbers.old.items; codes = codes.old.items }) → AreCopied database.now (record { numbers = numbers.new.items; codes = codes.new.items }) }
{
    let Some(literals) = database.find_clause(number) else {
        return Ok(());
    };
    let Ok(number) = u32::try_from(number) else {
        return Ok(());
    };
    if !is_next(numbers, number) {
        return Ok(());
    }
    match encoded(alloc, literals)? {
        None => Ok(()),
        Some(added) => append(alloc, numbers, codes, number, added.as_slice()),
    }
}

/// Whether the clause with this number is alive, that is, not deleted.
fn is_alive(alive: &[bool], number: u32) -> bool
    ensures { result ≡ is_kept alive.now number }
{
    let number = number as usize;
    number >= 1 && number <= alive.len() && alive[number - 1]
}

/// Removes the places of the clauses that are not alive.
pub(crate) fn keep_alive(numbers: &mut Vec<u32>, codes: &mut Vec<Code>, alive: &[bool])
    requires { IsOrdered numbers.old.items codes.old.items }
    ensures ordered { IsOrdered numbers.new.items codes.new.items }
    ensures copied { (known : List (Option (List Literal))) → AreCopied known (record { numbers = numbers.old.items; codes = codes.old.items }) → AreCopied known (record { numbers = numbers.new.items; codes = codes.new.items }) }
{
    let mut kept = 0usize;
    for place in 0..numbers.len() {
        let number = numbers[place];
        if is_alive(alive, number) {
            numbers[kept] = number;
            codes[kept] = codes[place];
            kept += 1;
        }
    }
    numbers.truncate(kept);
    codes.truncate(kept);
}

/// The number of the clause that has all places from `first` to `end`, and no others. `None` if there is no such clause, or if
/// `first` is not less than `end`.
fn number_between(numbers: &[u32], first: usize, end: usize) -> Option<u32>
    requires { (j k : ℕ) → j ≤ k → k < length numbers.now → number_at numbers.now j ≤ number_at numbers.now k }
    ensures { MatchOption result ⊤ (AreOnly numbers.now first end) }
{
    if first >= end || end >= numbers.len() {
        return None;
    }
    let number = numbers[first];
    let begins = first == 0 || numbers[first - 1] != number;
    let ends = end + 1 == numbers.len() || numbers[end + 1] != number;
    if begins && ends && numbers[end] == number {
        return Some(number);
    }
    None
}

/// What a look at the clause with this number finds, if the literal with this code is not false and all other literals of the
/// clause are false.
fn forced(trail: &Trail, number: u64, code: Code) -> Scan
    ensures { SaysForced trail.now.variables trail.now.entries number code.index result }
{
    let literal = code.literal();
    if trail.is_free(literal.variable as usize) {
        return Scan::Unit(number, literal);
    }
    Scan::Nothing
}

/// Looks at the clause of a stop. Finds nothing if the places from `first` to `end` are not those of one known clause, if one
/// of the clause's first two literals is true, or if neither of them has a value. Otherwise the clause is falsified or forces a
/// literal.
pub(crate) fn look_at_stop(
    numbers: &[u32],
    codes: &[Code],
    database: &Database,
    trail: &Trail,
    stop: Stop,
) -> Scan
    requires ordered { IsOrdered numbers.now codes.now }
    requires copied { AreCopied database.now (record { numbers = numbers.now; codes = codes.now }) }
    requires stop { IsStop (falses trail.now.entries) codes.now stop.first stop.end }
    ensures { Says database.now (falses trail.now.entries) ⊤ result }
{
    let Some(number) = number_between(numbers, stop.first, stop.end) else {
        return Scan::Nothing;
    };
    let number = u64::from(number);
    if !database.has_clause(number) {
        return Scan::Nothing;
    }
    let denied = trail.denied();
    let first = codes[stop.first];
    let second = codes[stop.first + 1];
    match (first.is_false(denied), second.is_false(denied)) {
        (true, true) => Scan::Conflict(number),
        (false, true) => forced(trail, number, first),
        (true, false) => forced(trail, number, second),
        (false, false) => Scan::Nothing,
    }
}
