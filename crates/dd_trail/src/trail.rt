//! The literals that are true, in the order in which they became true. A list says of each literal whether it is false, so this
//! can be looked up in constant time.
//!
//! `reason`, `level`, `is_fixed` and `is_latest` are about a variable's entry on the trail (see `Entry`). For a variable
//! without a value, what they return means nothing. No contract depends on what they return. No invariant says that each
//! variable has a spot (see `Spot`), or that the spot's place is on the trail. So the code tests both. For variables that have
//! a value, the tests never fail.
ghost use Rattle.std.specs.Prelude.{◌≡◌, ℕ, ◌+◌, ◌<◌, ◌≤◌, ◌^◌, ◌++◌, ◌∷◌, [], true, false, length, take, slice_set, slice_index_or, ◌-◌, IfOk, OnOk, OnErr, MatchOption, IsTrue, ◌↔◌};
ghost use Rattle.dd_clause.specs.declared.clause.Literal.{Literal};
ghost use Rattle.dd_clause.specs.Clauses.{IsLiteralInRange};
ghost use Rattle.dd_values.specs.Variables.{true_variables};
ghost use Rattle.dd_derivation.specs.Derivations.{is_among, has_variable};
ghost use Rattle.dd_trail.specs.Trails.{falses, IsFree, IsFull};
ghost use Rattle.dd_trail.specs.keeping.Values.{code, IsDenied};

use dd_clause::{Assignment, Literal};
use dd_derivation::FalseLiterals;
use std::alloc::{AllocError, Global};
use std::marker::Model;

/// A literal that is true, and why: it was decided, or a clause forced it.
#[derive(Clone, Copy, Debug)]
pub struct Entry {
    /// The literal.
    pub literal: Literal,
    /// The number of the clause that forced it, or `None` if it was decided.
    pub reason: Option<u64>,
}

/// Where a variable's entry stands on the trail.
#[derive(Clone, Copy)]
struct Spot {
    /// The place of the entry. Places are counted from 0.
    place: usize,
    /// The decision level of the entry: the number of decisions on the trail up to and including the entry.
    level: usize,
}

/// The trail over the variables 1 to `variables`.
#[derive(Drop)]
pub struct Trail {
    variables: usize,
    entries: Vec<Entry>,
    /// For each literal, at the index of its code (see `code_of`), whether it is false.
    denied: Vec<bool>,
    /// For each variable, at the index of its number, the spot of its entry. The spot is out of date if the variable has no
    /// value.
    spots: Vec<Spot>,
    /// The places of the decisions on the trail, in ascending order.
    decision_places: Vec<usize>,
}

impl Model for Trail {
    ghost use Rattle.dd_trail.specs.Trails.{EntryList};
    ghost use Rattle.dd_trail.specs.keeping.Values.{IsDenied};

    ghost Value = { EntryList };

    ghost view = { λ t. record { variables = t.variables; entries = t.entries.items } };

    ghost invariant = { λ t. IsDenied t.variables t.entries.items t.denied.items };
}

/// The code of a literal: its index in a list of all literals. It is twice the number of the variable, plus 1 if the literal is
/// positive.
pub fn code_of(literal: Literal) -> usize
    ensures { result ≡ code literal }
{
    let even = 2 * literal.variable as usize;
    if literal.positive { even + 1 } else { even }
}

fn set_spot(spots: &mut Vec<Spot>, variable: u32, spot: Spot) {
    let variable = variable as usize;
    if variable < spots.len() {
        spots[variable] = spot;
    }
}

/// Adds the place of an entry to the places of decisions, if the entry was decided.
fn note_decision(places: &mut Vec<usize>, entry: Entry, place: usize) -> Result<(), AllocError> {
    if entry.reason.is_none() {
        places.push(place)?;
    }
    Ok(())
}

/// How many of the decisions stand before this place.
fn count_below(places: &[usize], place: usize) -> usize {
    for count in (0..places.len()).rev() {
        if places[count] < place {
            return count + 1;
        }
    }
    0
}

impl Trail {
    /// A trail without entries, over this many variables, which must be fewer than 2^32.
    pub fn new(alloc: Global, variables: usize) -> Result<Trail, AllocError>
        requires { variables < 2 ^ 32 }
        ensures variables { IfOk result (λ trail. trail.variables ≡ variables) }
        ensures entries { IfOk result (λ trail. trail.entries ≡ []) }
    {
        Ok(Trail {
            variables,
            entries: Vec::new(alloc),
            denied: vec![in alloc; false; 2 * variables + 2]?,
            spots: vec![in alloc; Spot { place: 0, level: 0 }; variables + 1]?,
            decision_places: Vec::new(alloc),
        })
    }

    /// The literals that are true, in the order in which they became true.
    pub fn entries(&self) -> &[Entry]
        ensures { result.now ≡ self.now.entries }
    {
        self.entries.as_slice()
    }

    /// Adds an entry at the end, which makes its literal true. The literal's variable must be one of the trail's variables, and
    /// must not have a value yet. If memory runs out, the entries stay the same.
    pub fn assign(&mut self, entry: Entry) -> Result<(), AllocError>
        requires in_range { IsLiteralInRange self.old.variables entry.literal }
        requires fresh { has_variable entry.literal.variable (falses self.old.entries) ≡ false }
        ensures variables { self.new.variables ≡ self.old.variables }
        ensures entries { OnOk result (self.new.entries ≡ self.old.entries ++ entry ∷ []) }
        ensures failed { OnErr result (self.new.entries ≡ self.old.entries) }
        ensures room { OnOk result (length self.old.entries < self.old.variables) }
    {
        let place = self.entries.len();
        note_decision(&mut self.decision_places, entry, place)?;
        self.entries.push(entry)?;
        let level = self.decision_places.len();
        set_spot(
            &mut self.spots,
            entry.literal.variable,
            Spot { place, level },
        );
        self.denied[code_of(entry.literal.negation())] = true;
        Ok(())
    }

    /// Removes all entries from this place on.
    pub fn undo(&mut self, place: usize)
        ensures variables { self.new.variables ≡ self.old.variables }
        ensures entries { self.new.entries ≡ take place self.old.entries }
    {
        while self.entries.len() > place {
            let last = self.entries.len() - 1;
            let entry = self.entries[last];
            self.denied[code_of(entry.literal.negation())] = false;
            self.entries.truncate(last);
        }
        self.decision_places
            .truncate(count_below(self.decision_places.as_slice(), place));
    }

    /// Whether each variable has a value.
    pub(crate) fn is_full(&self) -> bool
        ensures { IsTrue result ↔ IsFull self.now.variables self.now.entries }
    {
        self.entries.len() == self.variables
    }

    /// Whether this is the number of a variable without a value.
    pub(crate) fn is_free(&self, variable: usize) -> bool
        ensures { IsTrue result ↔ IsFree self.now.variables self.now.entries variable }
    {
        if variable == 0 || variable > self.variables {
            return false;
        }
        !self.denied[2 * variable] && !self.denied[2 * variable + 1]
    }

    /// The first variable that has no value. `None` if each has one.
    pub(crate) fn find_free(&self) -> Option<u32>
        requires { self.now.variables < 2 ^ 32 }
        ensures { MatchOption result (IsFull self.now.variables self.now.entries) (IsFree self.now.variables self.now.entries) }
    {
        for i in 0..self.variables {
            if self.is_free(i + 1) {
                return Some(i as u32 + 1);
            }
        }
        None
    }

    /// The values of the variables. A variable without a value counts as false.
    pub fn assignment(&self, alloc: Global) -> Result<Assignment, AllocError>
        ensures length { IfOk result (λ values. length values ≡ self.now.variables) }
        ensures values { IfOk result (λ values. (v : ℕ) → 1 ≤ v → v ≤ self.now.variables → true_variables values v ≡ is_among (falses self.now.entries) (record { variable = v; positive = false })) }
    {
        let mut values: Vec<bool> = Vec::new(alloc);
        for i in 0..self.variables {
            // The variable i + 1 is true if its negative literal is false.
            values.push(self.denied[2 * i + 2])?;
        }
        Ok(Assignment::new(values))
    }

    /// The number of the clause that forced the variable's value. `None` if the value was decided.
    pub fn reason(&self, variable: u32) -> Option<u64> {
        let place = self.place(variable);
        if place < self.entries.len() {
            return self.entries[place].reason;
        }
        None
    }

    /// The decision level of the variable's value: the number of decisions on the trail up to and including the variable's
    /// entry.
    pub fn level(&self, variable: u32) -> usize {
        let variable = variable as usize;
        if variable < self.spots.len() {
            return self.spots[variable].level;
        }
        0
    }

    /// Whether the variable's entry stands before every decision. If so, the clauses alone force the variable's value.
    pub fn is_fixed(&self, variable: u32) -> bool {
        match self.decision_places.first() {
            None => true,
            Some(first) => self.place(variable) < *first,
        }
    }

    /// Whether the variable got its value by the last decision or after it. True if there is no decision on the trail.
    pub fn is_latest(&self, variable: u32) -> bool {
        match self.decision_places.last() {
            None => true,
            Some(last) => self.place(variable) >= *last,
        }
    }

    /// For each literal, at the index of its code, whether it is false.
    pub(crate) fn denied(&self) -> &[bool]
        ensures { (l : Literal) → slice_index_or result.now (code l) false ≡ is_among (falses self.now.entries) l }
    {
        self.denied.as_slice()
    }

    /// The place of the variable's entry on the trail.
    fn place(&self, variable: u32) -> usize {
        let variable = variable as usize;
        if variable < self.spots.len() {
            return self.spots[variable].place;
        }
        0
    }
}

impl FalseLiterals for Trail {
    ghost is_false = { λ t. is_among (falses t.entries) };

    fn is_false(&self, literal: Literal) -> bool {
        let index = code_of(literal);
        index < self.denied.len() && self.denied[index]
    }
}
