//! The search (Marques-Silva and Sakallah 1999, Eén and Sörensson 2003). It runs in rounds. Each round begins with propagation:
//! forced literals are made true. If this leads to a conflict, the search learns a clause. If the clause is empty, the steps
//! are a refutation. If not, a backjump follows. If there is no conflict, the search decides a variable, that is, it chooses a
//! value for the variable. If each variable has a value already, these values satisfy the clauses.
//!
//! The search ends, because the trail can be read as a number in base 3 that has an upper bound. The number rises whenever a
//! literal is made true by propagation or by a decision, and at each backjump. In the contracts, `left` is the distance of this
//! number from its bound.
ghost use Rattle.std.specs.Prelude.{◌≡◌, ℕ, ◌+◌, ◌<◌, ◌≤◌, ◌^◌, ◌++◌, ◌∷◌, [], true, false, List, length, All, IfOk, OnOk, OnErr, MatchOption, IsTrue, ◌↔◌};
ghost use Rattle.dd_clause.specs.declared.clause.Literal.{Literal};
ghost use Rattle.dd_clause.specs.Clauses.{IsClauseInRange, Satisfies};
ghost use Rattle.dd_derivation.specs.Derivations.{known_after, refutes};
ghost use Rattle.dd_derivation.specs.checking.MarksOf.{known_of};
ghost use Rattle.dd_values.specs.Variables.{true_variables};
ghost use Rattle.dd_trail.specs.Trails.{IsFull};
ghost use Rattle.dd_solver.specs.searching.Search.{State, AreOpen, IsFalsified, IsForced, GoesOn, left};
ghost use Rattle.dd_solver.specs.Answers.{IsAnswer, IsFound, IsRefuted, IsSatisfiable};

use crate::analysis::{Backjump, learn};
use crate::deletion::Deletion;
use dd_clause::{Assignment, Clause, Cnf};
use dd_derivation::{Outcome, Step, delete_named};
use dd_trail::{Database, Entry, Order, Style, Trail, Watches};
use dd_values::Items;
use std::alloc::{AllocError, Global};
use std::marker::Model;

/// The state of the search.
#[derive(Drop)]
pub(crate) struct Search<'a> {
    /// The clauses of the list.
    clauses: &'a [Clause],
    /// The steps learned so far.
    steps: Vec<Step>,
    /// For each clause of the list, and then for the clause of each step, whether it is alive: no step has deleted it.
    alive: Vec<bool>,
    trail: Trail,
    watches: Watches,
    order: Order,
    deletion: Deletion,
    /// The memory that the analysis of a conflict works in: a mark for each variable.
    marked: Vec<bool>,
}

impl<'a> Model for Search<'a> {
    ghost use Rattle.std.specs.Prelude.{◌≡◌, ◌+◌, ◌<◌, ◌^◌, length};
    ghost use Rattle.dd_trail.specs.Copies.{AreCopied};
    ghost use Rattle.dd_solver.specs.searching.Search.{State, IsSearch, AreAlive, known_through, all_known};

    ghost Value = { State };

    ghost view = { λ s. record { variables = s.trail.variables; clauses = s.clauses.now; steps = s.steps.items; entries = s.trail.entries } };

    ghost invariant = { λ s. IsSearch (record { variables = s.trail.variables; clauses = s.clauses.now; steps = s.steps.items; entries = s.trail.entries }) × (length s.marked.items ≡ s.trail.variables) × (s.trail.variables < 2 ^ 32) × AreAlive s.clauses.now s.steps.items s.alive.items × AreCopied (known_through (all_known s.clauses.now) s.steps.items) s.watches };
}

/// Adds a step. Its clause is then alive, and the clauses that it deletes no longer are. If memory runs out, nothing changes.
fn push_step(steps: &mut Vec<Step>, alive: &mut Vec<bool>, step: Step) -> Result<(), AllocError>
    ensures steps { OnOk result (steps.new.items ≡ steps.old.items ++ step ∷ []) }
    ensures alive { OnOk result ((cs : List (List Literal)) → known_of cs alive.new.items ≡ known_after (known_of cs (alive.old.items ++ true ∷ [])) step.deletes) }
    ensures length { OnOk result (length alive.new.items ≡ length alive.old.items + 1) }
    ensures failed { OnErr result ((steps.new.items ≡ steps.old.items) × (alive.new.items ≡ alive.old.items)) }
{
    let count = alive.len();
    let last = steps.len();
    alive.push(true)?;
    if let Err(error) = steps.push(step) {
        alive.truncate(count);
        return Err(error.into());
    }
    delete_named(alive.as_mut_slice(), steps[last].deletes.as_slice());
    Ok(())
}

impl<'a> Search<'a> {
    /// The state at the start: no variable has a value, and no clause has been learned.
    pub(crate) fn new(
        alloc: Global,
        clauses: &'a [Clause],
        variables: u32,
        style: Style,
    ) -> Result<Search<'a>, AllocError>
        requires { All (IsClauseInRange variables) clauses.now }
        ensures variables { IfOk result (λ search. search.variables ≡ variables) }
        ensures clauses { IfOk result (λ search. search.clauses ≡ clauses.now) }
    {
        let variables = variables as usize;
        let mut watches = Watches::new(alloc, variables)?;
        let mut order = Order::new(alloc, variables, style)?;
        let alive = vec![in alloc; true; clauses.len()]?;
        let database = Database::new(clauses, &[], alive.as_slice());
        for (place, clause) in clauses.iter().enumerate() {
            watches.add(alloc, &database, place as u64 + 1)?;
            order.count(clause.literals());
        }
        order.arrange();
        Ok(Search {
            clauses,
            steps: Vec::new(alloc),
            alive,
            trail: Trail::new(alloc, variables)?,
            watches,
            order,
            deletion: Deletion::new(alloc, variables)?,
            marked: vec![in alloc; false; variables]?,
        })
    }

    /// Makes forced literals true, until it finds a falsified clause, or finds no clause that forces a literal. Returns the
    /// number of the falsified clause, or `None`. While some variable has no value, the contract allows `None` even if some
    /// clause is falsified or forces a literal. Once each variable has a value, `None` means that no clause is falsified.
    fn propagate(&mut self) -> Result<Option<u64>, AllocError>
        ensures same { (self.new.variables ≡ self.old.variables) × (self.new.clauses ≡ self.old.clauses) × (self.new.steps ≡ self.old.steps) }
        ensures conflict { IfOk result (λ conflict. MatchOption conflict (IsFull self.new.variables self.new.entries → AreOpen self.new) (IsFalsified self.new)) }
        ensures left { left self.new ≤ left self.old }
    {
        let database = Database::new(self.clauses, self.steps.as_slice(), self.alive.as_slice());
        self.watches.propagate(&database, &mut self.trail)
    }

    /// Decides a variable that has no value. Returns false if each variable has one.
    fn decide(&mut self) -> Result<bool, AllocError>
        ensures same { (self.new.variables ≡ self.old.variables) × (self.new.clauses ≡ self.old.clauses) × (self.new.steps ≡ self.old.steps) }
        ensures decided { result ≡ Ok true → left self.new < left self.old }
        ensures full { result ≡ Ok false → (self.new ≡ self.old) × IsFull self.new.variables self.new.entries }
    {
        let Some(literal) = self.order.choose(&self.trail) else {
            return Ok(false);
        };
        self.trail.assign(Entry {
            literal,
            reason: None,
        })?;
        Ok(true)
    }

    /// Learns a clause from the falsified one with the number `conflict`, and adds it as a step. The step may delete clauses.
    /// Returns where to go back to, or `None` if the steps now refute the clauses.
    fn analyse(&mut self, alloc: Global, conflict: u64) -> Result<Option<Backjump>, AllocError>
        requires { IsFalsified self.old conflict }
        ensures same { (self.new.variables ≡ self.old.variables) × (self.new.clauses ≡ self.old.clauses) × (self.new.entries ≡ self.old.entries) }
        ensures backjump { IfOk result (GoesOn self.new) }
    {
        let database = Database::new(self.clauses, self.steps.as_slice(), self.alive.as_slice());
        let learned = learn(
            alloc,
            &database,
            &self.trail,
            &mut self.order,
            self.marked.as_mut_slice(),
            conflict,
        )?;
        let numbers = self.deletion.note_learned(
            alloc,
            &database,
            &self.trail,
            self.clauses.len(),
            learned.literals.as_slice(),
            learned.hints.as_slice(),
        )?;
        self.deletion.bump_selected(
            &mut self.order,
            &self.trail,
            self.clauses.len(),
            learned.variables.as_slice(),
        );
        let clause = Clause::from_literals(alloc, learned.literals.as_slice())?;
        let hints = Items::from_slice(alloc, learned.hints.as_slice())?;
        let deletes = Items::from_vec(numbers);
        let step = Step {
            clause,
            hints,
            deletes,
        };
        self.watches.note_deleted(step.deletes.as_slice());
        push_step(&mut self.steps, &mut self.alive, step)?;
        self.watch_last(alloc)?;
        Ok(learned.backjump)
    }

    /// Makes the clause of the last step watch two of its literals, if it has at least two.
    fn watch_last(&mut self, alloc: Global) -> Result<(), AllocError>
        ensures { self.new ≡ self.old }
    {
        let database = Database::new(self.clauses, self.steps.as_slice(), self.alive.as_slice());
        self.watches.add(alloc, &database, database.count())
    }

    /// Removes the decision at the backjump's place and all entries after it. The last step's clause then forces the backjump's
    /// literal, which is made true.
    fn backtrack(&mut self, backjump: Backjump) -> Result<(), AllocError>
        requires { IsForced self.old backjump }
        ensures same { (self.new.variables ≡ self.old.variables) × (self.new.clauses ≡ self.old.clauses) × (self.new.steps ≡ self.old.steps) }
        ensures left { OnOk result (left self.new < left self.old) }
    {
        let number = self.clauses.len() as u64 + self.steps.len() as u64;
        self.watches.cut(backjump.place, self.alive.as_slice())?;
        self.order.put_back_from(&self.trail, backjump.place);
        self.trail.undo(backjump.place);
        self.trail.assign(Entry {
            literal: backjump.literal,
            reason: Some(number),
        })?;
        Ok(())
    }

    /// The values of the variables. The contract requires that each variable has a value and that no clause is falsified. So
    /// these values satisfy the clauses.
    fn assignment(&self, alloc: Global) -> Result<Assignment, AllocError>
        requires open { AreOpen self.now }
        requires full { IsFull self.now.variables self.now.entries }
        ensures { IfOk result (λ values. (length values ≡ self.now.variables) × Satisfies (true_variables values) self.now.clauses) }
    {
        self.trail.assignment(alloc)
    }

    /// The steps that have been learned.
    fn into_steps(self) -> Items<Step>
        ensures { result ≡ self.entry.steps }
    {
        Items::from_vec(self.steps)
    }

    /// Searches until an assignment satisfies the clauses or the steps refute them. Returns the assignment, or `None` if the
    /// clauses are refuted.
    fn settle(&mut self, alloc: Global) -> Result<Option<Assignment>, AllocError>
        ensures same { (self.new.variables ≡ self.old.variables) × (self.new.clauses ≡ self.old.clauses) }
        ensures settled { IfOk result (λ found. MatchOption found (refutes self.new.variables self.new.clauses self.new.steps ≡ true)
            (λ values. (length values ≡ self.new.variables) × Satisfies (true_variables values) self.new.clauses)) }
    {
        'rounds: loop {
            if let Some(conflict) = self.propagate()? {
                match self.analyse(alloc, conflict)? {
                    None => return Ok(None),
                    Some(backjump) => self.backtrack(backjump)?,
                }
            } else if !self.decide()? {
                return Ok(Some(self.assignment(alloc)?));
            }
        }
    }

    /// Searches to the end, and returns the outcome.
    fn run(mut self, alloc: Global) -> Result<Outcome, AllocError>
        ensures { IfOk result (IsAnswer self.entry.variables self.entry.clauses) }
    {
        match self.settle(alloc)? {
            None => Ok(Outcome::Refuted(self.into_steps())),
            Some(values) => Ok(Outcome::Found(values)),
        }
    }
}

/// Finds an assignment that satisfies the clauses, or steps that refute them. The assignment has a value for each variable of
/// the list. Fails only if memory runs out.
pub fn solve(alloc: Global, cnf: &Cnf) -> Result<Outcome, AllocError>
    ensures answer { IfOk result (IsAnswer cnf.now.variables cnf.now.clauses) }
    ensures found { IfOk result (λ outcome. IsFound outcome ↔ IsSatisfiable cnf.now.clauses) }
    ensures refuted { IfOk result (λ outcome. IsRefuted outcome ↔ ¬ (IsSatisfiable cnf.now.clauses)) }
{
    solve_with(alloc, cnf, Style::Broad)
}

/// Like `solve`, but in the given style (see `Style`). `solve` searches in the broad style. The style affects how long the
/// search takes, and which assignment or which steps it finds.
pub fn solve_with(alloc: Global, cnf: &Cnf, style: Style) -> Result<Outcome, AllocError>
    ensures answer { IfOk result (IsAnswer cnf.now.variables cnf.now.clauses) }
    ensures found { IfOk result (λ outcome. IsFound outcome ↔ IsSatisfiable cnf.now.clauses) }
    ensures refuted { IfOk result (λ outcome. IsRefuted outcome ↔ ¬ (IsSatisfiable cnf.now.clauses)) }
{
    let search = Search::new(alloc, cnf.clauses(), cnf.variables(), style)?;
    search.run(alloc)
}
