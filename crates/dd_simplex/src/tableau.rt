//! The tableau: a dictionary in the form that the run uses. It has a line for each basic variable, a list of the nonbasic
//! variables, and the objective.
ghost use Rattle.std.specs.Prelude.{◌≡◌, ◌≢◌, ◌<◌, true, false, length, Option, Some, None, ℕ, MatchResult, IfOk, IfErr, slice_set};
ghost use Rattle.std.specs.List.{All};
ghost use lib.IntN.{pos};
ghost use Rattle.dd_simplex.specs.declared.fault.SimplexFault.TheVariants.{Overflow};
ghost use Rattle.dd_fraction.specs.Exact.{plus, times};
ghost use Rattle.dd_simplex.specs.Programs.{fraction_at, zero_of};
ghost use Rattle.dd_simplex.specs.table.Lines.{HasFractions, Line as LineValue, Table, line_at, changed_table, does_table_fit, does_objective_line_fit, less};
ghost use Rattle.dd_simplex.specs.table.Standing.{IsTable};
ghost use Rattle.dd_simplex.specs.table.Steps.{DoesEnter, HasIterated, IsStuck};
ghost use Rattle.dd_simplex.specs.table.Choices.{IsChosen, does_enter, EntersBefore, does_limit, LeavesBefore, DoRatiosFit, HasMisfit, does_precede};

use crate::fault::SimplexFault;
use crate::line::{Line, pivot_lines, subtract};
use dd_fraction::Fraction;
use std::cmp::Ordering;
use std::marker::Model;

/// A line for each basic variable, and the objective `value + sum of cost times variable`. The lines and the objective are in
/// terms of the nonbasic variables, which `others` lists. A nonbasic variable's place is its index in `others`. Its cost and
/// its cell in each line have the same index.
#[derive(Drop)]
pub struct Tableau {
    pub lines: Vec<Line>,
    pub others: Vec<usize>,
    pub value: Fraction,
    pub costs: Vec<Fraction>,
}

impl Model for Tableau {
    ghost use Rattle.dd_simplex.specs.table.Lines.{Table};

    ghost Value = { Table };

    ghost view = { λ t. record { lines = t.lines.items; others = t.others.items; value = t.value; costs = t.costs.items } };
}

impl Tableau {
    /// Makes one iteration by Bland's rule. Returns true if a pivot was made, and false if no variable may enter.
    ///
    /// # Errors
    /// `Overflow` if a number is too large, or if a variable enters but none may leave. The tableau is then unusable.
    pub fn iterate(&mut self) -> Result<bool, SimplexFault>
        requires { IsTable self.old }
        ensures end { IfOk result (λ more. more ≡ false → DoesEnter self.old None × (self.new ≡ self.old)) }
        ensures iterated { IfOk result (λ more. more ≡ true → HasIterated self.old self.new) }
        ensures stuck { IfErr result (λ fault. (fault ≡ Overflow) × IsStuck self.old) }
    {
        let Some(e) = entering(self.costs.as_slice(), self.others.as_slice()) else {
            return Ok(false)
        };
        let Some(r) = leaving(self.lines.as_slice(), e)? else {
            // This never happens in a run, since the first row limits column 0.
            return Err(SimplexFault::Overflow)
        };
        if !self.pivot(e, r) {
            return Err(SimplexFault::Overflow);
        }
        Ok(true)
    }

    /// Whether no variable may enter.
    pub fn is_at_end(&self) -> bool
        requires { IsTable self.now }
        ensures end { result ≡ true → DoesEnter self.now None }
        ensures more { result ≡ false → (j : ℕ) × DoesEnter self.now (Some j) }
    {
        entering(self.costs.as_slice(), self.others.as_slice()).is_none()
    }

    /// Makes the variable at the place `e` basic in the line `r`. Returns false if a number is too large; then the tableau is
    /// unusable.
    pub fn pivot(&mut self, e: usize, r: usize) -> bool
        requires fractions { All HasFractions self.old.lines }
        requires line { r < length self.old.lines }
        requires place { e < length self.old.others }
        requires cell { (fraction_at (line_at self.old.lines r).cells e).num ≢ pos 0 }
        requires costs { length self.old.costs ≡ length self.old.others }
        requires sizes { All (λ l. length l.cells ≡ length self.old.others) self.old.lines }
        ensures fits { result ≡ does_table_fit e r self.old }
        ensures value { result ≡ true → self.new ≡ changed_table e r self.old }
    {
        let entering = self.others[e];
        let leaving = self.lines[r].basic;
        if !pivot_lines(self.lines.as_mut_slice(), e, r, entering) {
            return false;
        }
        self.others[e] = leaving;
        pivot_objective(
            &mut self.value,
            self.costs.as_mut_slice(),
            e,
            &self.lines[r],
        )
    }
}

/// Substitutes the line `pivot`, which is solved for the variable at the place `e`, into the objective. Returns false if a
/// number is too large.
fn pivot_objective(value: &mut Fraction, costs: &mut [Fraction], e: usize, pivot: &Line) -> bool
    requires place { e < length costs.old }
    requires size { length costs.old ≡ length pivot.now.cells }
    ensures fits { result ≡ does_objective_line_fit e pivot.now value.old costs.old }
    ensures value { result ≡ true → value.new ≡ plus value.old (times (fraction_at costs.old e) pivot.now.bound) }
    ensures costs { result ≡ true → costs.new ≡ less (fraction_at costs.old e) (slice_set costs.old e zero_of) pivot.now.cells }
{
    let factor = costs[e];
    let Some(product) = factor.mul(&pivot.bound) else {
        return false
    };
    let Some(sum) = value.add(&product) else {
        return false
    };
    *value = sum;
    costs[e] = Fraction::whole(0);
    subtract(costs, &factor, pivot.cells.as_slice())
}

/// Returns the place of the variable that enters: the lowest-numbered variable whose cost is greater than 0. Returns `None` if
/// there is no such variable.
pub fn entering(costs: &[Fraction], others: &[usize]) -> Option<usize>
    requires { length costs.now ≡ length others.now }
    ensures { IsChosen (does_enter costs.now) (EntersBefore others.now) (length costs.now) result }
{
    let mut chosen: Option<usize> = None;
    for j in 0..costs.len() {
        if costs[j].num() <= 0 {
            continue;
        }
        match chosen {
            Some(first) if others[first] < others[j] => {}
            _ => chosen = Some(j),
        }
    }
    chosen
}

/// Returns the index of the line whose variable leaves. Of the lines whose cell at `e` is greater than 0, this is the one with
/// the least ratio of bound to cell. If several have this ratio, it is the one with the lowest-numbered basic variable. Returns
/// `None` if no cell at `e` is greater than 0.
///
/// # Errors
/// `Overflow` if an intermediate number of a ratio is too large.
pub fn leaving(lines: &[Line], e: usize) -> Result<Option<usize>, SimplexFault>
    requires sizes { All (λ (l : LineValue). e < length l.cells) lines.now }
    ensures line { MatchResult result
        (λ chosen. DoRatiosFit lines.now e (length lines.now)
        × IsChosen (does_limit lines.now e) (LeavesBefore lines.now e) (length lines.now) chosen)
        (λ fault. HasMisfit lines.now e) }
    ensures fault { IfErr result (λ fault. fault ≡ Overflow) }
{
    let mut chosen: Option<usize> = None;
    let mut least = Fraction::whole(0);
    for i in 0..lines.len() {
        let line = &lines[i];
        let cell = line.cells[e];
        if cell.num() <= 0 {
            continue;
        }
        let Some(ratio) = line.bound.div(&cell) else {
            return Err(SimplexFault::Overflow)
        };
        match chosen {
            Some(place) if !precedes(&ratio, line.basic, &least, lines[place].variable()) => {}
            _ => {
                chosen = Some(i);
                least = ratio;
            }
        }
    }
    Ok(chosen)
}

/// Whether `ratio` is less than `other`, or the two are equal and `variable` is less than `other_variable`.
fn precedes(ratio: &Fraction, variable: usize, other: &Fraction, other_variable: usize) -> bool
    ensures { result ≡ does_precede ratio.now variable other.now other_variable }
{
    match ratio.compare(other) {
        Ordering::Less => true,
        Ordering::Equal => variable < other_variable,
        Ordering::Greater => false,
    }
}
