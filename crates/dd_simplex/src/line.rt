//! Lines of a dictionary, and their part in a pivot. A line gives one basic variable in terms of the nonbasic ones. If a call
//! that changes lines returns false, these lines are then unusable.
ghost use Rattle.std.specs.Prelude.{◌≡◌, ◌≢◌, ◌<◌, true, List, length, map};
ghost use Rattle.std.specs.List.{list_all, All};
ghost use lib.IntN.{pos};
ghost use Rattle.dd_fraction.specs.Exact.{Exact, times, inverse};
ghost use Rattle.dd_fraction.specs.Checked.{does_product_fit};
ghost use Rattle.dd_simplex.specs.Programs.{fraction_at};
ghost use Rattle.dd_simplex.specs.table.Lines.{IsIdle, HasFractions, less, do_all_less_fit, solved_line, does_solved_fit, changed_line, does_changed_fit, line_at, changed_lines, do_lines_fit};

use dd_fraction::Fraction;
use std::marker::Model;

/// The equation `basic = bound - sum of cell times variable`, with one cell for each nonbasic variable. The place of a
/// nonbasic variable is its index in the tableau's list of them. Its cell has the same index.
#[derive(Drop)]
pub struct Line {
    pub basic: usize,
    pub bound: Fraction,
    pub cells: Vec<Fraction>,
}

impl Model for Line {
    ghost use Rattle.dd_simplex.specs.table.Lines.{Line as LineValue};

    ghost Value = { LineValue };

    ghost view = { λ l. record { basic = l.basic; bound = l.bound; cells = l.cells.items } };
}

impl Line {
    /// The basic variable of the line.
    pub fn variable(&self) -> usize
        ensures { result ≡ self.now.basic }
    {
        self.basic
    }

    /// Solves the line for the variable `entering`, which is at the place `e`. The old basic variable then has the place `e`.
    /// Returns false if a number is too large.
    pub fn solve(&mut self, e: usize, entering: usize) -> bool
        requires place { e < length self.old.cells }
        requires cell { (fraction_at self.old.cells e).num ≢ pos 0 }
        ensures fits { result ≡ does_solved_fit e self.old }
        ensures value { result ≡ true → self.new ≡ solved_line entering e self.old }
    {
        let cell = self.cells[e];
        let Some(bound) = self.bound.div(&cell) else {
            return false
        };
        self.bound = bound;
        self.basic = entering;
        self.cells[e] = Fraction::whole(1);
        divide(self.cells.as_mut_slice(), &cell)
    }

    /// Substitutes the solved line `pivot` for the variable at the place `e`. A line whose cell at `e` is 0 stays as it is.
    /// Returns false if a number is too large.
    pub fn substitute(&mut self, e: usize, pivot: &Line) -> bool
        requires place { e < length self.old.cells }
        requires size { length self.old.cells ≡ length pivot.now.cells }
        requires own { HasFractions self.old }
        requires pivot { HasFractions pivot.now }
        ensures fits { result ≡ does_changed_fit e pivot.now self.old }
        ensures value { result ≡ true → self.new ≡ changed_line e pivot.now self.old }
    {
        if is_zero(&self.cells[e]) {
            return true;
        }
        self.take_multiple(e, pivot)
    }

    /// Subtracts from the line a multiple of the solved line `pivot`. The factor is the line's old cell at `e`. Before the
    /// pivot's cells are subtracted, this cell is set to 0. Returns false if a number is too large.
    fn take_multiple(&mut self, e: usize, pivot: &Line) -> bool
        requires place { e < length self.old.cells }
        requires size { length self.old.cells ≡ length pivot.now.cells }
        ensures fits { result ≡ does_changed_fit e pivot.now self.old }
        ensures value { result ≡ true → self.new ≡ changed_line e pivot.now self.old }
    {
        let factor = self.cells[e];
        let Some(bound) = self.bound.sub_product(&factor, &pivot.bound) else {
            return false
        };
        self.bound = bound;
        self.cells[e] = Fraction::whole(0);
        subtract(self.cells.as_mut_slice(), &factor, pivot.cells.as_slice())
    }
}

fn is_zero(fraction: &Fraction) -> bool
    ensures { result ≡ true → fraction.now.num ≡ pos 0 }
{
    fraction.num() == 0
}

/// Divides each cell by `by`. Returns false at the first cell for which a number is too large. Then this cell and those
/// after it are not divided.
fn divide(cells: &mut [Fraction], by: &Fraction) -> bool
    requires { by.now.num ≢ pos 0 }
    ensures fits { result ≡ list_all (λ a. does_product_fit a (inverse by.now)) cells.old }
    ensures value { result ≡ true → cells.new ≡ map (λ a. times a (inverse by.now)) cells.old }
{
    for i in 0..cells.len() {
        let Some(quotient) = cells[i].div(by) else {
            return false
        };
        cells[i] = quotient;
    }
    true
}

/// Subtracts `factor` times `others` from the cells, place by place. Returns false at the first cell for which a number is
/// too large. Then this cell and those after it are unchanged.
pub fn subtract(cells: &mut [Fraction], factor: &Fraction, others: &[Fraction]) -> bool
    requires { length cells.old ≡ length others.now }
    ensures fits { result ≡ do_all_less_fit factor.now cells.old others.now }
    ensures value { result ≡ true → cells.new ≡ less factor.now cells.old others.now }
{
    for i in 0..cells.len() {
        if is_idle(&cells[i], factor, &others[i]) {
            continue;
        }
        let Some(difference) = cells[i].sub_product(factor, &others[i]) else {
            return false
        };
        cells[i] = difference;
    }
    true
}

/// Whether `factor` or `other` is 0, so that subtracting their product from the cell changes nothing.
fn is_idle(cell: &Fraction, factor: &Fraction, other: &Fraction) -> bool
    ensures { result ≡ true → IsIdle cell.now factor.now other.now }
{
    // This call tells the proof what the type guarantees.
    let _num = cell.num();
    let num = factor.num();
    let other_num = other.num();
    num == 0 || other_num == 0
}

/// Substitutes the solved line `pivot` into each line. Returns false if a number is too large.
fn substitute_each(lines: &mut [Line], e: usize, pivot: &Line) -> bool
    requires place { e < length pivot.now.cells }
    requires sizes { All (λ l. length l.cells ≡ length pivot.now.cells) lines.old }
    requires fractions { All HasFractions lines.old }
    requires pivot { HasFractions pivot.now }
    ensures fits { result ≡ list_all (does_changed_fit e pivot.now) lines.old }
    ensures value { result ≡ true → lines.new ≡ map (changed_line e pivot.now) lines.old }
{
    for i in 0..lines.len() {
        if !lines[i].substitute(e, pivot) {
            return false;
        }
    }
    true
}

/// Pivots the lines: solves line `r` for the variable `entering`, which is at the place `e`, and substitutes the solved line
/// into the other lines. Returns false if a number is too large.
pub fn pivot_lines(lines: &mut [Line], e: usize, r: usize, entering: usize) -> bool
    requires line { r < length lines.old }
    requires place { e < length (line_at lines.old r).cells }
    requires cell { (fraction_at (line_at lines.old r).cells e).num ≢ pos 0 }
    requires sizes { All (λ l. length l.cells ≡ length (line_at lines.old r).cells) lines.old }
    requires fractions { All HasFractions lines.old }
    ensures fits { result ≡ do_lines_fit e r entering lines.old }
    ensures value { result ≡ true → lines.new ≡ changed_lines e r entering lines.old }
{
    let (front, rest) = lines.split_at_mut(r);
    let Some((leaving, back)) = rest.split_first_mut() else {
        return false
    };
    if !leaving.solve(e, entering) {
        return false;
    }
    if !substitute_each(front, e, leaving) {
        return false;
    }
    substitute_each(back, e, leaving)
}
