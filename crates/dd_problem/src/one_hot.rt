//! Clauses that say that each cell has exactly one symbol, which its node allows.
ghost use Rattle.std.specs.Prelude.{◌≡◌, ◌≤◌, ◌<◌, ◌+◌, ◌-◌, ◌*◌, ◌^◌, ◌∷◌, ◌++◌, [], map, true, false, length, All, OnOk};
ghost use Rattle.std.specs.List.{range_with_len};
ghost use Rattle.dd_values.specs.Bounds.{most_variables};
ghost use Rattle.dd_cnf.specs.Encoding.{literal};
ghost use Rattle.dd_formula.specs.Counts.{disallowed};
ghost use Rattle.dd_problem.specs.Clauses.{pairs, none_of, symbol_clauses, cell_clauses};

use dd_clause::{Cnf, Literal};
use dd_cnf::push_clause;
use dd_formula::Rule;
use dd_lattice::Cell;
use std::alloc::{AllocError, Global};

/// The literal that says that the variable is false.
fn negative(variable: u32) -> Literal
    ensures { result ≡ literal variable false }
{
    Literal {
        variable,
        positive: false,
    }
}

/// Adds the clauses that say that `first` isn't true together with any of the variables from `from` to `end - 1`.
fn push_pairs_of(
    alloc: Global,
    cnf: &mut Cnf,
    first: u32,
    from: u32,
    end: u32,
) -> Result<(), AllocError>
    requires first { (1 ≤ first) × (first < from) }
    requires order { from ≤ end }
    requires wide { end ≤ cnf.old.variables + 1 }
    ensures variables { cnf.new.variables ≡ cnf.old.variables }
    ensures ok { OnOk result (cnf.new.clauses ≡
        cnf.old.clauses ++ map (λ w. literal first false ∷ literal w false ∷ []) (range_with_len from (end - from))) }
{
    for other in from..end {
        push_clause(alloc, cnf, &[negative(first), negative(other)])?;
    }
    Ok(())
}

/// Adds the clauses that say that no two of the variables from `from` to `end - 1` are true.
fn push_pairs(alloc: Global, cnf: &mut Cnf, from: u32, end: u32) -> Result<(), AllocError>
    requires first { 1 ≤ from }
    requires order { from ≤ end }
    requires wide { end ≤ cnf.old.variables + 1 }
    ensures variables { cnf.new.variables ≡ cnf.old.variables }
    ensures ok { OnOk result (cnf.new.clauses ≡ cnf.old.clauses ++ pairs (range_with_len from (end - from))) }
{
    for first in from..end {
        push_pairs_of(alloc, cnf, first, first + 1, end)?;
    }
    Ok(())
}

/// Adds the clause that says that some variable from `from` to `end - 1` is true.
fn push_some(alloc: Global, cnf: &mut Cnf, from: u32, end: u32) -> Result<(), AllocError>
    requires first { 1 ≤ from }
    requires order { from ≤ end }
    requires wide { end ≤ cnf.old.variables + 1 }
    ensures variables { cnf.new.variables ≡ cnf.old.variables }
    ensures ok { OnOk result (cnf.new.clauses ≡
        cnf.old.clauses ++ map (λ v. literal v true) (range_with_len from (end - from)) ∷ []) }
{
    let mut literals = Vec::with_capacity(alloc, (end - from) as usize)?;
    for variable in from..end {
        literals.push(Literal {
            variable,
            positive: true,
        })?;
    }
    push_clause(alloc, cnf, &literals)
}

/// Adds the clauses that say that the cell with this number has none of the symbols that its node doesn't allow.
fn push_disallowed(
    alloc: Global,
    cnf: &mut Cnf,
    premise: &Rule,
    number: u32,
    node: u32,
) -> Result<(), AllocError>
    requires node { node < premise.now.nodes }
    requires few { number * premise.now.symbols + premise.now.symbols ≤ most_variables }
    requires wide { number * premise.now.symbols + premise.now.symbols ≤ cnf.old.variables }
    ensures variables { cnf.new.variables ≡ cnf.old.variables }
    ensures ok { OnOk result (cnf.new.clauses ≡
        cnf.old.clauses ++ none_of premise.now.symbols number (disallowed premise.now node)) }
{
    let symbols = premise.symbols();
    for symbol in 0..symbols {
        if !premise.allows(node, symbol) {
            push_clause(alloc, cnf, &[negative(number * symbols + symbol + 1)])?;
        }
    }
    Ok(())
}

/// Adds the clauses that say that the cell with this number has one symbol, which its node allows.
fn push_cell(
    alloc: Global,
    cnf: &mut Cnf,
    premise: &Rule,
    number: u32,
    node: u32,
) -> Result<(), AllocError>
    requires node { node < premise.now.nodes }
    requires few { number * premise.now.symbols + premise.now.symbols ≤ most_variables }
    requires wide { number * premise.now.symbols + premise.now.symbols ≤ cnf.old.variables }
    ensures variables { cnf.new.variables ≡ cnf.old.variables }
    ensures ok { OnOk result (cnf.new.clauses ≡ cnf.old.clauses ++ symbol_clauses premise.now number node) }
{
    let from = number * premise.symbols() + 1;
    let end = from + premise.symbols();
    push_some(alloc, cnf, from, end)?;
    push_pairs(alloc, cnf, from, end)?;
    push_disallowed(alloc, cnf, premise, number, node)
}

/// Adds the clauses that say that each of the cells has one symbol, which its node allows. The number of a cell is its index in
/// `cells`, from 0. If memory runs out, some of these clauses may have been added.
pub(crate) fn push_cells(
    alloc: Global,
    cnf: &mut Cnf,
    premise: &Rule,
    cells: &[Cell],
) -> Result<(), AllocError>
    requires nodes { All (λ c. c.node < premise.now.nodes) cells.now }
    requires count { length cells.now < 2 ^ 32 }
    requires few { length cells.now * premise.now.symbols ≤ most_variables }
    requires wide { length cells.now * premise.now.symbols ≤ cnf.old.variables }
    ensures variables { cnf.new.variables ≡ cnf.old.variables }
    ensures ok { OnOk result (cnf.new.clauses ≡ cnf.old.clauses ++ cell_clauses premise.now cells.now) }
{
    let mut number = 0;
    for cell in cells {
        push_cell(alloc, cnf, premise, number, cell.node)?;
        number += 1;
    }
    Ok(())
}
