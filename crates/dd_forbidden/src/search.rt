//! The search for the breaking fillings. The search takes the cells one by one. At each cell it tries the symbols that the
//! cell's node allows, in order. If `Numbered::settled` finds that the rule is true whatever symbols follow, the branch ends.
//! If it finds that the rule is false whatever symbols follow, all fillings of the branch that have only allowed symbols are
//! listed.
ghost use Rattle.std.specs.Prelude.{[], ◌∷◌, ◌≡◌, ◌<◌, ◌+◌, ◌++◌, length, map, OnOk};
ghost use Rattle.std.specs.List.Sorted.{IsStrictlySortedBy};
ghost use Rattle.dd_lattice.specs.Order.{cell_cmp};
ghost use Rattle.dd_pattern.specs.Filling.{filled};
ghost use Rattle.dd_formula.specs.LocalRule.{cells_at};
ghost use Rattle.dd_forbidden.specs.listing.Extensions.{completions, extensions, AreOf, AreSymbols};
ghost use Rattle.dd_forbidden.specs.listing.Saying.{SaysRule};

use dd_formula::Rule;
use dd_lattice::Cell;
use dd_numbered::Numbered;
use dd_pattern::Filling;
use dd_values::Items;
use std::alloc::{AllocError, Global};

/// Appends the breaking fillings that begin with `symbols`. These symbols are taken to be allowed. `cells` are all cells that
/// the rule reads at the node, and `rest` are those that have no symbol yet. `formula` is the rule's expansion at the node,
/// with a number in place of each cell: the cell's index in `cells`.
pub(crate) fn extend(
    alloc: Global,
    rule: &Rule,
    node: u32,
    formula: &Numbered,
    cells: &[Cell],
    rest: &[Cell],
    symbols: &mut Items<u32>,
    found: &mut Items<Filling>,
) -> Result<(), AllocError>
    requires formula { SaysRule rule.now node formula.now }
    requires cells { cells.now ≡ cells_at rule.now node }
    requires ascending { IsStrictlySortedBy cell_cmp cells.now }
    requires rest { AreOf rule.now rest.now }
    requires length { length symbols.old + length rest.now ≡ length (cells_at rule.now node) }
    requires symbols { AreSymbols rule.now symbols.old }
    ensures found { OnOk result (found.new ≡ found.old ++ map (filled (cells_at rule.now node)) (extensions rule.now node rest.now symbols.old)) }
    ensures symbols { OnOk result (symbols.new ≡ symbols.old) }
{
    let Some((cell, later)) = rest.split_first() else {
        return push_breaking(alloc, rule, node, formula, cells, symbols.as_slice(), found);
    };
    match formula.settled(symbols.as_slice()) {
        Some(true) => return Ok(()),
        Some(false) => return complete(alloc, rule, cells, rest, symbols, found),
        None => {}
    }
    for symbol in 0..rule.symbols() {
        if rule.allows(cell.node, symbol) {
            symbols.push(symbol)?;
            extend(alloc, rule, node, formula, cells, later, symbols, found)?;
            symbols.pop();
        }
    }
    Ok(())
}

/// Appends all fillings that begin with `symbols` and give allowed symbols to the cells of `rest`, whether the rule is true
/// under them or not.
fn complete(
    alloc: Global,
    rule: &Rule,
    cells: &[Cell],
    rest: &[Cell],
    symbols: &mut Items<u32>,
    found: &mut Items<Filling>,
) -> Result<(), AllocError>
    requires ascending { IsStrictlySortedBy cell_cmp cells.now }
    requires rest { AreOf rule.now rest.now }
    requires length { length symbols.old + length rest.now ≡ length cells.now }
    ensures found { OnOk result (found.new ≡ found.old ++ map (filled cells.now) (completions rule.now rest.now symbols.old)) }
    ensures symbols { OnOk result (symbols.new ≡ symbols.old) }
{
    let Some((next, later)) = rest.split_first() else {
        return push_filling(alloc, cells, symbols.as_slice(), found);
    };
    for symbol in 0..rule.symbols() {
        if rule.allows(next.node, symbol) {
            symbols.push(symbol)?;
            complete(alloc, rule, cells, later, symbols, found)?;
            symbols.pop();
        }
    }
    Ok(())
}

/// Appends the filling with these symbols, unless the rule is true under it.
fn push_breaking(
    alloc: Global,
    rule: &Rule,
    node: u32,
    formula: &Numbered,
    cells: &[Cell],
    symbols: &[u32],
    found: &mut Items<Filling>,
) -> Result<(), AllocError>
    requires formula { SaysRule rule.now node formula.now }
    requires cells { cells.now ≡ cells_at rule.now node }
    requires ascending { IsStrictlySortedBy cell_cmp cells.now }
    requires length { length symbols.now ≡ length (cells_at rule.now node) }
    requires symbols { AreSymbols rule.now symbols.now }
    ensures { OnOk result (found.new ≡ found.old ++ map (filled (cells_at rule.now node)) (extensions rule.now node [] symbols.now)) }
{
    if formula.truth(symbols) {
        return Ok(());
    }
    push_filling(alloc, cells, symbols, found)
}

/// Appends the filling with these symbols.
fn push_filling(
    alloc: Global,
    cells: &[Cell],
    symbols: &[u32],
    found: &mut Items<Filling>,
) -> Result<(), AllocError>
    requires ascending { IsStrictlySortedBy cell_cmp cells.now }
    requires length { length symbols.now ≡ length cells.now }
    ensures { OnOk result (found.new ≡ found.old ++ filled cells.now symbols.now ∷ []) }
{
    let cells = Vec::from_slice(alloc, cells)?;
    let symbols = Vec::from_slice(alloc, symbols)?;
    found.push(Filling::new(cells, symbols))
}
