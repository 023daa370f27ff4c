//! Fillings: finitely many cells, with a symbol for each.
ghost use Rattle.std.specs.Prelude.{◌≡◌, ◌≤◌, length, IfOk, MatchOption};
ghost use Rattle.std.specs.List.Sorted.{IsStrictlySortedBy};
ghost use Rattle.dd_lattice.specs.Order.{cell_cmp};
ghost use Rattle.dd_pattern.specs.Filling.{IsFilling, IsReadByPlace, IsReadBelow, IsRestriction, IsWanting, filled, filling_look};
ghost use Rattle.dd_pattern.specs.Weight.{AreWeights, total_weight};

use crate::reading::Reads;
use crate::weight::weight_of;
use dd_lattice::Cell;
use std::alloc::{AllocError, Global};
use std::marker::Model;

/// A filling: a symbol for each cell of a finite domain. The cells are kept in strictly ascending cell order.
#[derive(Debug, Drop)]
pub struct Filling {
    cells: Vec<Cell>,
    symbols: Vec<u32>,
}

impl Model for Filling {
    ghost use Rattle.dd_pattern.specs.Filling.{Filled, IsFilling};

    ghost Value = { Filled };

    ghost view = { λ f. record { cells = f.cells.items; symbols = f.symbols.items } };

    ghost invariant = { λ f. IsFilling (record { cells = f.cells.items; symbols = f.symbols.items }) };
}

impl Filling {
    /// The filling of these cells with these symbols, in the same order. There must be as many symbols as cells, and the cells
    /// must be strictly ascending in cell order. The call allocates nothing.
    pub fn new(cells: Vec<Cell>, symbols: Vec<u32>) -> Filling
        requires ascending { IsStrictlySortedBy cell_cmp cells.items }
        requires as_many { length symbols.items ≡ length cells.items }
        ensures { result ≡ filled cells.items symbols.items }
    {
        Filling { cells, symbols }
    }

    /// The cells of the domain, in cell order.
    pub fn cells(&self) -> &[Cell]
        ensures value { result.now ≡ self.now.cells }
        ensures filling { IsFilling self.now }
    {
        self.cells.as_slice()
    }

    /// The symbols, in the order of the cells.
    #[tactic(auto, using(crate::specs::lemmas::FillingLaws::read_by_place, crate::specs::lemmas::FillingLaws::read_below))]
    pub fn symbols(&self) -> &[u32]
        ensures value { result.now ≡ self.now.symbols }
        ensures places { IsReadByPlace self.now }
        ensures below { IsReadBelow self.now }
    {
        self.symbols.as_slice()
    }

    /// The filling restricted to these cells, which must be strictly ascending in cell order. `None` if one of them isn't in
    /// the domain. Fails only if memory runs out.
    pub fn restrict(&self, alloc: Global, cells: &[Cell]) -> Result<Option<Filling>, AllocError>
        requires { IsStrictlySortedBy cell_cmp cells.now }
        ensures { IfOk result (λ found. MatchOption found (IsWanting self.now cells.now) (IsRestriction self.now cells.now)) }
    {
        // This line tells the proof what the type guarantees: the cells are strictly ascending, and each has one symbol.
        let _domain = &self.cells;
        let mut symbols = Vec::with_capacity(alloc, cells.len())?;
        for cell in cells {
            let Some(symbol) = self.symbol(cell) else {
                return Ok(None);
            };
            symbols.push(symbol)?;
        }
        let cells = Vec::from_slice(alloc, cells)?;
        Ok(Some(Filling { cells, symbols }))
    }

    /// The sum of the symbols' weights, where the symbol `s` has the weight `weights[s]`. Each symbol of the filling must have
    /// a weight, and no weight may exceed 1,000. The filling must have at most 2^32 cells.
    pub fn weight(&self, weights: &[u32]) -> u64
        requires weights { AreWeights weights.now self.now.symbols }
        requires few { length self.now.cells ≤ 4294967296 }
        ensures { result ≡ total_weight weights.now self.now.symbols }
    {
        weight_of(self.symbols.as_slice(), weights)
    }
}

impl Reads for Filling {
    ghost symbols = { filling_look };

    fn symbol(&self, cell: &Cell) -> Option<u32> {
        match self.cells.as_slice().binary_search(cell) {
            Ok(place) => Some(self.symbols[place]),
            Err(_) => None,
        }
    }
}
