//! Patterns, and lists of distinct patterns in lexicographic order. A pattern consists of the symbols of a box around a
//! position.
ghost use Rattle.std.specs.Prelude.{◌≡◌, ◌≤◌, ◌∷◌, [], Some, length, nat_eq, IfOk, OnOk};
ghost use Rattle.std.specs.Ordering.{nat_cmp};
ghost use Rattle.std.specs.Cmp as comparisons;
ghost use Rattle.std.specs.Cmp.Lexicographic.{slice_cmp, pointwise, nat_list_cmp_total, nat_list_eq_equiv, texts_ties, texts_po};
ghost use Rattle.std.specs.BTreeSet.{insert_key};
ghost use Rattle.std.proofs.Common.{rules};
ghost use Rattle.dd_rows.specs.Patterns.{pattern_number};
ghost use Rattle.dd_rows.specs.listing.Views.{symbols_at};

use dd_values::Items;
use std::alloc::{AllocError, Global};
use std::cmp::Ordering;
use std::marker::Model;

/// The symbols of a box in cell order. Patterns are ordered lexicographically. (`program` also reads the symbols of the
/// origin's cells into a value of this type.)
#[derive(Drop)]
pub(crate) struct Pattern {
    symbols: Vec<u32>,
}

impl Model for Pattern {
    ghost use Rattle.std.specs.Prelude.{List, ℕ};

    ghost Value = { List ℕ };

    ghost view = { λ p. p.symbols.items };
}

impl PartialEq for Pattern {
    ghost eq = { pointwise nat_eq };

    ghost laws = { comparisons.partial_equiv_from_equiv nat_list_eq_equiv };

    fn eq(&self, other: &Pattern) -> bool {
        self.symbols == other.symbols
    }
}

impl Eq for Pattern {
    ghost laws = { nat_list_eq_equiv };
}

impl PartialOrd for Pattern {
    ghost partial_cmp = { λ x y. Some (slice_cmp nat_cmp x y) };

    ghost laws = { texts_po };

    fn partial_cmp(&self, other: &Pattern) -> Option<Ordering> {
        Some(self.cmp(other))
    }
}

impl Ord for Pattern {
    ghost cmp = { slice_cmp nat_cmp };

    ghost total = { nat_list_cmp_total };

    ghost matches_partial_cmp = { Prim.search rules };

    ghost matches_eq = { texts_ties };

    fn cmp(&self, other: &Pattern) -> Ordering {
        self.symbols.cmp(&other.symbols)
    }
}

impl Pattern {
    /// The pattern without symbols. Allocates nothing.
    pub(crate) fn new(alloc: Global) -> Pattern
        ensures { result ≡ [] }
    {
        Pattern {
            symbols: Vec::new(alloc),
        }
    }

    /// Replaces the pattern's symbols by those that the filling `symbols` gives to the cells with these numbers. Reuses the
    /// pattern's memory.
    pub(crate) fn read(&mut self, symbols: &[u32], numbers: &[usize]) -> Result<(), AllocError>
        ensures { OnOk result (self.new ≡ symbols_at symbols.now numbers.now) }
    {
        self.symbols.clear();
        for number in numbers {
            // In a filling of the ground each of these cells has a symbol, so the default 0 is never used.
            self.symbols
                .push(symbols.get(*number).copied().unwrap_or(0))?;
        }
        Ok(())
    }

    /// The pattern's symbols, in cell order.
    pub(crate) fn symbols(&self) -> &[u32]
        ensures { result.now ≡ self.now }
    {
        self.symbols.as_slice()
    }
}

/// Distinct patterns in lexicographic order.
#[derive(Drop)]
pub(crate) struct Patterns {
    list: Vec<Pattern>,
}

impl Model for Patterns {
    ghost use Rattle.std.specs.Prelude.{List, ℕ};
    ghost use Rattle.std.specs.List.Sorted.{IsStrictlySortedBy};
    ghost use Rattle.std.specs.Ordering.{nat_cmp};
    ghost use Rattle.std.specs.Cmp.Lexicographic.{slice_cmp};

    ghost Value = { List (List ℕ) };

    ghost view = { λ p. p.list.items };

    ghost invariant = { λ p. IsStrictlySortedBy (slice_cmp nat_cmp) p.list.items };
}

impl Patterns {
    /// The empty list. Allocates nothing.
    pub(crate) fn new(alloc: Global) -> Patterns
        ensures { result ≡ [] }
    {
        Patterns {
            list: Vec::new(alloc),
        }
    }

    /// The number of patterns.
    pub(crate) fn len(&self) -> usize
        ensures { result ≡ length self.now }
    {
        self.list.len()
    }

    /// Inserts the pattern at its place in the order, unless it is already in the list.
    pub(crate) fn insert(&mut self, alloc: Global, pattern: &Pattern) -> Result<(), AllocError>
        ensures { OnOk result (self.new ≡ insert_key (slice_cmp nat_cmp) self.old pattern.now) }
    {
        match self.list.as_slice().binary_search(pattern) {
            Ok(_) => Ok(()),
            Err(place) => {
                let symbols = Vec::from_slice(alloc, pattern.symbols())?;
                self.list.insert(place, Pattern { symbols })?;
                Ok(())
            }
        }
    }

    /// The index of the pattern in the list, or the list's length if the pattern is not there.
    pub(crate) fn number(&self, pattern: &Pattern) -> usize
        ensures { result ≡ pattern_number self.now pattern.now }
    {
        match self.list.as_slice().binary_search(pattern) {
            Ok(number) => number,
            Err(_) => self.list.len(),
        }
    }

    /// The symbols of each pattern.
    pub(crate) fn lists(&self, alloc: Global) -> Result<Items<Items<u32>>, AllocError>
        ensures { IfOk result (λ lists. lists ≡ self.now) }
    {
        let mut lists = Items::new(alloc);
        for pattern in &self.list {
            lists.push(Items::from_slice(alloc, pattern.symbols())?)?;
        }
        Ok(lists)
    }
}
