//! The cells of an expansion's leaves.
ghost use Rattle.std.specs.Prelude.{◌≡◌, IfOk, OnOk};
ghost use Rattle.std.specs.List.{fold, flat_map};
ghost use Rattle.std.specs.List.Sorted.{IsStrictlySortedBy};
ghost use Rattle.std.specs.BTreeSet.{insert_key};
ghost use Rattle.dd_lattice.specs.Order.{cell_cmp};
ghost use Rattle.dd_lattice.specs.InOrder.{in_order};
ghost use Rattle.dd_expansion.specs.Leaves.{leaf_cells};

use crate::expanded::Expanded;
use dd_lattice::{Cell, listed};
use std::alloc::{AllocError, Global};
use std::collections::BTreeSet;

impl Expanded {
    /// The cells of the leaves, in cell order, without repeats.
    pub fn cells(&self, alloc: Global) -> Result<Vec<Cell>, AllocError>
        ensures list { IfOk result (λ v. v.items ≡ in_order (leaf_cells self.now)) }
        ensures ascending { IfOk result (λ v. IsStrictlySortedBy cell_cmp v.items) }
    {
        let mut found = BTreeSet::new(alloc);
        add_cells(self, &mut found)?;
        listed(alloc, &found)
    }
}

/// Adds the cells of the leaves to `found`.
#[cycle(add_cells)]
#[tactic(auto, using(std::proofs::lemmas::Grind::common_steps, crate::specs::lemmas::Layers::leaf_cells_layers))]
fn add_cells(expanded: &Expanded, found: &mut BTreeSet<Cell>) -> Result<(), AllocError>
    ensures { OnOk result (found.new.keys ≡ fold (insert_key cell_cmp) found.old.keys (leaf_cells expanded.now)) }
{
    match expanded {
        Expanded::Constant(_) => Ok(()),
        Expanded::Leaf { cell, .. } => {
            found.insert(*cell)?;
            Ok(())
        }
        Expanded::Not(inner) => add_cells(inner.get(), found),
        Expanded::And(parts) => add_all_cells(parts.as_slice(), found),
        Expanded::Or(parts) => add_all_cells(parts.as_slice(), found),
        Expanded::Iff(left, right) => {
            add_cells(left.get(), found)?;
            add_cells(right.get(), found)
        }
    }
}

#[cycle(add_cells)]
fn add_all_cells(parts: &[Expanded], found: &mut BTreeSet<Cell>) -> Result<(), AllocError>
    ensures { OnOk result (found.new.keys ≡ fold (insert_key cell_cmp) found.old.keys (flat_map leaf_cells parts.now)) }
{
    for part in parts {
        add_cells(part, found)?;
    }
    Ok(())
}
