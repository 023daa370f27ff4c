//! The list of the breaking fillings of a rule at a node.
ghost use Rattle.std.specs.Prelude.{◌<◌, IfOk, IfErr};
ghost use Rattle.dd_forbidden.specs.Breaking.{AreBreakingFillings, IsListingFault};

use crate::fault::ForbiddenFault;
use crate::search::extend;
use crate::size::is_large;
use dd_formula::Rule;
use dd_numbered::{Numbered, Ranks};
use dd_pattern::Filling;
use dd_values::Items;
use std::alloc::Global;

/// The breaking fillings of the rule at this node of the origin. A breaking filling gives each cell that the rule reads there a
/// symbol that the cell's node allows, and the rule is false under these symbols. The cells of a filling are in cell order (by
/// z, then y, then x, then the node). The fillings are listed in the lexicographic order of their symbols, each once. A rule
/// that reads no cell and is false has one breaking filling, the empty one.
///
/// # Errors
/// `Size` if the cells that are read have more than 65,536 fillings over the whole alphabet. Otherwise `Memory`, if memory runs
/// out.
pub fn forbidden(alloc: Global, rule: &Rule, node: u32) -> Result<Vec<Filling>, ForbiddenFault>
    requires { node < rule.now.nodes }
    ensures ok { IfOk result (λ found. AreBreakingFillings rule.now node found.items) }
    ensures err { IfErr result (IsListingFault rule.now node) }
{
    if is_large(rule, node) {
        return Err(ForbiddenFault::Size);
    }
    let expansion = rule.expansion(node);
    let cells = rule.reads(node);
    let ranks = Ranks::new(cells);
    let formula = Numbered::new(alloc, expansion, &ranks)?;
    let mut symbols = Items::new(alloc);
    let mut found = Items::new(alloc);
    extend(
        alloc,
        rule,
        node,
        &formula,
        cells,
        cells,
        &mut symbols,
        &mut found,
    )?;
    Ok(found.into_vec())
}
