//! The minimal list. The fillings that break the rule are taken in lexicographic order. Marked fillings are skipped. Each of
//! the others is thinned to a pattern: its cells are taken one by one, and a cell is left out if the pattern without it is
//! still forbidden. The pattern is listed, and all fillings that agree with it are marked.
ghost use Rattle.std.specs.Prelude.{◌≡◌, ◌<◌, ◌^◌, length, map, IfOk};
ghost use Rattle.std.specs.List.{All};
ghost use Rattle.dd_formula.specs.LocalRule.{cells_at};
ghost use Rattle.dd_minimal.specs.Minimal.{IsMinimalList};
ghost use Rattle.dd_minimal.specs.Patterns.{pattern_of, IsPartialOf};
ghost use Rattle.dd_minimal.specs.finding.Numbers.{strides_of};
ghost use Rattle.dd_minimal.specs.finding.Outcomes.{outcomes};

use crate::outcome::Outcome;
use crate::partial::Partial;
use crate::thinning::{Thinned, thin};
use crate::walking::mark;
use dd_formula::Rule;
use dd_values::Items;
use std::alloc::{AllocError, Global};

/// The stride of each cell. `fillings` is the number of fillings over the whole alphabet.
pub(crate) fn strides_of(
    alloc: Global,
    rule: &Rule,
    node: u32,
    fillings: usize,
) -> Result<Items<usize>, AllocError>
    requires node { node < rule.now.nodes }
    requires fillings { fillings ≡ rule.now.symbols ^ length (cells_at rule.now node) }
    ensures { IfOk result (λ list. list ≡ strides_of rule.now.symbols (length (cells_at rule.now node))) }
{
    let mut list = Items::new(alloc);
    let mut stride = fillings;
    for _cell in rule.reads(node) {
        stride /= rule.symbols() as usize;
        list.push(stride)?;
    }
    Ok(list)
}

/// The minimal list. `table` has the outcome of each filling.
pub(crate) fn list(
    alloc: Global,
    rule: &Rule,
    node: u32,
    strides: &[usize],
    table: &[Outcome],
) -> Result<Vec<Partial>, AllocError>
    requires node { node < rule.now.nodes }
    requires strides { strides.now ≡ strides_of rule.now.symbols (length (cells_at rule.now node)) }
    requires table { table.now ≡ outcomes rule.now node }
    ensures patterns { IfOk result (λ found. IsMinimalList rule.now node (map pattern_of found.items)) }
    ensures nodes { IfOk result (λ found. All (λ p. p.node ≡ node) found.items) }
    ensures fitting { IfOk result (λ found. All (IsPartialOf rule.now) found.items) }
{
    let symbols = rule.symbols();
    let mut found = Vec::new(alloc);
    let mut left_out = Vec::new(alloc);
    let mut marks = vec![in alloc; false; table.len()]?;
    for at in 0..table.len() {
        if table[at].does_break() && !marks[at] {
            let Thinned { pattern, from } = thin(
                alloc,
                symbols,
                strides,
                table,
                at,
                &mut left_out,
            )?;
            mark(symbols, left_out.as_slice(), &mut marks, from);
            found.push(Partial {
                node,
                symbols: pattern,
            })?;
        }
    }
    Ok(found)
}
