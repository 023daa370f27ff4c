//! How an expansion becomes a formula over a list of symbols.
ghost use Rattle.std.specs.Prelude.{◌≡◌, ℕ, List, map, IfOk};
ghost use Rattle.dd_expansion.specs.Leaves.{holds};
ghost use Rattle.dd_numbered.specs.Numbered.{holds_in, numbered, leaf_with};
ghost use Rattle.dd_numbered.specs.Numbering.{read_by};

use crate::numbered::Numbered;
use crate::numbers::Numbers;
use dd_expansion::Expanded;
use dd_values::{Boxed, Items};
use std::alloc::{AllocError, Global};

impl Numbered {
    /// The expansion with a number in place of each cell. A leaf whose cell has no number becomes the constant false.
    ///
    /// A list of symbols gives each cell the symbol at the cell's number. It gives no symbol to a cell that has no number, or
    /// whose number is past the end of the list. The resulting formula is true of the list exactly when the expansion is true
    /// with the symbols that the list gives.
    ///
    /// # Errors
    /// `AllocError` if memory ran out.
    pub fn new<N: Numbers>(
        alloc: Global,
        expanded: &Expanded,
        numbers: &N,
    ) -> Result<Numbered, AllocError>
        ensures value { IfOk result (λ e. e ≡ numbered (N.numbering numbers.now) expanded.now) }
        ensures truth { IfOk result (λ e. (ss : List ℕ) → holds_in e ss ≡ holds expanded.now (read_by (N.numbering numbers.now) ss)) }
    {
        numbered(alloc, expanded, numbers)
    }
}

/// The formula made from the expansion, as `Numbered::new` returns it.
#[cycle(numbered)]
#[tactic(auto, using(crate::proofs::Layers::numbered_layers))]
fn numbered<N: Numbers>(
    alloc: Global,
    expanded: &Expanded,
    numbers: &N,
) -> Result<Numbered, AllocError>
    ensures { IfOk result (λ e. e ≡ numbered (N.numbering numbers.now) expanded.now) }
{
    match expanded {
        Expanded::Constant(value) => Ok(Numbered::Constant(*value)),
        Expanded::Leaf { cell, symbol } => Ok(leaf_with(*symbol, numbers.number(cell))),
        Expanded::Not(inner) => Ok(Numbered::Not(numbered_boxed(alloc, inner, numbers)?)),
        Expanded::And(parts) => Ok(Numbered::And(all_numbered(alloc, parts.as_slice(), numbers)?)),
        Expanded::Or(parts) => Ok(Numbered::Or(all_numbered(alloc, parts.as_slice(), numbers)?)),
        Expanded::Iff(left, right) => Ok(Numbered::Iff(
            numbered_boxed(alloc, left, numbers)?,
            numbered_boxed(alloc, right, numbers)?,
        )),
    }
}

/// The leaf that says that the list has `symbol` at the index `number`, or the constant false if there is no number.
fn leaf_with(symbol: u32, number: Option<usize>) -> Numbered
    ensures { result ≡ leaf_with symbol number }
{
    match number {
        Some(number) => Numbered::Leaf { number, symbol },
        None => Numbered::Constant(false),
    }
}

/// The formula made from a boxed expansion, boxed as well.
#[cycle(numbered)]
fn numbered_boxed<N: Numbers>(
    alloc: Global,
    inner: &Boxed<Expanded>,
    numbers: &N,
) -> Result<Boxed<Numbered>, AllocError>
    ensures { IfOk result (λ e. e ≡ numbered (N.numbering numbers.now) inner.now) }
{
    Boxed::new(alloc, numbered(alloc, inner.get(), numbers)?)
}

/// The formulas made from the expansions, one for each.
#[cycle(numbered)]
fn all_numbered<N: Numbers>(
    alloc: Global,
    parts: &[Expanded],
    numbers: &N,
) -> Result<Items<Numbered>, AllocError>
    ensures { IfOk result (λ es. es ≡ map (numbered (N.numbering numbers.now)) parts.now) }
{
    let mut made = Items::new(alloc);
    for part in parts {
        made.push(numbered(alloc, part, numbers)?)?;
    }
    Ok(made)
}
