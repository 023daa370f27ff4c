//! Whether a formula is true of a list of symbols.
ghost use Rattle.std.specs.Prelude.{◌≡◌, slice_get};
ghost use Rattle.std.specs.List.{list_all, list_any};
ghost use Rattle.dd_expansion.specs.Truth.{is_symbol};
ghost use Rattle.dd_numbered.specs.Numbered.{holds_in};

use crate::numbered::Numbered;

impl Numbered {
    /// Whether the formula is true of the symbols. A leaf whose number is past the end of the list is false. Allocates nothing.
    #[cycle(truth)]
    #[tactic(auto, using(crate::proofs::Layers::holds_layers))]
    pub fn truth(&self, symbols: &[u32]) -> bool
        ensures { result ≡ holds_in self.now symbols.now }
    {
        match self {
            Numbered::Constant(value) => *value,
            Numbered::Leaf { number, symbol } => is_there(symbols, *number, *symbol),
            Numbered::Not(inner) => !inner.get().truth(symbols),
            Numbered::And(parts) => all_true(parts.as_slice(), symbols),
            Numbered::Or(parts) => some_true(parts.as_slice(), symbols),
            Numbered::Iff(left, right) => left.get().truth(symbols) == right.get().truth(symbols),
        }
    }
}

/// Whether the list has `symbol` at the index `number`. False if the index is past the end of the list.
fn is_there(symbols: &[u32], number: usize, symbol: u32) -> bool
    ensures { result ≡ is_symbol symbol (slice_get symbols.now number) }
{
    if number < symbols.len() {
        symbols[number] == symbol
    } else {
        false
    }
}

/// Whether all of the formulas are true of the symbols. Allocates nothing.
#[cycle(truth)]
pub fn all_true(parts: &[Numbered], symbols: &[u32]) -> bool
    ensures { result ≡ list_all (λ e. holds_in e symbols.now) parts.now }
{
    for part in parts {
        if !part.truth(symbols) {
            return false;
        }
    }
    true
}

/// Whether at least one of the formulas is true of the symbols.
#[cycle(truth)]
fn some_true(parts: &[Numbered], symbols: &[u32]) -> bool
    ensures { result ≡ list_any (λ e. holds_in e symbols.now) parts.now }
{
    for part in parts {
        if part.truth(symbols) {
            return true;
        }
    }
    false
}
