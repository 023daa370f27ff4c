//! Whether a filling agrees with a pattern.
ghost use Rattle.std.specs.Prelude.{◌≡◌};
ghost use Rattle.dd_minimal.specs.Patterns.{agrees, is_kept, FillsReads, IsPartialOf};

use crate::partial::Partial;
use dd_formula::Rule;
use dd_pattern::Filling;

/// Whether the filling agrees with the pattern, which means that it has the pattern's symbol at each cell that the pattern
/// keeps. If the pattern is minimal, it forces the rule to be false under every filling with allowed symbols that agrees with
/// it. The pattern must belong to a node of the rule and have an entry for each cell that the rule reads there. The filling's
/// domain must be these cells. The parameter `_rule` is there for the contract. The call allocates nothing.
pub fn forces(_rule: &Rule, partial: &Partial, filling: &Filling) -> bool
    requires partial { IsPartialOf _rule.now partial.now }
    requires filling { FillsReads _rule.now partial.now filling.now }
    ensures { result ≡ agrees partial.now.symbols filling.now.symbols }
{
    agrees(partial.symbols.as_slice(), filling.symbols())
}

/// Whether there are as many symbols as entries, and each symbol equals the one that its entry keeps, if the entry keeps one.
fn agrees(pattern: &[Option<u32>], symbols: &[u32]) -> bool
    ensures { result ≡ agrees pattern.now symbols.now }
{
    let Some((first, later)) = pattern.split_first() else {
        return symbols.is_empty();
    };
    let Some((symbol, rest)) = symbols.split_first() else {
        return false;
    };
    is_kept(*first, *symbol) && agrees(later, rest)
}

/// Whether the symbol is the kept one, or none is kept.
fn is_kept(kept: Option<u32>, symbol: u32) -> bool
    ensures { result ≡ is_kept kept symbol }
{
    match kept {
        Some(kept) => kept == symbol,
        None => true,
    }
}
