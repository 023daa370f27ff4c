//! The weight of a list of symbols.
ghost use Rattle.std.specs.Prelude.{◌≡◌, ◌≤◌, length};
ghost use Rattle.dd_pattern.specs.Weight.{AreWeights, total_weight};

/// The sum of the symbols' weights, where the symbol `s` has the weight `weights[s]`. Each symbol of the list must have a
/// weight, and no weight may exceed 1,000. The list must have at most 2^32 symbols.
pub fn weight_of(symbols: &[u32], weights: &[u32]) -> u64
    requires weights { AreWeights weights.now symbols.now }
    requires few { length symbols.now ≤ 4294967296 }
    ensures { result ≡ total_weight weights.now symbols.now }
{
    let mut total = 0;
    for symbol in symbols {
        total += weights[*symbol as usize] as u64;
    }
    total
}
