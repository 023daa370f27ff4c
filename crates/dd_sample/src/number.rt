//! The numbers of samples, read from words of the command line.
ghost use Rattle.std.specs.Prelude.{◌≡◌, ◌⊎◌, ◌↔◌, IsTrue, slice_index};
ghost use Rattle.dd_sample.specs.Sample.{IsNumberOf};

// The greatest sample number. The box of that sample's configuration has 65,536 symbols, the most that a box may have.
const LARGEST: u32 = 16_384;

// Whether the word begins with a plus or a zero. `parse` accepts such words, but no sample's number is written like this.
fn is_led(word: &str) -> bool
    ensures { IsTrue result ↔ (slice_index word.now 0 ≡ 43) ⊎ (slice_index word.now 0 ≡ 48) }
{
    match word.as_bytes() {
        [first, ..] => *first == b'+' || *first == b'0',
        [] => false,
    }
}

/// The sample number that this word gives in decimal, without a plus or a leading zero. `None` if it gives no sample number.
pub fn sample_number(word: &str) -> Option<u32>
    ensures { IsNumberOf word.now result }
{
    if is_led(word) {
        return None;
    }
    match word.parse::<u32>() {
        Ok(number) if number <= LARGEST => Some(number),
        _ => None,
    }
}
