//! A source and a sink that never fail.
ghost use Rattle.std.specs.Prelude.{◌≡◌, ◌<◌, ◌≤◌, None, Some, length, drop, IfOk};
ghost use Rattle.dd_outside.specs.Bytes.{zero_fits};

use crate::faults::Failed;
use crate::memory::give;
use crate::sink::Sink;
use crate::source::Source;

/// A source of bytes in memory that never fails.
#[derive(Drop)]
pub struct QuietSource {
    bytes: Vec<u8>,
    at: usize,
    ghost in_range: { at ≤ length bytes.items },
}

impl QuietSource {
    /// A source of these bytes.
    pub fn new(bytes: Vec<u8>) -> Self
        ensures { ⟦<QuietSource as Source>⟧.left result ≡ Some bytes.items }
    {
        QuietSource { bytes, at: 0 }
    }
}

impl Source for QuietSource {
    ghost left = { λ source. Some (drop source.at source.bytes.items) };

    ghost faults = { λ _. 0 };

    ghost fits = { λ _. zero_fits };

    fn read(&mut self, into: &mut [u8]) -> Result<usize, Failed> {
        Ok(give(&self.bytes, &mut self.at, usize::MAX, into))
    }
}

/// A sink that writes each piece whole, never fails, and keeps nothing.
#[derive(Drop)]
pub struct QuietSink;

impl QuietSink {
    /// A sink that keeps nothing.
    pub fn new() -> Self {
        QuietSink
    }
}

impl Sink for QuietSink {
    ghost use Rattle.std.specs.Io.{WritesAtMost};
    ghost use Rattle.std.specs.Io.KnownBytes.{WriteAppends};
    ghost use Rattle.dd_values.specs.Counts.{HasCause};

    ghost held = { λ _. None };

    ghost faults = { λ _. 0 };

    ghost fits = { λ _. zero_fits };

    fn write(&mut self, piece: &[u8]) -> Result<usize, Failed>
        ensures bound { WritesAtMost result piece.now }
        ensures some { IfOk result (λ count. 0 < length piece.now → 0 < count) }
        ensures bytes { WriteAppends None None result piece.now }
        ensures cause { HasCause 0 0 result }
        ensures whole { result ≡ Ok (length piece.now) }
    {
        Ok(piece.len())
    }
}
