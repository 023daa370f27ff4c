//! Windows: the symbols of consecutive slices of a strip. The coordinates y and z are read modulo the strip's periods. Windows
//! are numbered: the digits of a window's number are its symbols.
ghost use Rattle.std.specs.Prelude.{◌≡◌, ℕ, ◌<◌, ◌+◌, length};
ghost use Rattle.dd_strip.specs.Strips.{IsSized};
ghost use Rattle.dd_transfer.specs.Windows.{shown, digits};

use dd_strip::Strip;
use std::marker::Model;

/// A window: the symbols of the slices at x = 0, 1 and so on. They are listed slice by slice, and within a slice in cell
/// order.
#[derive(Debug, Drop)]
pub(crate) struct Window {
    strip: Strip,
    symbols: Vec<u32>,
}

impl Model for Window {
    ghost use Rattle.dd_strip.specs.Strips.{IsSized};
    ghost use Rattle.dd_transfer.specs.Windows.{Shown, shown};

    ghost Value = { Shown };

    ghost view = { λ w. shown w.strip w.symbols.items };

    ghost invariant = { λ w. IsSized w.strip };
}

/// Fills `symbols` with the last digits of a number in a base, the most significant first.
pub(crate) fn write_digits(symbols: &mut [u32], base: u32, number: u32)
    requires { 0 < base }
    ensures { symbols.new ≡ digits base (length symbols.old) number }
{
    let mut at = symbols.len();
    let mut rest = number;
    while at > 0 {
        at -= 1;
        symbols[at] = rest % base;
        rest /= base;
    }
}

/// Replaces the digits of a number by those of the next number. The last digit that isn't the greatest possible one rises by
/// 1, and the digits after it become 0. If there is no such digit, all become 0.
pub(crate) fn advance_digits(symbols: &mut [u32], base: u32)
    requires { 0 < base }
    ensures { (n : ℕ) → symbols.old ≡ digits base (length symbols.old) n → symbols.new ≡ digits base (length symbols.old) (n + 1) }
{
    let greatest = base - 1;
    let mut at = symbols.len();
    while at > 0 {
        at -= 1;
        let digit = symbols[at];
        if digit < greatest {
            symbols[at] = digit + 1;
            return;
        }
        symbols[at] = 0;
    }
}

impl Window {
    /// The window of a strip with these symbols.
    pub(crate) fn new(strip: Strip, symbols: Vec<u32>) -> Window
        requires { IsSized strip }
        ensures { result ≡ shown strip symbols.items }
    {
        Window { strip, symbols }
    }

    /// The symbols, slice by slice.
    pub(crate) fn symbols(&self) -> &[u32]
        ensures value { result.now ≡ self.now.symbols }
        ensures kept { IsSized self.now.strip }
    {
        self.symbols.as_slice()
    }

    /// Replaces the symbols by the digits of a number, the most significant at the first cell.
    pub(crate) fn write(&mut self, base: u32, number: u32)
        requires { 0 < base }
        ensures { self.new ≡ shown self.old.strip (digits base (length self.old.symbols) number) }
    {
        write_digits(self.symbols.as_mut_slice(), base, number);
    }

    /// Replaces the symbols, which are the digits of a number, by the digits of the next number.
    pub(crate) fn advance(&mut self, base: u32)
        requires { 0 < base }
        ensures { (n : ℕ) → self.old.symbols ≡ digits base (length self.old.symbols) n →
            self.new ≡ shown self.old.strip (digits base (length self.old.symbols) (n + 1)) }
    {
        advance_digits(self.symbols.as_mut_slice(), base);
    }
}
