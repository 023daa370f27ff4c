//! Parts of a text, the bytes of words, and whether two texts are the same.
ghost use Rattle.std.specs.Prelude.{◌≡◌, bytes_eq, take, drop};
ghost use Rattle.dd_written.specs.Values.{word_text};

use crate::lexeme::Word;

/// The `length` bytes from `start` on, or as many of them as there are.
pub(crate) fn part(bytes: &[u8], start: u32, length: u32) -> &[u8]
    ensures { result.now ≡ take length (drop start bytes.now) }
{
    let start = (start as usize).min(bytes.len());
    let rest = bytes.split_at(start).1;
    let length = (length as usize).min(rest.len());
    rest.split_at(length).0
}

/// The bytes of a word, taken from the bytes of the script.
pub fn word_bytes(bytes: &[u8], word: Word) -> &[u8]
    ensures { result.now ≡ word_text bytes.now word }
{
    part(bytes, word.start, word.length)
}

/// Whether the two texts are the same.
pub fn same_bytes(text: &[u8], wanted: &[u8]) -> bool
    ensures { result ≡ bytes_eq text.now wanted.now }
{
    text == wanted
}
