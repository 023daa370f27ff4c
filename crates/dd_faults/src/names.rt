//! Names and variables, compared by their texts.
ghost use Rattle.std.specs.Prelude.{◌≡◌, is_some, position, bytes_eq};
ghost use Rattle.dd_written.specs.Values.{word_text};
ghost use Rattle.dd_faults.specs.Order.{noted};
ghost use Rattle.dd_faults.specs.Names.{place_of_name, missing, number_in, is_variable, unknown_variable, named_again};

use crate::fault::{Fault, Found, note_if};
use dd_known::Known;
use dd_topology::Names;
use dd_written::{Name, Text, Word, name_text};

/// Whether a name is in the list `names`.
pub(crate) fn is_named(text: &Text, names: &Names, name: Name) -> bool
    ensures { result ≡ is_some (place_of_name text.now names.now name) }
{
    names.find(name_text(text, name)).is_some()
}

/// The index of a name in the list `names`; 0 if it isn't there.
pub fn number_in(text: &Text, names: &Names, name: Name) -> u32
    ensures { result ≡ number_in text.now names.now name }
{
    names.find(name_text(text, name)).unwrap_or(0)
}

/// Notes a name that isn't in the list `names`.
pub(crate) fn note_missing(text: &Text, names: &Names, name: Name, found: &mut Found)
    ensures { found.new ≡ noted found.old (missing text.now names.now name) }
{
    note_if(found, !is_named(text, names, name), Fault::Unknown(name));
}

/// The index of the first word with this text, or `None` if there is none.
pub fn place_among(text: &Text, words: &[Word], wanted: &str) -> Option<usize>
    ensures { result ≡ position (λ v. bytes_eq (word_text text.now v) wanted.now) words.now }
{
    words
        .iter()
        .position(|word| text.part(word.start, word.length) == wanted)
}

/// Whether a word is a variable: `o`, or a variable in scope.
pub(crate) fn is_variable(text: &Text, scope: &[Word], word: Word) -> bool
    ensures { result ≡ is_variable text.now scope.now word }
{
    let wanted = text.part(word.start, word.length);
    wanted == "o" || place_among(text, scope, wanted).is_some()
}

/// Notes a word that isn't a variable.
pub(crate) fn note_variable(text: &Text, scope: &[Word], word: Word, found: &mut Found)
    ensures { found.new ≡ noted found.old (unknown_variable text.now scope.now word) }
{
    let known = is_variable(text, scope, word);
    note_if(found, !known, Fault::Unknown(Name::Word(word)));
}

/// Notes a name that a rule, an automaton or a configuration already has.
pub(crate) fn note_defined(text: &Text, known: &Known, word: Word, found: &mut Found)
    ensures { found.new ≡ noted found.old (named_again text.now known.now word) }
{
    let name = Name::Word(word);
    let defined = is_named(text, &known.rules, name)
        || is_named(text, &known.automata, name)
        || is_named(text, &known.configurations, name);
    note_if(found, defined, Fault::Twice(name));
}
