//! The table of queries, with a row for each kind. The rows alone say how queries are read, what their words name, and how many
//! symbols they need.
ghost use Rattle.std.specs.Prelude.{◌≡◌};
ghost use Rattle.dd_commands.specs.Table.{row};

use Role::{Automaton, Configuration, Rule};

/// What a word of a query names.
#[derive(Clone, Copy, Debug, PartialEq, Eq)]
pub enum Role {
    /// A rule.
    Rule,
    /// A cellular automaton.
    Automaton,
    /// A periodic configuration.
    Configuration,
}

/// Which vectors, written as lists of integers, stand at the end of a query.
#[derive(Clone, Copy, Debug, PartialEq, Eq)]
pub enum Lists {
    /// No vector.
    None,
    /// The periods of a strip, along all axes but x: one vector without negative numbers.
    Strip,
    /// The periods of a torus, along all axes: one vector without negative numbers.
    Torus,
    /// One vector or more.
    Vectors,
}

/// The kinds of queries, each with its form. X and Y are rules, f and g are automata, c is a configuration, and r and m are
/// numbers. The page `docs/guide.md` explains each query.
#[derive(Clone, Copy, Debug, PartialEq, Eq)]
pub enum QueryKind {
    /// `member c X`: does the configuration obey the rule?
    Member,
    /// `contains Y X`: does each configuration that obeys X obey Y?
    Contains,
    /// `equal X Y`: do the same configurations obey both rules?
    Equal,
    /// `empty X`: does no configuration obey the rule?
    Empty,
    /// `same f g X`: do the two automata agree on each configuration that obeys X?
    Agree,
    /// `maps f X Y`: does the automaton map each configuration that obeys X to one that obeys Y?
    Maps,
    /// `conjugate f g X Y`: are f and g inverse maps between the configurations that obey X and those that obey Y?
    Conjugate,
    /// `forbidden X`: which fillings of the cells that X reads does X forbid?
    Forbidden,
    /// `minimal X`: which patterns, none with a needless cell, together forbid exactly what X forbids?
    Minimal,
    /// `density X [5]`: what is the least density that the rule allows on a strip with these periods?
    Density,
    /// `least X [3 3]`: what is the least weight of the box that repeats, among the configurations that obey X and have these
    /// periods and no shear?
    Least,
    /// `discharge X r m [1 0] ..`: what is the best lower bound for the density by discharging, with radius r, margin m and
    /// these vectors?
    Discharge,
}

/// What the table says about a kind of query.
#[derive(Clone, Copy)]
pub struct QueryRow {
    /// The first word.
    pub word: &'static [u8],
    /// What each of the words after the first word names.
    pub names: &'static [Role],
    /// How many numbers follow these words.
    pub numbers: usize,
    /// Which vectors follow the numbers.
    pub lists: Lists,
    /// The least number of symbols that the alphabet must have.
    pub symbols: u32,
}

/// The row with these contents.
fn entry(
    word: &'static [u8],
    names: &'static [Role],
    numbers: usize,
    lists: Lists,
    symbols: u32,
) -> QueryRow
    ensures word { result.word.now ≡ word.now }
    ensures names { result.names.now ≡ names.now }
    ensures numbers { result.numbers ≡ numbers }
    ensures lists { result.lists ≡ lists }
    ensures symbols { result.symbols ≡ symbols }
{
    QueryRow {
        word,
        names,
        numbers,
        lists,
        symbols,
    }
}

impl QueryKind {
    /// All kinds, in the order of the table.
    pub(crate) const ALL: [QueryKind; 12] = [
        QueryKind::Member,
        QueryKind::Contains,
        QueryKind::Equal,
        QueryKind::Empty,
        QueryKind::Agree,
        QueryKind::Maps,
        QueryKind::Conjugate,
        QueryKind::Forbidden,
        QueryKind::Minimal,
        QueryKind::Density,
        QueryKind::Least,
        QueryKind::Discharge,
    ];

    /// The row of this kind.
    pub fn row(self) -> QueryRow
        ensures word { result.word.now ≡ (row self).word }
        ensures names { result.names.now ≡ (row self).names }
        ensures numbers { result.numbers ≡ (row self).numbers }
        ensures lists { result.lists ≡ (row self).lists }
        ensures symbols { result.symbols ≡ (row self).symbols }
    {
        match self {
            QueryKind::Member => entry(b"member", &[Configuration, Rule], 0, Lists::None, 1),
            QueryKind::Contains => entry(b"contains", &[Rule, Rule], 0, Lists::None, 1),
            QueryKind::Equal => entry(b"equal", &[Rule, Rule], 0, Lists::None, 1),
            QueryKind::Empty => entry(b"empty", &[Rule], 0, Lists::None, 1),
            QueryKind::Agree => entry(b"same", &[Automaton, Automaton, Rule], 0, Lists::None, 1),
            QueryKind::Maps => entry(b"maps", &[Automaton, Rule, Rule], 0, Lists::None, 2),
            QueryKind::Conjugate => entry(
                b"conjugate",
                &[Automaton, Automaton, Rule, Rule],
                0,
                Lists::None,
                2,
            ),
            QueryKind::Forbidden => entry(b"forbidden", &[Rule], 0, Lists::None, 1),
            QueryKind::Minimal => entry(b"minimal", &[Rule], 0, Lists::None, 1),
            QueryKind::Density => entry(b"density", &[Rule], 0, Lists::Strip, 1),
            QueryKind::Least => entry(b"least", &[Rule], 0, Lists::Torus, 1),
            QueryKind::Discharge => entry(b"discharge", &[Rule], 2, Lists::Vectors, 1),
        }
    }
}
