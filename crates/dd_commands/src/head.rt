//! The heads of commands.
use crate::table::QueryKind;

/// The head of a command says which command it is. Both forms of `topology`, by name and by edges, have the same head.
#[derive(Clone, Copy, Debug, PartialEq, Eq)]
pub enum Head {
    /// `dim`
    Dimension,
    /// `nodes`
    Nodes,
    /// `alphabet`
    Alphabet,
    /// `topology`
    Topology,
    /// `only`
    Only,
    /// `weights`
    Weights,
    /// `limits`
    Limits,
    /// `rule`
    Rule,
    /// `auto`
    Automaton,
    /// `compose`
    Composition,
    /// `conf`
    Configuration,
    /// The first word that the table of queries gives for this kind.
    Query(QueryKind),
}
