//! What a command means.
use dd_faults::Refusal;
use dd_formula::{Automaton, Rule};
use dd_pattern::Periodic;
use dd_query::Query;
use dd_topology::{Names, Topology};
use dd_values::{Items, Limits};
use dd_written::Word;
use std::alloc::AllocError;

/// What a command means.
#[derive(Drop)]
pub enum Meaning {
    /// A topology for the nodes that the script has so far.
    Topology(Topology),
    /// The names of the nodes, a topology for them, and whether the names were given by a `nodes` command.
    Nodes {
        nodes: Names,
        given: bool,
        topology: Topology,
    },
    /// The names of the symbols.
    Symbols(Names),
    /// The number of a node, and the numbers of the symbols that it allows.
    Only {
        node: u32,
        symbols: Items<u32>,
    },
    /// The weight of each symbol.
    Weights(Items<u32>),
    /// The limits on the work for one answer, for all queries that follow.
    Limits(Limits),
    /// A rule with its name.
    Rule {
        name: Word,
        rule: Rule,
    },
    /// An automaton with its name.
    Automaton {
        name: Word,
        automaton: Automaton,
    },
    /// A configuration with its name.
    Configuration {
        name: Word,
        configuration: Periodic,
    },
    /// A query, without a name.
    Query(Query),
}

/// What a command means, or why it is refused.
pub(crate) type Resolved = Result<Meaning, Refusal>;

/// A part of what a command means, or the error that memory ran out.
pub(crate) type Made<T> = Result<T, AllocError>;
