//! Comparisons: the parts of a query about an image or a conjugacy. Each becomes a question about one pair of automata.
use dd_formula::{Automaton, Rule};

/// A question about the configurations that obey a rule, the premise.
#[derive(Clone, Copy)]
pub(crate) enum Comparison<'a> {
    /// In the image of a configuration under the map, can the target be false at a cell, or can a cell have a symbol that its
    /// node doesn't allow?
    Image {
        premise: &'a Rule,
        map: &'a Automaton,
        target: &'a Rule,
    },
    /// Can a configuration change if `inner` is applied to it, and then `outer`?
    Change {
        premise: &'a Rule,
        outer: &'a Automaton,
        inner: &'a Automaton,
    },
}

impl<'a> Comparison<'a> {
    ghost use Rattle.std.specs.Prelude.{◌≡◌};
    ghost use Rattle.dd_pairs.specs.{Comparisons.image, Comparisons.change, Comparisons.premise, Made.comparison_of};

    pub(crate) fn image(premise: &'a Rule, map: &'a Automaton, target: &'a Rule) -> Comparison<'a>
        ensures { comparison_of result ≡ image premise.now map.now target.now }
    {
        Comparison::Image {
            premise,
            map,
            target,
        }
    }

    pub(crate) fn change(
        premise: &'a Rule,
        outer: &'a Automaton,
        inner: &'a Automaton,
    ) -> Comparison<'a>
        ensures { comparison_of result ≡ change premise.now outer.now inner.now }
    {
        Comparison::Change {
            premise,
            outer,
            inner,
        }
    }

    pub(crate) fn premise(self) -> &'a Rule
        ensures { result.now ≡ premise (comparison_of self.entry) }
    {
        match self {
            Comparison::Image { premise, .. } | Comparison::Change { premise, .. } => premise,
        }
    }
}
