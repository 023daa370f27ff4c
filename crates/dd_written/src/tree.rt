//! The syntax trees of formulas.
use crate::lexeme::{Number, Word};
use dd_values::{Boxed, Items};

/// A name: a word or a number.
#[derive(Clone, Copy, Debug, PartialEq, Eq)]
pub enum Name {
    /// For instance `hard`.
    Word(Word),
    /// For instance `0`.
    Number(Number),
}

/// A word and the moves that follow it, if any, as in `o.rt.up`. Each move goes along an edge of the topology, and is given by
/// the edge's label. If the word is a variable, the term stands for the cell to which the moves lead from the variable's cell.
#[derive(Debug, Drop)]
pub struct Term {
    /// A variable. In a `Comparand` it may instead name a symbol.
    pub first: Word,
    pub moves: Items<Word>,
}

/// The right side of `=` or `!=`: what the symbol of a term is compared with.
#[derive(Debug, Drop)]
pub enum Comparand {
    /// A variable with its moves, or a word that names a symbol.
    Term(Term),
    /// A number, which names a symbol.
    Number(Number),
}

/// What an atom says about the cell of its term.
#[derive(Debug, Drop)]
pub enum Relation {
    /// `= comparand`: the cell's symbol is the comparand's.
    Equal(Comparand),
    /// `!= comparand`: the cell's symbol is not the comparand's.
    NotEqual(Comparand),
    /// `~ term`: the cell is adjacent to the cell of this second term.
    Adjacent(Term),
    /// `@ term`: the cell is the cell of this second term.
    Same(Term),
    /// `: name`: the cell's node has this name.
    AtNode(Name),
}

/// An atomic formula: a term, and a statement about its cell.
#[derive(Debug, Drop)]
pub struct Atom {
    pub term: Term,
    pub relation: Relation,
}

/// A ball over which a quantifier ranges: the variable whose cell is its centre, and its radius.
#[derive(Clone, Copy, Debug, PartialEq, Eq)]
pub struct Ball {
    pub centre: Word,
    pub radius: Number,
}

/// The quantifiers.
#[derive(Clone, Copy, Debug, PartialEq, Eq)]
pub enum Quantifier {
    /// `A`: the body is true for every cell of the balls.
    All,
    /// `E`: the body is true for some cell of the balls.
    Exists,
}

/// The sign between the parts of a chain, as in `f & g & h`. The signs are listed in order: the first binds tightest, the last
/// binds loosest.
#[derive(Clone, Copy, Debug, PartialEq, Eq)]
pub enum Join {
    /// `&`
    And,
    /// `|`
    Or,
    /// `->`, which groups to the right.
    Implies,
    /// `<->`, which groups to the left.
    Iff,
}

/// The syntax tree of a formula. It keeps the parentheses.
#[derive(Debug, Drop)]
pub enum Formula {
    /// An atom.
    Atom(Atom),
    /// `!body`
    Not(Boxed<Formula>),
    /// `A` or `E`, then `variable[balls] body`.
    Quantified {
        quantifier: Quantifier,
        variable: Word,
        /// One or more.
        balls: Items<Ball>,
        body: Boxed<Formula>,
    },
    /// A formula in parentheses.
    Group(Boxed<Formula>),
    /// Two or more parts, with the same sign between them.
    Chain {
        join: Join,
        parts: Items<Formula>,
    },
}
