//! First-order formulas whose quantifiers range over balls.
ghost use Rattle.std.specs.Prelude.{◌≡◌, true, Ok, IfOk};
ghost use Rattle.dd_expansion.specs.expanding.Atoms.{is_atom};

use dd_values::{Boxed, Items};
use std::alloc::{AllocError, Global};

/// A term names a cell: start at the cell of a variable, and make the moves one after another. Each move follows an edge with
/// a given label. The term has no cell if there is no edge for one of the moves.
///
/// Variables are numbered from the outside in (de Bruijn levels). Number 0 is the free variable, which stands for the cell
/// that the formula is about. The number of a bound variable is the number of variables in scope just outside its
/// quantifier.
#[derive(Debug, Drop)]
pub struct Term {
    pub variable: u32,
    /// The numbers of the labels of the moves.
    pub moves: Items<u32>,
}

/// The ball of this radius round the cell of this variable.
#[derive(Debug, Clone, Copy, PartialEq, Eq)]
pub struct BallOf {
    pub variable: u32,
    pub radius: u32,
}

/// A formula whose only free variable is number 0, or a part of such a formula. The first seven forms, from `Symbol` to
/// `Node`, are the atoms. An atom is false if one of its terms has no cell.
#[derive(Debug, Drop)]
pub enum Formula {
    /// The symbol at the term's cell is this one.
    Symbol {
        term: Term,
        symbol: u32,
    },
    /// The symbol at the term's cell is not this one.
    NotSymbol {
        term: Term,
        symbol: u32,
    },
    /// The symbols at the two terms' cells are equal.
    Same {
        left: Term,
        right: Term,
    },
    /// The symbols at the two terms' cells differ.
    NotSame {
        left: Term,
        right: Term,
    },
    /// Some edge joins the cells of the two terms, in either direction.
    Adjacent {
        left: Term,
        right: Term,
    },
    /// The two terms name the same cell: the same position and node.
    Place {
        left: Term,
        right: Term,
    },
    /// The cell of the term has this node.
    Node {
        term: Term,
        node: u32,
    },
    /// The part is false.
    Not(Boxed<Formula>),
    /// All parts are true. The formula is true if it has no parts.
    And(Items<Formula>),
    /// Some part is true. The formula is false if it has no parts.
    Or(Items<Formula>),
    /// The first part is false, or the second is true.
    Implies(Boxed<Formula>, Boxed<Formula>),
    /// Both parts are true or both are false.
    Iff(Boxed<Formula>, Boxed<Formula>),
    /// The body is true for each cell of the union of the balls.
    ForAll {
        balls: Items<BallOf>,
        body: Boxed<Formula>,
    },
    /// The body is true for some cell of the union of the balls.
    Exists {
        balls: Items<BallOf>,
        body: Boxed<Formula>,
    },
}

impl Term {
    /// A copy of the term.
    pub fn copy(&self, alloc: Global) -> Result<Term, AllocError>
        ensures { IfOk result (λ c. c ≡ self.now) }
    {
        Ok(Term {
            variable: self.variable,
            moves: Items::from_slice(alloc, self.moves.as_slice())?,
        })
    }
}

impl Formula {
    /// A copy of the whole formula.
    #[cycle(copy)]
    pub fn copy(&self, alloc: Global) -> Result<Formula, AllocError>
        ensures { IfOk result (λ c. c ≡ self.now) }
    {
        match self {
            Formula::Not(inner) => Ok(Formula::Not(copy_boxed(alloc, inner)?)),
            Formula::And(parts) => Ok(Formula::And(copy_all(alloc, parts.as_slice())?)),
            Formula::Or(parts) => Ok(Formula::Or(copy_all(alloc, parts.as_slice())?)),
            Formula::Implies(left, right) => {
                let one = copy_boxed(alloc, left)?;
                let (left, right) = paired(one, copy_boxed(alloc, right))?;
                Ok(Formula::Implies(left, right))
            }
            Formula::Iff(left, right) => {
                let one = copy_boxed(alloc, left)?;
                let (left, right) = paired(one, copy_boxed(alloc, right))?;
                Ok(Formula::Iff(left, right))
            }
            Formula::ForAll { balls, body } => {
                let (balls, body) = copy_quantified(alloc, balls, body)?;
                Ok(Formula::ForAll { balls, body })
            }
            Formula::Exists { balls, body } => {
                let (balls, body) = copy_quantified(alloc, balls, body)?;
                Ok(Formula::Exists { balls, body })
            }
            atom => copy_atom(alloc, atom),
        }
    }
}

/// A copy of an atom.
fn copy_atom(alloc: Global, atom: &Formula) -> Result<Formula, AllocError>
    requires { is_atom atom.now ≡ true }
    ensures { IfOk result (λ c. c ≡ atom.now) }
{
    match atom {
        Formula::Symbol { term, symbol } => Ok(Formula::Symbol {
            term: term.copy(alloc)?,
            symbol: *symbol,
        }),
        Formula::NotSymbol { term, symbol } => Ok(Formula::NotSymbol {
            term: term.copy(alloc)?,
            symbol: *symbol,
        }),
        Formula::Same { left, right } => {
            let (left, right) = copy_terms(alloc, left, right)?;
            Ok(Formula::Same { left, right })
        }
        Formula::NotSame { left, right } => {
            let (left, right) = copy_terms(alloc, left, right)?;
            Ok(Formula::NotSame { left, right })
        }
        Formula::Adjacent { left, right } => {
            let (left, right) = copy_terms(alloc, left, right)?;
            Ok(Formula::Adjacent { left, right })
        }
        Formula::Place { left, right } => {
            let (left, right) = copy_terms(alloc, left, right)?;
            Ok(Formula::Place { left, right })
        }
        Formula::Node { term, node } => Ok(Formula::Node {
            term: term.copy(alloc)?,
            node: *node,
        }),
        _ => unreachable!(),
    }
}

fn copy_terms(alloc: Global, left: &Term, right: &Term) -> Result<(Term, Term), AllocError>
    ensures { IfOk result (λ c. c ≡ (left.now, right.now)) }
{
    let left = left.copy(alloc)?;
    let right = right.copy(alloc)?;
    Ok((left, right))
}

/// Both boxes, or the fault if the second one could not be made.
fn paired(
    left: Boxed<Formula>,
    right: Result<Boxed<Formula>, AllocError>,
) -> Result<(Boxed<Formula>, Boxed<Formula>), AllocError>
    ensures { IfOk result (λ c. (c.0 ≡ left) × (right ≡ Ok c.1)) }
{
    match right {
        Ok(right) => Ok((left, right)),
        Err(fault) => Err(fault),
    }
}

#[cycle(copy)]
fn copy_quantified(
    alloc: Global,
    balls: &Items<BallOf>,
    body: &Boxed<Formula>,
) -> Result<(Items<BallOf>, Boxed<Formula>), AllocError>
    ensures { IfOk result (λ c. c ≡ (balls.now, body.now)) }
{
    let body = copy_boxed(alloc, body)?;
    let balls = Items::from_slice(alloc, balls.as_slice())?;
    Ok((balls, body))
}

#[cycle(copy)]
fn copy_boxed(alloc: Global, inner: &Boxed<Formula>) -> Result<Boxed<Formula>, AllocError>
    ensures { IfOk result (λ c. c ≡ inner.now) }
{
    Boxed::new(alloc, inner.get().copy(alloc)?)
}

#[cycle(copy)]
fn copy_all(alloc: Global, parts: &[Formula]) -> Result<Items<Formula>, AllocError>
    ensures { IfOk result (λ c. c ≡ parts.now) }
{
    let mut copies = Items::new(alloc);
    for part in parts {
        copies.push(part.copy(alloc)?)?;
    }
    Ok(copies)
}
