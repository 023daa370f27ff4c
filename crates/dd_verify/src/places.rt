//! The check of answers about membership: whether a configuration lives in a rule's subshift. An answer names a cell of Z^d by
//! the cell's place: the d coordinates of its position, and then its node. Nothing here allocates memory.
ghost use Rattle.std.specs.Prelude.{◌≡◌, ◌≤◌, ◌↔◌, [], ◌∷◌, pos, IsTrue};
ghost use Rattle.dd_formula.specs.Living.{Fits};
ghost use Rattle.dd_certificate.specs.Bounds.{IsWritable};
ghost use Rattle.dd_evidence.specs.Cells.{written_cell, IsOutside};
ghost use Rattle.dd_evidence.specs.Answers.{IsMemberCertificate};

use crate::configurations::lives;
use dd_certificate::Answer;
use dd_evidence::places_fit;
use dd_formula::{Membership, Rule};
use dd_lattice::Cell;
use dd_pattern::Periodic;

/// All three coordinates of the cell's position.
fn coordinates(cell: &Cell) -> [i64; 3]
    ensures { result ≡ cell.now.position.x ∷ cell.now.position.y ∷ cell.now.position.z ∷ [] }
{
    let position = &cell.position;
    [
        i64::from(position.x),
        i64::from(position.y),
        i64::from(position.z),
    ]
}

/// Whether the number is the number of this node.
fn is_node(number: &i64, node: u32) -> bool
    ensures { IsTrue result ↔ (number.now ≡ pos node) }
{
    *number == i64::from(node)
}

/// Whether this is the place of the cell in Z^d. The dimension d is `dim`.
fn is_place(dim: u32, cell: &Cell, place: &[i64]) -> bool
    requires { dim ≤ 3 }
    ensures { IsTrue result ↔ (place.now ≡ written_cell dim cell.now) }
{
    let coordinates = coordinates(cell);
    let count = dim as usize;
    if place.len() != count + 1 {
        return false;
    }
    if !is_node(&place[count], cell.node) {
        return false;
    }
    place[..count] == coordinates[..count]
}

/// Whether this is the place of the first cell of the fundamental box, in cell order, at which the rule is false.
fn is_outside(rule: &Rule, periodic: &Periodic, place: &[i64]) -> bool
    requires { Fits rule.now periodic.now }
    ensures { IsTrue result ↔ IsOutside rule.now periodic.now place.now }
{
    // These calls tell the proof what the types guarantee.
    let _nodes = rule.nodes();
    let _symbols = periodic.symbols();
    match rule.member(periodic) {
        Membership::Inside => false,
        Membership::Outside(cell) => is_place(rule.dim(), &cell, place),
    }
}

/// Whether the answer is right. If the configuration lives in the rule's subshift, a right answer says so. Otherwise a right
/// answer gives the place of the first cell of the fundamental box at which the rule is false.
#[tactic(auto, using(dd_evidence::specs::Answers::member_outside))]
fn is_member_certificate(rule: &Rule, periodic: &Periodic, answer: &Answer) -> bool
    requires { Fits rule.now periodic.now }
    ensures { IsTrue result ↔ IsMemberCertificate rule.now periodic.now answer.now }
{
    match answer {
        Answer::Inside => lives(rule, periodic),
        Answer::Outside { place } => is_outside(rule, periodic, place.as_slice()),
        _ => false,
    }
}

/// Whether the answer is right, and an output can hold it. An output can hold each right answer, so only the first condition is
/// tested.
pub(crate) fn check_member(rule: &Rule, periodic: &Periodic, answer: &Answer) -> bool
    requires { Fits rule.now periodic.now }
    ensures { IsTrue result ↔ (IsWritable answer.now × IsMemberCertificate rule.now periodic.now answer.now) }
{
    // Law: an output can hold the place of the first cell of the fundamental box at which a rule is false.
    places_fit();
    // These calls tell the proof what the types guarantee.
    let _nodes = rule.nodes();
    let _symbols = periodic.symbols();
    is_member_certificate(rule, periodic, answer)
}
