//! Answers to questions about membership. A cell is a position of Z^d with one of its nodes, which are numbered from 0.
ghost use Rattle.std.specs.Prelude.{◌≡◌, ◌≤◌, IfOk};
ghost use Rattle.dd_formula.specs.Living.{Fits};
ghost use Rattle.dd_certificate.specs.Bounds.{IsWritable};
ghost use Rattle.dd_evidence.specs.Cells.{written_cell};
ghost use Rattle.dd_evidence.specs.Answers.{IsMemberCertificate};

use dd_certificate::Answer;
use dd_evidence::places_fit;
use dd_formula::{Membership, Rule};
use dd_lattice::Cell;
use dd_pattern::Periodic;
use dd_values::Items;
use std::alloc::{AllocError, Global};

/// The coordinates of a cell's position along the axes of Z^d, followed by the number of the cell's node.
fn written_cell(alloc: Global, dim: u32, cell: &Cell) -> Result<Items<i64>, AllocError>
    requires { dim ≤ 3 }
    ensures { IfOk result (λ place. place ≡ written_cell dim cell.now) }
{
    let position = &cell.position;
    let coordinates = [
        i64::from(position.x),
        i64::from(position.y),
        i64::from(position.z),
    ];
    let mut place = Items::from_slice(alloc, &coordinates[..dim as usize])?;
    place.push(i64::from(cell.node))?;
    Ok(place)
}

/// The answer to the question whether a rule is true at every cell of a configuration. If each cell has a symbol that its node
/// allows, this is the question whether the configuration lives in the rule's subshift. If the rule is false at some cell, the
/// answer names the first such cell of the fundamental box, in cell order (by z, then y, then x, then the node).
#[tactic(auto, using(dd_evidence::specs::Answers::member_inside, dd_evidence::specs::Answers::member_outside))]
pub(crate) fn member(alloc: Global, rule: &Rule, periodic: &Periodic) -> Result<Answer, AllocError>
    requires { Fits rule.now periodic.now }
    ensures right { IfOk result (IsMemberCertificate rule.now periodic.now) }
    ensures writable { IfOk result IsWritable }
{
    places_fit();
    match rule.member(periodic) {
        Membership::Inside => Ok(Answer::Inside),
        Membership::Outside(cell) => {
            // These calls tell the proof what the types guarantee.
            let _nodes = rule.nodes();
            let _symbols = periodic.symbols();
            let place = written_cell(alloc, rule.dim(), &cell)?;
            Ok(Answer::Outside { place })
        }
    }
}
