//! Vectors as positions.
ghost use Rattle.std.specs.Prelude.{◌≡◌};
ghost use Rattle.dd_lattice.specs.Place.{IsCoordinateInRange};
ghost use Rattle.dd_query.specs.Vectors.{coordinate, place_of, IsClose};

use dd_commands::Vector;
use dd_faults::signed_value;
use dd_lattice::Position;
use dd_written::Text;

/// The coordinate along an axis: the value of the vector's entry for this axis, or 0 if the vector has none.
fn coordinate(text: &Text, vector: &Vector, axis: usize) -> i32
    requires { IsClose text.now vector.now }
    ensures value { result ≡ coordinate text.now vector.now axis }
    ensures near { IsCoordinateInRange result }
{
    match vector.entries.get(axis) {
        Some(entry) => signed_value(text, *entry),
        None => 0,
    }
}

/// The position whose coordinates are the first three entries of this vector. Missing coordinates are 0. No entry may be over 4
/// in absolute value.
pub fn position_of(text: &Text, vector: &Vector) -> Position
    requires { IsClose text.now vector.now }
    ensures { result ≡ place_of text.now vector.now }
{
    Position {
        x: coordinate(text, vector, 0),
        y: coordinate(text, vector, 1),
        z: coordinate(text, vector, 2),
    }
}
