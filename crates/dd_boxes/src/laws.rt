//! The law of one box.
ghost use Rattle.std.specs.Prelude.{ℕ};
ghost use Rattle.dd_boxes.specs.Laws.{OneBox};
ghost use Rattle.dd_boxes.specs.Views.{goal_of};

use crate::goals::Goal;
use dd_formula::Rule;

/// Does nothing. Its contract is the law of one box, for the box of each radius round the origin. A filling gives each cell of
/// a domain a symbol that the cell's node allows. The premise fits at a cell if the cell, and each cell that the premise reads
/// there, has a symbol. A filling is admissible if the premise is true at each cell where it fits.
///
/// Suppose that the goal's rule or automata, if it has any, have the dimension, the nodes and the alphabet of the premise, and
/// that the automata are well formed. Suppose also that the box contains all cells that the goal reads at the origin, and that
/// no admissible filling of the box has the goal at the origin. Then no admissible filling of any larger box has the goal at
/// the origin. No admissible filling has the goal at a position if the filling's domain contains the box of this radius round
/// the position. And no configuration that obeys the premise has the goal anywhere.
///
/// The contract also says which positions the box has, and that it contains all cells that the goal reads at the origin exactly
/// when its radius is at least the goal's least radius.
pub fn one_box(_premise: &Rule, _goal: &Goal)
    ensures { (radius : ℕ) → OneBox _premise.now (goal_of _premise.now _goal.now) radius }
{}
