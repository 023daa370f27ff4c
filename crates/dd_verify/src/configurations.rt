//! Tests of periodic configurations: whether one lives in a rule's subshift (obeys the rule at every cell), and whether it has
//! a goal at the origin.
ghost use Rattle.std.specs.Prelude.{◌≡◌, ◌<◌, ◌↔◌, not, IsTrue, IfOk};
ghost use Rattle.dd_lattice.specs.Cells.{cell};
ghost use Rattle.dd_pattern.specs.Tile.{tile_look};
ghost use Rattle.dd_formula.specs.LocalRule.{is_true};
ghost use Rattle.dd_formula.specs.Allowed.{HasAllowed};
ghost use Rattle.dd_formula.specs.Living.{Fits, Lives};
ghost use Rattle.dd_boxes.specs.Goals.{breaks, HasGoal, AreAlike, IsGoalFor};
ghost use Rattle.dd_boxes.specs.Boxes.{origin};
ghost use Rattle.dd_boxes.specs.Views.{goal_of};
ghost use Rattle.dd_boxes.specs.Witnesses.{IsWitness};

use dd_automaton::differ_at_origin;
use dd_boxes::Goal;
use dd_formula::{Membership, Rule, has_allowed};
use dd_lattice::{Cell, Position};
use dd_pattern::Periodic;
use std::alloc::{AllocError, Global};

/// Whether the configuration lives in the rule's subshift.
pub(crate) fn lives(rule: &Rule, periodic: &Periodic) -> bool
    requires { Fits rule.now periodic.now }
    ensures { IsTrue result ↔ Lives rule.now periodic.now }
{
    match rule.member(periodic) {
        Membership::Inside => true,
        Membership::Outside(_) => {
            // This call tells the proof what the type guarantees.
            let _symbols = periodic.symbols();
            false
        }
    }
}

/// Whether the configuration's symbols are allowed, and it lives in the rule's subshift.
fn inhabits(rule: &Rule, periodic: &Periodic) -> bool
    requires { Fits rule.now periodic.now }
    ensures { IsTrue result ↔ (HasAllowed rule.now periodic.now × Lives rule.now periodic.now) }
{
    if !has_allowed(rule, periodic) {
        return false;
    }
    lives(rule, periodic)
}

/// Whether the rule is false at this node of the origin.
fn is_broken_at(rule: &Rule, node: u32, periodic: &Periodic) -> bool
    requires node { node < rule.now.nodes }
    requires fits { Fits rule.now periodic.now }
    ensures { result ≡ not (is_true rule.now (cell origin node) (tile_look periodic.now)) }
{
    // This call tells the proof what the type guarantees.
    let _symbols = periodic.symbols();
    let position = Position { x: 0, y: 0, z: 0 };
    match rule.truth(&Cell { position, node }, periodic) {
        Some(is_true) => !is_true,
        None => unreachable!(),
    }
}

/// Whether the rule is false at some node of the origin.
fn is_broken(rule: &Rule, periodic: &Periodic) -> bool
    requires { Fits rule.now periodic.now }
    ensures { IsTrue result ↔ HasGoal (breaks rule.now) (tile_look periodic.now) origin }
{
    for node in 0..rule.nodes() {
        if is_broken_at(rule, node, periodic) {
            return true;
        }
    }
    false
}

/// Whether the configuration is a witness that the rule `goal` doesn't follow from the premise: its symbols are allowed by the
/// premise's nodes, it lives in the premise's subshift, and `goal` is false at some node of the origin. The configuration must
/// fit the premise, and the two rules must have the same dimension, nodes and alphabet. This test allocates no memory.
pub fn check_periodic(premise: &Rule, goal: &Rule, periodic: &Periodic) -> bool
    requires fits { Fits premise.now periodic.now }
    requires alike { AreAlike premise.now goal.now }
    ensures { IsTrue result ↔ IsWitness premise.now (breaks goal.now) periodic.now }
{
    // This call tells the proof what the type guarantees.
    let _symbols = periodic.symbols();
    if !inhabits(premise, periodic) {
        return false;
    }
    is_broken(goal, periodic)
}

/// Whether the configuration is a witness of the goal: its symbols are allowed by the premise's nodes, it lives in the
/// premise's subshift, and it has the goal at the origin.
pub(crate) fn shows(
    alloc: Global,
    premise: &Rule,
    goal: &Goal,
    periodic: &Periodic,
) -> Result<bool, AllocError>
    requires fits { Fits premise.now periodic.now }
    requires goal { IsGoalFor premise.now (goal_of premise.now goal.now) }
    ensures { IfOk result (λ shown. IsTrue shown ↔ IsWitness premise.now (goal_of premise.now goal.now) periodic.now) }
{
    // This call tells the proof what the type guarantees.
    let _symbols = periodic.symbols();
    match goal {
        Goal::Breaks(rule) => Ok(check_periodic(premise, rule, periodic)),
        Goal::Differ(left, right) => {
            if !inhabits(premise, periodic) {
                return Ok(false);
            }
            differ_at_origin(alloc, left, right, periodic)
        }
        Goal::Always => Ok(inhabits(premise, periodic)),
    }
}
