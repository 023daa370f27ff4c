// The values of automata at the origin, computed from fillings, and the image of a configuration under an automaton.
ghost use Rattle.dd_boxes.specs.Goals.{IsGoalFor};
ghost use Rattle.dd_boxes.specs.Views.{goal_of};

use crate::boxes::value;
use crate::inputs::cell_at;
use crate::scripts::script_of;
use dd_automaton::apply;
use dd_boxes::Goal;
use dd_formula::Rule;
use dd_lattice::in_order;
use dd_pattern::{Filling, Periodic};
use dd_script::{Question, Script};
use std::alloc::Global;
use std::process::Abort;
use std::test::Fail;

/// The image of the script's first configuration under its first automaton.
fn image(alloc: Global, script: &Script) -> Result<Periodic, Fail> {
    let automaton = script.automata().first().ok_or("an automaton")?;
    let configuration = script.configurations().first().ok_or("a configuration")?;
    Ok(apply(alloc, automaton, configuration)?)
}

/// The filling that gives these symbols to consecutive cells of the line, the first of which is at the position `first`.
fn line(alloc: Global, first: i32, symbols: &[u32]) -> Result<Filling, Fail> {
    let mut cells = Vec::new(alloc);
    let mut copies = Vec::new(alloc);
    let mut x = first;
    for symbol in symbols {
        cells.push(cell_at(x).ok_or("a cell in range")?)?;
        copies.push(*symbol)?;
        x = x.saturating_add(1);
    }
    let cells = in_order(alloc, cells.as_slice())?;
    if cells.len() != copies.len() {
        return Err("a symbol for each cell".into());
    }
    Ok(Filling::new(cells, copies))
}

/// The value that the goal's first automaton gives to the first node of the origin; `None` if the filling lacks a cell that it
/// reads. The goal must compare two automata.
fn first_of(
    alloc: Global,
    premise: &Rule,
    goal: &Goal,
    filling: &Filling,
) -> Result<Option<u32>, Fail>
    requires { IsGoalFor premise.now (goal_of premise.now goal.now) }
{
    if premise.nodes() == 0 || !filling.symbols().iter().all(|s| *s < premise.symbols()) {
        return Err("symbols of the rule".into());
    }
    match goal {
        Goal::Differ(first, _) => Ok(value(alloc, premise, first, 0, filling)?),
        Goal::Breaks(_) | Goal::Always => Err("a goal of two automata".into()),
    }
}

/// The value that `first_of` finds for the premise and the goal of the script's first box question.
fn first_value(alloc: Global, script: &Script, filling: &Filling) -> Result<Option<u32>, Fail> {
    for query in script.queries() {
        let pairs = script.pairs(alloc, query)?;
        let question = script.question(query, pairs.as_slice());
        if let Question::Box { premise, goal } = question.question() {
            return first_of(alloc, premise, &goal, filling);
        }
    }
    Err("a box question".into())
}

// The automaton `r` gives each cell the exclusive or of its two neighbours. The query compares `r` applied twice with `r`.
const SCRIPT: &str =
    "%dim 1 %rule full o@o %auto r when o.lt!=o.rt give 1 else 0 %compose rr r r %conf c [4] 0 1 0 0 %same rr r full";

// The position of the first cell, the symbols from there on, and the value that `r`, applied twice, gives to the origin.
const VALUES: [(i32, &[u32], Option<u32>); 3] = [
    (-2, &[0, 0, 0, 0, 1], Some(1)),
    (-2, &[1, 0, 0, 0, 1], Some(0)),
    // The cell at -2 has no symbol.
    (-1, &[0, 0, 0, 1], None),
];

/// Asserts the values of `r` applied twice, and the image of the script's configuration under `r`.
fn assert_values(rt: &impl Abort, alloc: Global, script: &Script) -> Result<(), Fail> {
    for (first, symbols, wanted) in &VALUES {
        let filling = line(alloc, *first, symbols)?;
        assert_eq!(rt;
            first_value(alloc, script, &filling)?,
            *wanted,
            "from {first}"
        );
    }
    let image = image(alloc, script)?;
    assert_eq!(rt; image.symbols(), [1u32, 0, 1, 0].as_slice());
    Ok(())
}

#[test]
fn values_of_automata(rt: HostRuntime) -> Result<(), Fail> {
    let script = script_of(rt.alloc(), &[SCRIPT])?;
    assert_values(&rt, rt.alloc(), &script)
}
