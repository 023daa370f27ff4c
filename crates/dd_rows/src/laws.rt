//! A law about the fillings from which a program is made.
ghost use Rattle.std.specs.Prelude.{List};
ghost use Rattle.dd_lattice.specs.declared.position.Cell.{Cell};
ghost use Rattle.dd_rows.specs.Laws.{AreCellsOf, AreTheAdmissible};

use dd_formula::Rule;

/// Does nothing. Its contract is about any list of cells of Z^d with nodes of the rule. It says that the fillings listed for
/// these cells are the admissible ones among all lists of symbols that the nodes of the cells allow.
#[tactic(auto, using(crate::specs::lemmas::AdmissibleLaws::the_admissible))]
pub fn the_admissible(_rule: &Rule)
    ensures { (cs : List Cell) → AreCellsOf _rule.now cs → AreTheAdmissible _rule.now cs }
{}
