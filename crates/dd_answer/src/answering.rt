//! A right answer to one query.
ghost use Rattle.std.specs.Prelude.{IfOk, Contains};
ghost use Rattle.dd_engines.specs.Rosters.{roster_seen};
ghost use Rattle.dd_respond.specs.Asking.{AreEngaged};
ghost use Rattle.dd_answer.specs.Asking.{AsksBoxes};
ghost use Rattle.dd_answer.specs.Right.{IsAnswerTo};

use dd_certificate::Answer;
use dd_engines::{Engine, Roster, kept_is_reflexive};
use dd_query::Query;
use dd_respond::respond;
use dd_script::Script;
use std::alloc::{AllocError, Global};

/// A right answer to a query of a script. It is one that an output can hold: its numbers are within bounds, and its lists
/// have lengths that an output allows.
///
/// If the query comes down to box questions, the engines of the roster are asked, as in `decide` of `dd_contain`. For other
/// queries no engine is asked. The sound engines stay in the roster.
///
/// # Errors
/// `AllocError` if memory ran out.
pub fn answer<E: Engine>(
    alloc: Global,
    script: &Script,
    query: &Query,
    roster: &mut Roster<E>,
) -> Result<Answer, AllocError>
    requires { Contains script.now.queries query.now }
    ensures answer { IfOk result (IsAnswerTo script.now query.now) }
    ensures engines { AreEngaged (AsksBoxes script.now query.now) (roster_seen E.asked E.given E.sound roster.old) (roster_seen E.asked E.given E.sound roster.new) result }
{
    // Brings in a law: if no engine is asked, the roster keeps its engines.
    kept_is_reflexive();
    let pairs = script.pairs(alloc, query)?;
    let question = script.question(query, pairs.as_slice());
    respond(alloc, &question, roster)
}
