//! What all right answers to a query have in common.
ghost use Rattle.std.specs.Prelude.{Contains};
ghost use Rattle.dd_certificate.specs.declared.answer.Answer.{Answer as AnyAnswer};
ghost use Rattle.dd_query.specs.declared.queries.Query.{Query as AnyQuery};
ghost use Rattle.dd_respond.specs.Laws.{SayTheSame};
ghost use Rattle.dd_answer.specs.Right.{Right};

use dd_respond::one_response;
use dd_script::Script;

/// Does nothing. Its contract says that all right answers to a query of the script have the same first line, and that either
/// all of them are UNKNOWN or none is. So they can differ only in the lines after the first.
pub fn one_line(script: &Script)
    ensures { (query : AnyQuery) (a b : AnyAnswer) → Contains script.now.queries query → Right script.now query a → Right script.now query b → SayTheSame a b }
{
    script.sound_questions();
    one_response();
}
