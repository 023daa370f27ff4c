//! Answers to questions about forbidden patterns.
ghost use Rattle.std.specs.Prelude.{IfOk};
ghost use Rattle.dd_certificate.specs.Bounds.{IsWritable};
ghost use Rattle.dd_question.specs.Lists.{HasFewPatterns};
ghost use Rattle.dd_evidence.specs.Answers.{IsListCertificate};

use dd_certificate::Answer;
use dd_evidence::{forbidden_patterns, lists_fit};
use dd_formula::Rule;
use std::alloc::{AllocError, Global};

/// The list of all the patterns that a rule forbids. Such a pattern gives an allowed symbol to each cell that the rule reads at
/// a node, and the rule is false under these symbols.
#[tactic(auto, using(dd_evidence::specs::Answers::all_forbidden))]
pub(crate) fn listed(alloc: Global, rule: &Rule) -> Result<Answer, AllocError>
    requires { HasFewPatterns rule.now }
    ensures right { IfOk result (IsListCertificate rule.now) }
    ensures writable { IfOk result IsWritable }
{
    lists_fit();
    // This call tells the proof what the type guarantees.
    let _nodes = rule.nodes();
    let patterns = forbidden_patterns(alloc, rule)?;
    Ok(Answer::List { patterns })
}
