//! The check of the list of all patterns that a rule forbids. Such a pattern gives an allowed symbol to each cell that the rule
//! reads at a node, and with these symbols the rule is false there. The list goes node by node. At each node, the patterns are
//! in lexicographic order.
ghost use Rattle.std.specs.Prelude.{◌≡◌, ◌↔◌, IsTrue, IfOk};
ghost use Rattle.dd_certificate.specs.Bounds.{IsWritable};
ghost use Rattle.dd_question.specs.Lists.{HasFewPatterns};
ghost use Rattle.dd_evidence.specs.Lists.{IsForbiddenList};
ghost use Rattle.dd_evidence.specs.Answers.{IsListCertificate};

use dd_certificate::{Answer, Listed};
use dd_evidence::{forbidden_patterns, lists_fit, one_list};
use dd_formula::Rule;
use std::alloc::{AllocError, Global};

/// Whether the two patterns are the same.
fn is_same(left: &Listed, right: &Listed) -> bool
    ensures { IsTrue result ↔ (left.now ≡ right.now) }
{
    left.node == right.node && left.symbols.as_slice() == right.symbols.as_slice()
}

/// Whether the two lists of patterns are the same.
fn are_same(left: &[Listed], right: &[Listed]) -> bool
    ensures { IsTrue result ↔ (left.now ≡ right.now) }
{
    if left.len() != right.len() {
        return false;
    }
    for at in 0..left.len() {
        if !is_same(&left[at], &right[at]) {
            return false;
        }
    }
    true
}

/// Whether these are all the patterns that the rule forbids, in the right order.
fn is_list(alloc: Global, rule: &Rule, patterns: &[Listed]) -> Result<bool, AllocError>
    requires { HasFewPatterns rule.now }
    ensures { IfOk result (λ same. IsTrue same ↔ IsForbiddenList rule.now patterns.now) }
{
    // Law: there is only one list of the patterns that a rule forbids.
    one_list();
    let list = forbidden_patterns(alloc, rule)?;
    Ok(are_same(list.as_slice(), patterns))
}

/// Whether the answer is the list of the patterns that the rule forbids, and an output can hold it.
#[tactic(auto, using(dd_evidence::specs::Answers::all_forbidden))]
pub(crate) fn check_list(alloc: Global, rule: &Rule, answer: &Answer) -> Result<bool, AllocError>
    requires { HasFewPatterns rule.now }
    ensures { IfOk result (λ accepted. IsTrue accepted ↔ (IsWritable answer.now × IsListCertificate rule.now answer.now)) }
{
    // Law: an output can hold this list, since at each node the cells that the rule reads have few enough fillings.
    lists_fit();
    // This call tells the proof what the type guarantees.
    let _nodes = rule.nodes();
    match answer {
        Answer::List { patterns } => is_list(alloc, rule, patterns.as_slice()),
        _ => Ok(false),
    }
}
