//! A check accepts the whole output of a run, if the output isn't too long.
ghost use Rattle.std.specs.Prelude.{◌≡◌, ◌≤◌, ℕ, List, Bool, length};
ghost use Rattle.dd_session.specs.declared.status.Status.{Status as AnyStatus};
ghost use Rattle.dd_session.specs.Sides.{status_of};
ghost use Rattle.dd_session.specs.Checks.{most_checked, IsAllAccepted};
ghost use Rattle.dd_session.specs.Checked.{CheckDecides};
ghost use Rattle.dd_session.specs.Agreement.{IsRunOutput, IsJudgement};

use dd_agreement::right_is_certificate;
use dd_checker::certified;
use dd_output::one_output;
use dd_script::Script;
use dd_spelling::one_script;

/// Does nothing. Its contract says that the whole output of a run of a script answers each query with a certificate. If the
/// output has at most `MOST_OUTPUT` bytes, each check of it that isn't cut short (by a fault or for want of memory) ends with
/// the status of the run.
pub fn runs_are_accepted(script: &Script)
    ensures accepted { (bytes text : List ℕ) (has : Bool) → IsRunOutput bytes script.now has text → IsAllAccepted has text }
    ensures same_status { (bytes text : List ℕ) (has : Bool) (status : AnyStatus) → IsRunOutput bytes script.now has text → length text ≤ most_checked →
        CheckDecides text status → IsJudgement status → status ≡ status_of has }
{
    // This call tells the proof what the type `Script` guarantees.
    let _limits = script.limits();
    right_is_certificate();
    certified(script);
    one_output();
    one_script();
}
