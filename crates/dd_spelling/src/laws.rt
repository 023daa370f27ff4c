//! Laws about bytes that are read as scripts. Each is the contract of a function that does nothing.
ghost use Rattle.std.specs.Prelude.{◌≡◌, ◌⊎◌, ℕ, List};
ghost use Rattle.dd_script.specs.{Parts.Parts, Scripts.Spells, Scripts.RefusedAs, Scripts.RefusalKind};

use dd_commands::{one_fault, one_tree, tree_or_fault};
use dd_written::formula_is_read;

/// Does nothing. Its contract says that bytes spell at most one script.
pub fn one_script()
    ensures { (bytes : List ℕ) (s t : Parts) → Spells bytes s → Spells bytes t → s ≡ t }
{
    one_tree();
}

/// Does nothing. Its contract says that bytes are refused in at most one way: with one number, and for one reason. The number
/// is that of a command, or 0 if a token stands before the first command.
pub fn one_refusal()
    ensures { (bytes : List ℕ) (m n : ℕ) (k l : RefusalKind) → RefusedAs bytes m k → RefusedAs bytes n l → (m ≡ n) × (k ≡ l) }
{
    one_tree();
    one_fault();
    tree_or_fault();
}

/// Does nothing. Its contract says that bytes either spell a script or are refused, but never both.
pub fn spelled_or_refused()
    ensures never_both { (bytes : List ℕ) (s : Parts) (n : ℕ) (k : RefusalKind) → Spells bytes s → RefusedAs bytes n k → ⊥ }
    ensures either { (bytes : List ℕ) → ((s : Parts) × Spells bytes s) ⊎ ((n : ℕ) × (k : RefusalKind) × RefusedAs bytes n k) }
{
    one_tree();
    tree_or_fault();
    formula_is_read();
}
