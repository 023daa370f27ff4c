//! The faults of formulas, and of the cases of automata.
ghost use Rattle.std.specs.Prelude.{◌≡◌, [], ◌∷◌, ◌++◌, IfOk, OnOk};
ghost use Rattle.std.specs.List.{flat_map};
ghost use Rattle.dd_faults.specs.{Order.noted, Formulas.formula_faults, Commands.case_faults};

use crate::atoms::{Scope, atom, quantifier};
use crate::fault::{Done, Found};
use crate::names::note_missing;
use dd_commands::Case;
use dd_known::Context;
use dd_values::Items;
use dd_written::{Formula, Word};
use std::alloc::{AllocError, Global};

/// The scope of the body of a quantifier: the scope of the quantifier, with its variable added at the end. Fails only if memory
/// runs out.
pub fn within(alloc: Global, scope: &[Word], variable: Word) -> Result<Items<Word>, AllocError>
    ensures { IfOk result (λ inner. inner ≡ scope.now ++ variable ∷ []) }
{
    let mut inner = Items::from_slice(alloc, scope)?;
    inner.push(variable)?;
    Ok(inner)
}

/// Notes the faults of a formula. `scope` holds the context of the command and the variables in scope.
pub(crate) fn formula(alloc: Global, scope: Scope, written: &Formula, found: &mut Found) -> Done
    ensures { OnOk result (found.new ≡ noted found.old (formula_faults scope.entry.0.now written.now scope.entry.1.now)) }
{
    let Scope(context, words) = scope;
    match written {
        Formula::Atom(written) => atom(context, words, written, found),
        Formula::Not(inner) | Formula::Group(inner) => formula(alloc, scope, inner.get(), found)?,
        Formula::Quantified {
            variable,
            balls,
            body,
            ..
        } => {
            quantifier(scope, *variable, balls.as_slice(), found);
            let inner = within(alloc, words, *variable)?;
            formula(alloc, Scope(context, inner.as_slice()), body.get(), found)?;
        }
        Formula::Chain { parts, .. } => {
            for part in parts.as_slice() {
                formula(alloc, scope, part, found)?;
            }
        }
    }
    Ok(())
}

/// Notes the faults of the cases of an automaton.
pub(crate) fn cases(alloc: Global, context: &Context, cases: &[Case], found: &mut Found) -> Done
    ensures { OnOk result (found.new ≡ noted found.old (flat_map (case_faults context.now) cases.now)) }
{
    let symbols = &context.known.setting.symbols;
    for case in cases {
        formula(alloc, Scope(context, &[]), &case.condition, found)?;
        note_missing(&context.text, symbols, case.symbol, found);
    }
    Ok(())
}
