//! Repetitions: the first item of a list that repeats an earlier one.
ghost use Rattle.std.specs.Prelude.{◌≡◌, [], ℕ, List, string_bytes, IfOk, OnOk};
ghost use Rattle.dd_written.specs.Values.{name_text};
ghost use Rattle.dd_faults.specs.{declared.fault.Fault.Fault as AnyFault, declared.fault.Fault.TheVariants.Twice, Order.noted};
ghost use Rattle.dd_faults.specs.Repeats.{first_repeat, edge_key, twice_label, entry_key, vector_key, twice_vector};

use crate::fault::{Done, Fault, Found, note_if};
use crate::numbers::{entry_value, signed_value};
use dd_commands::{Edge, Entry, Vector};
use dd_known::{FARTHEST, TOO_MANY};
use dd_topology::{NameFault, Names};
use dd_written::{Name, Text, name_text};
use std::alloc::{AllocError, Global};

/// Items that must not be repeated in a list. Two items count as the same if they have the same key.
pub(crate) trait Keyed {
    ghost key: { List ℕ → Self → List ℕ };
    /// The fault if this item repeats an earlier one.
    ghost repeated: { Self → AnyFault };

    /// The key, and the fault if the item repeats an earlier one.
    fn key(&self, alloc: Global, text: &Text) -> Result<(String, Fault), AllocError>
        ensures { IfOk result (λ keyed. (string_bytes keyed.0 ≡ key text.now self.now) × (keyed.1 ≡ repeated self.now)) };
}

/// Notes the first item that repeats an earlier one. If there are more items than any script can have, the call fails as if
/// memory ran out.
pub(crate) fn note_twice<T: Keyed>(alloc: Global, text: &Text, all: &[T], found: &mut Found) -> Done
    ensures { OnOk result (found.new ≡ noted found.old (first_repeat (T.key text.now) T.repeated [] all.now)) }
{
    if all.len() > TOO_MANY {
        return Err(AllocError);
    }
    let mut seen = Names::new(alloc);
    for item in all {
        let (key, repeated) = item.key(alloc, text)?;
        match seen.add(key) {
            Ok(_) => {}
            Err(NameFault::Twice(_)) => {
                note_if(found, true, repeated);
                return Ok(());
            }
            Err(NameFault::Memory(_)) => return Err(AllocError),
        }
    }
    Ok(())
}

impl Keyed for Name {
    ghost key = { name_text };

    ghost repeated = { Twice };

    fn key(&self, alloc: Global, text: &Text) -> Result<(String, Fault), AllocError> {
        let key = String::from_str(alloc, name_text(text, *self))?;
        Ok((key, Fault::Twice(*self)))
    }
}

impl Keyed for Edge {
    ghost key = { edge_key };

    ghost repeated = { twice_label };

    /// The key is the label and the first node, with a comma between them.
    fn key(&self, alloc: Global, text: &Text) -> Result<(String, Fault), AllocError> {
        let label = Name::Word(self.label);
        let key = format!(in alloc; "{},{}", name_text(text, label), name_text(text, self.from))?;
        Ok((key, Fault::Twice(label)))
    }
}

/// The key of an entry: its value if that is at most `FARTHEST` in absolute value, otherwise its text in the script. A comma
/// follows.
fn entry_key(alloc: Global, text: &Text, entry: Entry) -> Result<String, AllocError>
    ensures { IfOk result (λ key. string_bytes key ≡ entry_key text.now entry) }
{
    if entry_value(text, entry) <= FARTHEST {
        return format!(in alloc; "{},", signed_value(text, entry));
    }
    let (Entry::Number(number) | Entry::Negative(number)) = entry;
    format!(in alloc; "{},", name_text(text, Name::Number(number)))
}

impl Keyed for Vector {
    ghost key = { vector_key };

    ghost repeated = { twice_vector };

    fn key(&self, alloc: Global, text: &Text) -> Result<(String, Fault), AllocError> {
        let mut key = String::new(alloc);
        for entry in self.entries.as_slice() {
            key.push_str(entry_key(alloc, text, *entry)?.as_str())?;
        }
        Ok((key, Fault::TwiceVector))
    }
}
