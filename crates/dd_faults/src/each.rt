//! Noting the faults of each item of a list.
ghost use Rattle.std.specs.{Prelude.◌≡◌, Prelude.List, List.flat_map};
ghost use Rattle.dd_faults.specs.{declared.fault.Fault.Fault as AnyFault, Order.noted};

use crate::fault::Found;

/// A context that says which faults an item has.
pub(crate) trait Notes<T> {
    /// The faults of an item.
    ghost faults: { Self → T → List AnyFault };

    /// Notes the faults of an item.
    fn note(&self, item: &T, found: &mut Found)
        ensures { found.new ≡ noted found.old (faults self.now item.now) };
}

/// Notes the faults of each item.
pub(crate) fn note_each<T, N: Notes<T>>(notes: &N, items: &[T], found: &mut Found)
    ensures { found.new ≡ noted found.old (flat_map (N.faults notes.now) items.now) }
{
    for item in items {
        notes.note(item, found);
    }
}
