//! Lists of names.
ghost use Rattle.std.specs.Prelude.{◌≡◌, ◌≤◌, ◌<◌, ◌^◌, ◌-◌, [], ◌∷◌, ◌++◌, length, map, codes, Contains, IfOk, OnOk, if◌then◌else◌, bytes_eq};
ghost use Rattle.std.specs.List.{list_any};
ghost use Rattle.dd_written.specs.Values.{name_text};
ghost use Rattle.dd_faults.specs.Repeats.{twice_named};

use dd_topology::{NameFault, Names};
use dd_written::{Name, Text, name_text};
use std::alloc::{AllocError, Global};

/// Adds a name that is not yet in the list.
#[tactic(auto, using(dd_faults::specs::lemmas::Repeats::not_among))]
pub fn add_new(alloc: Global, names: &mut Names, text: &str) -> Result<(), AllocError>
    requires few { length names.old < 2 ^ 32 - 1 }
    requires new { ¬ Contains names.old text.now }
    ensures { OnOk result (names.new ≡ names.old ++ text.now ∷ []) }
{
    add_once(alloc, names, text)
}

/// Adds a name, unless it is already in the list.
pub(crate) fn add_once(alloc: Global, names: &mut Names, text: &str) -> Result<(), AllocError>
    requires { length names.old < 2 ^ 32 - 1 }
    ensures { OnOk result (names.new ≡ (if list_any (bytes_eq text.now) names.old then names.old else names.old ++ text.now ∷ [])) }
{
    match names.add(String::from_str(alloc, text)?) {
        Ok(_) => Ok(()),
        Err(NameFault::Twice(_)) => Ok(()),
        Err(NameFault::Memory(_)) => Err(AllocError),
    }
}

/// The list that has only the name `0`.
pub fn zero(alloc: Global) -> Result<Names, AllocError>
    ensures { IfOk result (λ names. names ≡ codes "0" ∷ []) }
{
    let mut names = Names::new(alloc);
    add_new(alloc, &mut names, "0")?;
    Ok(names)
}

/// The list of the names `0` and `1`.
pub fn zero_and_one(alloc: Global) -> Result<Names, AllocError>
    ensures { IfOk result (λ names. names ≡ codes "0" ∷ codes "1" ∷ []) }
{
    let mut names = zero(alloc)?;
    add_new(alloc, &mut names, "1")?;
    Ok(names)
}

/// The list of the texts of these names, no two of which are the same.
pub(crate) fn names_of(alloc: Global, text: &Text, written: &[Name]) -> Result<Names, AllocError>
    requires few { length written.now ≤ 16 }
    requires distinct { twice_named text.now written.now ≡ [] }
    ensures { IfOk result (λ names. names ≡ map (name_text text.now) written.now) }
{
    let mut names = Names::new(alloc);
    for name in written {
        add_new(alloc, &mut names, name_text(text, *name))?;
    }
    Ok(names)
}
