//! The observers of a manifest, one after the other, in a map by name that keeps their order: a used name is a look-up.
ghost use Rattle.std.specs.Prelude.{◌≡◌, ◌≢◌, ◌≤◌, ◌⊎◌, map, length, None, Ok, IfOk, IfErr, OnOk};
ghost use Rattle.std.specs.List.{IsDistinct};
ghost use Rattle.std.specs.Str.{bytes_eq};
ghost use Rattle.serde_json.specs.View.{view};
ghost use Rattle.pb_registry.specs.Codes.{memory};
ghost use Rattle.pb_registry.specs.Observers.{observers_of};
ghost use Rattle.pb_registry.specs.Judging.{AreObservers, HasOneMore, IsLowestAfter, TellsFault, is_used, names_of, fault_with};

use crate::code::ManifestCode;
use crate::fault::{RegistryFault, fault_at};
use crate::form::text_at;
use crate::observer::{RegisteredObserver, observer_in};
use indexmap::IndexMap;
use pb_accepted::Observer;
use pb_base::{MAX_OBSERVERS, NoMemory};
use pb_isa::Profile;
use serde_json::Value;
use std::alloc::Global;

// Asked of the element as it is written, since a used name is reported before anything of the
// element is read.
fn is_used(observers: &IndexMap<String, RegisteredObserver>, element: &Value) -> bool
    ensures { result ≡ is_used (names_of (observers_of observers.now.entries)) (view element.now) }
{
    match text_at(element, "name") {
        Some(name) => observers.contains_key(name),
        None => false,
    }
}

// Reads one observer more. A name that was used before is reported first, as its code is the
// lowest.
fn add_observer(
    alloc: Global,
    profile: Profile,
    observers: &mut IndexMap<String, RegisteredObserver>,
    element: &Value,
) -> Result<(), ManifestCode>
    ensures more { OnOk result
        (HasOneMore profile (view element.now) (observers_of observers.old.entries)
        (observers_of observers.new.entries)) }
    ensures apart { OnOk result (IsDistinct bytes_eq
        (names_of (observers_of observers.new.entries))) }
    ensures err { IfErr result
        (λ c. c ≢ memory → IsLowestAfter (names_of (observers_of observers.old.entries)) profile
        (view element.now) c) }
{
    if is_used(observers, element) {
        return Err(ManifestCode::Name);
    }
    let Observer {
        name,
        column,
        program,
    } = observer_in(alloc, profile, element)?;
    match observers.insert(name, RegisteredObserver { column, program }) {
        Ok(_) => Ok(()),
        Err(e) => Err(ManifestCode::Memory(NoMemory::from(e))),
    }
}

/// Reads the observers of a manifest, in its order, their programs in this profile. The first at
/// fault is returned, with its lowest code.
pub fn observers_in(
    alloc: Global,
    profile: Profile,
    elements: &[Value],
) -> Result<IndexMap<String, RegisteredObserver>, RegistryFault>
    requires { length elements.now ≤ MAX_OBSERVERS }
    ensures ok { IfOk result (λ m. AreObservers profile (map view elements.now)
        (observers_of m.entries)) }
    ensures err { IfErr result (λ f. (f ≡ fault_with None memory) ⊎ TellsFault
        (Ok (record { profile = profile; elements = map view elements.now })) f) }
{
    let mut observers = IndexMap::new(alloc);
    for (place, element) in elements.iter().enumerate() {
        if let Err(code) = add_observer(alloc, profile, &mut observers, element) {
            // A place is below 32 by what is asked, so that it has a byte.
            return Err(fault_at(place as u8, code));
        }
    }
    Ok(observers)
}
