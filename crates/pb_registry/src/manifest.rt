//! A manifest's text, read exactly: its value, the form of the whole, and then observer by observer.
ghost use Rattle.std.specs.Prelude.{◌≡◌, ◌≤◌, length, IfOk, IfErr};
ghost use Rattle.pb_registry.specs.Judging.{IsJudged};

use crate::fault::{RegistryFault, fault_with};
use crate::form::{Manifest, value_of, whole_in};
use crate::listing::observers_in;
use crate::observer::RegisteredObserver;
use indexmap::IndexMap;
use pb_accepted::Observer;
use pb_base::{MAX_OBSERVERS, NoMemory};
use std::alloc::Global;
use std::marker::Model;

/// The observers of a manifest, by their names and in its order.
#[derive(Drop)]
pub struct Registry {
    observers: IndexMap<String, RegisteredObserver>,
}

impl Model for Registry {
    ghost use Rattle.std.specs.Prelude.{List};
    ghost use Rattle.pb_accepted.specs.Observers.{ObserverOf};
    ghost use Rattle.pb_registry.specs.Observers.{observers_of, observers_code};

    ghost Value = { List ObserverOf };

    ghost coded = { observers_code };

    ghost view = { λ r. observers_of r.observers.entries };
}

impl Registry {
    /// Reads a manifest: an object with exactly `profile`, which is 1 or 2, and `observers`, an
    /// array. Each of these is an object with exactly `name`, `column`, `helpers`, an array of
    /// numbers, and `code`, a text. A number is written with digits alone, and is below 2^64. In
    /// profile 2 an observer may also have `record`. A manifest is taken only where its value has
    /// no fault, with an observer for each element: the name, column and program that stand there,
    /// accepted with the helpers and for the version that stand there. Else its fault is returned:
    /// that of the whole, without a place, or the first element's at fault with its lowest code; or
    /// want of memory.
    pub fn from_json(alloc: Global, text: &str) -> Result<Registry, RegistryFault>
        ensures judged { IsJudged result text.now }
        ensures few { IfOk result (λ os. length os ≤ MAX_OBSERVERS) }
    {
        let value = match value_of(alloc, text) {
            Ok(value) => value,
            Err(code) => return Err(fault_with(None, code)),
        };
        let Manifest { profile, elements } = match whole_in(&value) {
            Ok(manifest) => manifest,
            Err(code) => return Err(fault_with(None, code)),
        };
        let observers = observers_in(alloc, profile, elements)?;
        Ok(Registry { observers })
    }

    /// The observers as a table takes them, in the manifest's order. Where memory is refused, the registry is handed
    /// back.
    pub fn into_observers(self, alloc: Global) -> Result<Vec<Observer>, (Registry, NoMemory)>
        ensures same { IfOk result (λ v. v.items ≡ self) }
        ensures kept { IfErr result (λ r. r.0 ≡ self) }
    {
        // The one growth comes before anything moves, so that a refused one leaves the registry whole.
        let mut observers = match Vec::with_capacity(alloc, self.observers.len()) {
            Ok(observers) => observers,
            Err(e) => return Err((self, NoMemory::from(e))),
        };
        for (name, RegisteredObserver { column, program }) in self.observers {
            observers
                .push(Observer {
                    name,
                    column,
                    program,
                })
                .unwrap();
        }
        Ok(observers)
    }
}
