//! A manifest judged, as C gets it.
ghost use Rattle.std.specs.Prelude.{◌≡◌};
ghost use Rattle.pb_registry.specs.declared.fault.RegistryFault.{RegistryFault};
ghost use Rattle.pb_api.specs.Manifests.{IsManifestVerdict, fault_verdict, plain_verdict};

use crate::kind::{AnswerKind, KindNumber};
use pb_base::Refused;
use pb_registry::{Registry, RegistryFault};
use std::alloc::Global;

/// The verdict on a manifest: where it is accepted, how many observers it has, and where it is refused, the observer at fault,
/// from 0, or the greatest number where it is none's, and the code; of code 56 also where that observer's program is
/// refused.
#[repr(C)]
#[derive(Clone, Copy)]
pub struct ManifestVerdict {
    pub kind: KindNumber,
    pub observers: u32,
    pub observer: u32,
    pub code: u32,
    pub slot: u32,
    pub slot_code: u32,
}

// The verdict that is of no observer.
fn plain_verdict(kind: AnswerKind, observers: u32, code: u32) -> ManifestVerdict
    ensures { result ≡ plain_verdict kind observers code }
{
    ManifestVerdict {
        kind: kind.number(),
        observers,
        observer: u32::MAX,
        code,
        slot: 0,
        slot_code: 0,
    }
}

// The fault of a manifest.
fn fault_verdict(fault: &RegistryFault) -> ManifestVerdict
    ensures { result ≡ fault_verdict fault.now }
{
    let (slot, slot_code) = match fault.program() {
        Some(Refused { slot, code }) => (u32::from(slot), u32::from(code)),
        None => (0, 0),
    };
    let observer = match fault.observer() {
        Some(observer) => u32::from(observer),
        None => u32::MAX,
    };
    ManifestVerdict {
        kind: AnswerKind::Refused.number(),
        observers: 0,
        observer,
        code: u32::from(fault.code()),
        slot,
        slot_code,
    }
}

/// The verdict on the text of a manifest.
pub fn judge_manifest(alloc: Global, text: &[u8]) -> ManifestVerdict
    ensures { IsManifestVerdict text.now result }
{
    let Ok(text) = str::from_utf8(text) else {
        return plain_verdict(AnswerKind::NotText, 0, 0);
    };
    match Registry::from_json(alloc, text) {
        Ok(registry) => match registry.into_observers(alloc) {
            Ok(observers) => plain_verdict(AnswerKind::Done, observers.len() as u32, 0),
            Err((_registry, refused)) => plain_verdict(AnswerKind::NoMemory(refused), 0, 1),
        },
        Err(fault) => match fault.memory() {
            Ok(refused) => plain_verdict(AnswerKind::NoMemory(refused), 0, 1),
            Err(fault) => fault_verdict(&fault),
        },
    }
}
