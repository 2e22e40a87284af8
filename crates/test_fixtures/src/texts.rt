//! Manifests and scripts that tests begin with, as they are read.
ghost use Rattle.std.specs.Prelude.{◌≤◌, length, IfOk};
ghost use Rattle.pb_base.specs.declared.limits.TheConstants.{MAX_OBSERVERS};

use crate::unready::Unready;
use pb_accepted::Observer;
use pb_base::Batch;
use pb_parse::parse_script;
use pb_registry::Registry;
use std::alloc::Global;

/// An observer of column 0 that does nothing.
pub const WATCH: &str =
    "{\"profile\":1,\"observers\":[{\"name\":\"watch\",\"column\":0,\"helpers\":[],\"code\":\"b7000000000000009500000000000000\"}]}";

/// One that copies the value of its cell to column 1.
pub const COPY: &str =
    "{\"profile\":1,\"observers\":[{\"name\":\"copy\",\"column\":0,\"helpers\":[2],\"code\":\"bf1600000000000079623000000000007b2ae0ff0000000079623800000000007b2ae8ff0000000079624000000000007b2af0ff0000000079624800000000007b2af8ff000000007961000000000000b702000001000000bfa300000000000007030000e0ffffff8500000002000000b7000000000000009500000000000000\"}]}";

/// The observers of a manifest without a fault.
pub fn observers_of(alloc: Global, manifest: &str) -> Result<Vec<Observer>, Unready>
    ensures { IfOk result (λ v. length v.items ≤ MAX_OBSERVERS) }
{
    let registry = Registry::from_json(alloc, manifest)?;
    match registry.into_observers(alloc) {
        Ok(observers) => Ok(observers),
        Err((_, refused)) => Err(Unready::NoMemory(refused)),
    }
}

/// The changes of a script without a fault.
pub fn batches_of(alloc: Global, script: &str) -> Result<Vec<Batch>, Unready> {
    Ok(parse_script(alloc, script)?)
}
