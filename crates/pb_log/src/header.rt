//! The first record of a log.
ghost use Rattle.std.specs.Prelude.{◌≡◌, IfOk, OnOk, IfErr};
ghost use Rattle.pb_log.specs.Header.{header, WhyNoHeader, WhyNotOurs};

use crate::fault::LogFault;
use std::alloc::{AllocError, Global};

// The header of a log of this manifest.
pub fn header_of(alloc: Global, manifest: &[u8]) -> Result<Vec<u8>, AllocError>
    ensures { IfOk result (λ v. v.items ≡ header manifest.now) }
{
    let mut bytes = Vec::new(alloc);
    bytes.extend_from_slice(b"percobpf log 1\n")?;
    bytes.extend_from_slice(manifest)?;
    Ok(bytes)
}

// The manifest of the log whose first record this is, or why it is the header of none.
pub fn manifest_of(first: &[u8]) -> Result<&[u8], LogFault>
    ensures ok { IfOk result (λ m. first.now ≡ header m.now) }
    ensures err { IfErr result (WhyNoHeader first.now) }
{
    let Some(rest) = first.strip_prefix(b"percobpf log ") else {
        return Err(LogFault::NoHeader);
    };
    match rest.strip_prefix(b"1\n") {
        Some(manifest) => Ok(manifest),
        None => Err(LogFault::NewerVersion),
    }
}

// Whether the first record is the header of a log of this manifest, and what it is if not.
pub fn compare_header(first: &[u8], manifest: &[u8]) -> Result<(), LogFault>
    ensures ok { OnOk result (first.now ≡ header manifest.now) }
    ensures err { IfErr result (WhyNotOurs manifest.now first.now) }
{
    let own = manifest_of(first)?;
    if own != manifest {
        return Err(LogFault::OtherManifest);
    }
    Ok(())
}
