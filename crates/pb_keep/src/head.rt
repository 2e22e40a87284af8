//! What stands in the first record of a log: the limit of entries, and the manifest.
ghost use Rattle.std.specs.Prelude.{◌≡◌, ◌<◌, ◌≤◌, ◌+◌, ◌-◌, ◌^◌, ℕ, List, None, length, IfOk, IfSome};
ghost use Rattle.pb_keep.specs.Kept.{head};

use pb_base::NoMemory;
use pb_reading::{first_line, numeral_upto};
use std::alloc::Global;

// The limit in a line, and then the manifest, or that alone where there is no limit.
pub(crate) fn head_of(alloc: Global, limit: u64, manifest: &[u8]) -> Result<Vec<u8>, NoMemory>
    ensures exact { IfOk result (λ v. v.items ≡ head limit manifest.now) }
    ensures short { IfOk result (λ v. length v.items ≤ length manifest.now + 27) }
{
    if limit == u64::MAX {
        return Ok(manifest.to_vec(alloc)?);
    }
    let mut bytes = format!(in alloc; "limit {limit}\n")?.into_bytes();
    bytes.extend_from_slice(manifest)?;
    Ok(bytes)
}

// The limit that stands in the first line, and what stands after it.
fn first_limit(text: &str) -> Option<(u64, &str)>
    ensures exact { IfSome result (λ r. text.now ≡ head r.0 r.1.now) }
    ensures found { (limit : ℕ) (manifest : List ℕ) → limit < 2 ^ 64 - 1
        → text.now ≡ head limit manifest
        → IfSome result (λ r. (r.0 ≡ limit) × (r.1.now ≡ manifest)) }
    ensures some { (limit : ℕ) (manifest : List ℕ) → limit < 2 ^ 64 - 1
        → text.now ≡ head limit manifest → result ≡ None → ⊥ }
{
    let Some(rest) = text.strip_prefix("limit ") else {
        return None;
    };
    let (word, after) = first_line(rest);
    let Some(manifest) = after else {
        return None;
    };
    match numeral_upto((), (), u64::MAX - 1, word) {
        Ok(limit) => Some((limit, manifest)),
        Err(()) => None,
    }
}

/// The limit of entries and the manifest that a first record has, of which this is the text after the version. Where no limit
/// stands there, there is none, which is the greatest number.
pub fn split_head(text: &str) -> (u64, &str)
    ensures exact { text.now ≡ head result.0 result.1.now }
    // A limit that stands there is found.
    ensures found { (limit : ℕ) (manifest : List ℕ) → limit < 2 ^ 64 - 1
        → text.now ≡ head limit manifest
        → (result.0 ≡ limit) × (result.1.now ≡ manifest) }
{
    match first_limit(text) {
        Some(found) => found,
        None => (u64::MAX, text),
    }
}
