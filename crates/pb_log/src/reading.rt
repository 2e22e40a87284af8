//! Records out of bytes.
ghost use Rattle.std.specs.Prelude.{◌≡◌, ◌++◌, ◌<◌, ◌^◌, ◌+◌, ◌↔◌, length, IfSome, IfOk, IsTrue, None, map};
ghost use Rattle.pb_log.specs.Records.{Stands, StandsOpen, Hides, EndsShut, IsLog, body, block, blocks};

use sqlite_disk::digest_of;
use std::alloc::{AllocError, Global};

/// A gate before a record.
pub const OPEN: u8 = 0xa5;

/// A gate after the last record. It differs from an open one in four bits, so one that is turned in fewer is neither.
pub const CLOSED: u8 = 0;

// The record whose gate is at this place, where these bytes stand after the gate, and what follows it; if it is whole.
pub fn split_body(at: usize, bytes: &[u8]) -> Option<(&[u8], &[u8])>
    ensures short { IfSome result (λ p. length p.0.now < 2 ^ 32) }
    ensures some { IfSome result (λ p. bytes.now ≡ body at p.0.now ++ p.1.now) }
    ensures none { result ≡ None → Stands at bytes.now → ⊥ }
{
    let (len, rest) = bytes.split_first_chunk::<4>()?;
    let (sum, rest) = rest.split_first_chunk::<8>()?;
    let (item, rest) = rest.split_at_checked(u32::from_le_bytes(*len) as usize)?;
    if digest_of(at as u64, item) != u64::from_le_bytes(*sum) {
        return None;
    }
    Some((item, rest))
}

// The same, with the gate, which has to be open.
pub fn split_record(at: usize, bytes: &[u8]) -> Option<(&[u8], &[u8])>
    ensures short { IfSome result (λ p. length p.0.now < 2 ^ 32) }
    ensures some { IfSome result (λ p. bytes.now ≡ block at p.0.now ++ p.1.now) }
    ensures none { result ≡ None → StandsOpen at bytes.now → ⊥ }
{
    let (gate, rest) = bytes.split_first()?;
    if *gate != OPEN {
        return None;
    }
    split_body(at, rest)
}

/// The records that a file of any bytes holds, and how many bytes they take: up to the first place at which no whole
/// record stands after an open gate.
pub fn read_records(alloc: Global, bytes: &[u8]) -> Result<(Vec<Vec<u8>>, usize), AllocError>
    ensures records { IfOk result (λ r. IsLog bytes.now (map (λ v. v.items) r.0.items)) }
    ensures end { IfOk result (λ r. r.1 ≡ length (blocks 0 (map (λ v. v.items) r.0.items))) }
{
    let mut records = Vec::new(alloc);
    let mut rest = bytes;
    let mut taken = 0;
    for _ in 0..bytes.len() {
        let Some((item, more)) = split_record(taken, rest) else {
            break;
        };
        records.push(item.to_vec(alloc)?)?;
        taken += 13 + item.len();
        rest = more;
    }
    Ok((records, taken))
}

// Whether a whole record stands after a closed gate at this place, and the next one, with its gate open, after that.
fn hides_record(at: usize, bytes: &[u8]) -> bool
    requires { at + length bytes.now < 2 ^ 63 }
    ensures { IsTrue result ↔ Hides at bytes.now }
{
    match split_body(at, bytes) {
        Some((item, rest)) => split_record(at + 13 + item.len(), rest).is_some(),
        None => false,
    }
}

// Whether the bytes from this place on are what a put leaves after the last record.
pub fn ends_shut(at: usize, bytes: &[u8]) -> bool
    requires { at + length bytes.now < 2 ^ 63 }
    ensures { IsTrue result ↔ EndsShut at bytes.now }
{
    match bytes.split_first() {
        Some((gate, rest)) => *gate == CLOSED && !hides_record(at, rest),
        None => false,
    }
}
