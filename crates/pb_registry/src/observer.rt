//! One observer of a manifest: its members in the order of their codes, so that the first fault has the lowest.
ghost use Rattle.std.specs.Prelude.{◌≡◌, ◌≢◌, Ok, map, IfOk, IfErr, string_bytes, codes};
ghost use Rattle.std.specs.List.{list_all, list_any};
ghost use Rattle.std.specs.Char.{is_ascii_uppercase};
ghost use Rattle.serde_json.specs.View.{view};
ghost use Rattle.pb_registry.specs.Manifests.{is_name_letter, is_name, name_in, column_in, numbers_of, helpers_in, record_version, bytes_in, members_of, text_at, number_at, elements_at};
ghost use Rattle.pb_registry.specs.Helpers.{helpers_of};
ghost use Rattle.pb_registry.specs.Accepting.{IsAcceptedCode};
ghost use Rattle.pb_registry.specs.Judging.{IsProgramFault, IsOwnFault, IsObserver};
ghost use Rattle.pb_registry.specs.Observers.{written_of};
ghost use Rattle.pb_reading.specs.Reading.{Gives};
ghost use Rattle.pb_registry.specs.Codes.{is_memory, memory};

use crate::accepting::accept_in;
use crate::code::ManifestCode;
use crate::form::{elements_at, number_at, text_at};
use hex::FromHexError;
use pb_accepted::{Accepted, Observer};
use pb_base::{COLUMNS, Column, NoMemory};
use pb_helpers::{HelperTable, Version};
use pb_isa::Profile;
use pb_verify::VerifyFault;
use serde_json::Value;
use std::alloc::{AllocError, Global};
use std::sync::Arc;

/// What a registry keeps of an observer beside its name, which is the map's key. The program is shared as it is read,
/// so that taking the observers out copies none.
#[derive(Drop)]
pub struct RegisteredObserver {
    pub column: Column,
    pub program: Arc<Accepted>,
}

// An observer as it is written, before its program is judged, since code 56 is the highest.
#[derive(Drop)]
struct Written {
    name: String,
    column: Column,
    helpers: HelperTable,
    version: Version,
    bytes: Vec<u8>,
}

fn is_name_letter(letter: u8) -> bool
    ensures { result ≡ is_name_letter letter }
{
    letter.is_ascii_lowercase() || letter.is_ascii_digit() || letter == b'-'
}

fn are_name_letters(letters: &[u8]) -> bool
    ensures { result ≡ list_all is_name_letter letters.now }
{
    letters.iter().all(|letter| is_name_letter(*letter))
}

fn is_name(name: &str) -> bool
    ensures { result ≡ is_name name.now }
{
    !name.is_empty() && name.len() <= 32 && are_name_letters(name.as_bytes())
}

fn name_in(value: &Value) -> Result<&str, ManifestCode>
    ensures { Gives is_memory (λ s. s.now) result
        (name_in (text_at (codes "name") (view value.now))) }
{
    let Some(name) = text_at(value, "name") else {
        return Err(ManifestCode::Form);
    };
    if is_name(name) {
        Ok(name)
    } else {
        Err(ManifestCode::Name)
    }
}

fn column_in(value: &Value) -> Result<Column, ManifestCode>
    ensures { Gives is_memory (λ n. n) result
        (column_in (number_at (codes "column") (view value.now))) }
{
    let Some(number) = number_at(value, "column") else {
        return Err(ManifestCode::Form);
    };
    // Before the number is made a byte, so that 256 isn't column 0.
    if number >= u64::from(COLUMNS) {
        return Err(ManifestCode::Column);
    }
    match Column::new(number as u8) {
        Some(column) => Ok(column),
        None => Err(ManifestCode::Column),
    }
}

// The helpers of these numbers, where each is 1 to 4 and none stands twice.
fn helpers_of(elements: &[Value]) -> Option<HelperTable>
    ensures { result ≡ helpers_of (numbers_of (map view elements.now)) }
{
    let mut helpers = HelperTable::none();
    for element in elements {
        let number = element.as_u64().unwrap_or(0);
        // Above 4 first, so that no larger number is taken for a helper's once it is made an `i32`.
        if number > 4 || helpers.declares(number as i32) {
            return None;
        }
        helpers = helpers.with(number as i32)?;
    }
    Some(helpers)
}

fn helpers_in(value: &Value) -> Result<HelperTable, ManifestCode>
    ensures { Gives is_memory (λ h. h) result
        (helpers_in (elements_at (codes "helpers") (view value.now))) }
{
    let Some(elements) = elements_at(value, "helpers") else {
        return Err(ManifestCode::Form);
    };
    match helpers_of(elements) {
        Some(helpers) => Ok(helpers),
        None => Err(ManifestCode::Helpers),
    }
}

fn record_version(value: &Value) -> Result<Version, ManifestCode>
    ensures { Gives is_memory (λ v. v) result
        (record_version (number_at (codes "record") (view value.now))) }
{
    match number_at(value, "record") {
        None | Some(1) => Ok(Version::First),
        Some(2) => Ok(Version::Second),
        Some(_) => Err(ManifestCode::Record),
    }
}

fn has_upper(digits: &[u8]) -> bool
    ensures { result ≡ list_any is_ascii_uppercase digits.now }
{
    digits.iter().any(|digit| digit.is_ascii_uppercase())
}

fn bytes_in(alloc: Global, value: &Value) -> Result<Vec<u8>, ManifestCode>
    ensures { Gives is_memory (λ v. v.items) result
        (bytes_in (text_at (codes "code") (view value.now))) }
{
    let Some(digits) = text_at(value, "code") else {
        return Err(ManifestCode::Form);
    };
    // `hex` takes capitals too, so that they are looked for here.
    if has_upper(digits.as_bytes()) {
        return Err(ManifestCode::Digits);
    }
    match hex::decode(alloc, digits) {
        Ok(bytes) => Ok(bytes),
        Err(FromHexError::OutOfMemory) => Err(ManifestCode::Memory(NoMemory::from(AllocError))),
        Err(_) => Err(ManifestCode::Digits),
    }
}

fn program_in(
    alloc: Global,
    profile: Profile,
    version: Version,
    bytes: &[u8],
    helpers: HelperTable,
) -> Result<Arc<Accepted>, ManifestCode>
    ensures ok { IfOk result (λ p. IsAcceptedCode profile version bytes.now helpers p.value) }
    ensures err { IfErr result (λ c. c ≢ memory
        → IsProgramFault profile version bytes.now helpers c) }
{
    match accept_in(alloc, profile, version, bytes, helpers) {
        Ok(program) => match Arc::new(alloc, program) {
            Ok(program) => Ok(program),
            Err(e) => Err(ManifestCode::Memory(NoMemory::from(e))),
        },
        Err(VerifyFault::NoMemory(e)) => Err(ManifestCode::Memory(e)),
        Err(VerifyFault::Refused(refused)) => Err(ManifestCode::Program(refused)),
    }
}

fn copy_of(alloc: Global, text: &str) -> Result<String, ManifestCode>
    ensures { Gives is_memory string_bytes result (Ok text.now) }
{
    match String::from_str(alloc, text) {
        Ok(copy) => Ok(copy),
        Err(e) => Err(ManifestCode::Memory(NoMemory::from(e))),
    }
}

// Reads an observer as it is written. The name is copied last, where memory alone can be refused.
#[tactic(auto, unfolding(crate::specs::Manifests::members_of))]
fn members_of(alloc: Global, value: &Value) -> Result<Written, ManifestCode>
    ensures { Gives is_memory written_of result (members_of (view value.now)) }
{
    let name = name_in(value)?;
    let column = column_in(value)?;
    let helpers = helpers_in(value)?;
    let version = record_version(value)?;
    let bytes = bytes_in(alloc, value)?;
    let name = copy_of(alloc, name)?;
    Ok(Written {
        name,
        column,
        helpers,
        version,
        bytes,
    })
}

/// Reads an observer, its program in this profile. The fault that is returned has the lowest code,
/// since members come by their codes and the program last.
pub fn observer_in(alloc: Global, profile: Profile, value: &Value) -> Result<Observer, ManifestCode>
    ensures ok { IfOk result (IsObserver profile (view value.now)) }
    ensures err { IfErr result (λ c. c ≢ memory → IsOwnFault profile (view value.now) c) }
{
    let Written {
        name,
        column,
        helpers,
        version,
        bytes,
    } = members_of(alloc, value)?;
    let program = program_in(alloc, profile, version, &bytes, helpers)?;
    Ok(Observer {
        name,
        column,
        program,
    })
}
