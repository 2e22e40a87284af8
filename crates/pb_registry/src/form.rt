//! The form of a manifest: which members there are, and of which types. What they hold is judged
//! after it.
ghost use Rattle.std.specs.Prelude.{◌≡◌, ◌≢◌, ◌≤◌, map, length, Some, None, IfOk, IfErr, option_map};
ghost use Rattle.std.specs.List.{list_all};
ghost use Rattle.serde_json.specs.Read.{read};
ghost use Rattle.serde_json.specs.View.{view};
ghost use Rattle.pb_registry.specs.Manifests.{member_count, number_at, elements_at, text_at, has_text, has_numbers, is_json_number, has_members, has_record, is_observer, profile_of, ManifestOf, manifest_in, whole_in};
ghost use Rattle.pb_registry.specs.Views.{manifest_view};
ghost use Rattle.pb_reading.specs.Reading.{Gives};
ghost use Rattle.pb_registry.specs.Codes.{is_memory};
ghost use Rattle.pb_registry.specs.declared.code.ManifestCode.TheVariants.{Text};
ghost use Rattle.pb_registry.specs.Codes.{memory};

use crate::code::ManifestCode;
use pb_base::{MAX_OBSERVERS, NoMemory};
use pb_isa::Profile;
use serde_json::Value;
use serde_json::error::Category;
use std::alloc::{AllocError, Global};

/// A manifest's profile, and what stands in its `observers`.
#[derive(Clone, Copy)]
pub struct Manifest<'a> {
    pub profile: Profile,
    pub elements: &'a [Value],
}

/// The value that the text is read as. Of a member that is named twice the last one counts, as `serde_json` reads it.
pub fn value_of(alloc: Global, text: &str) -> Result<Value, ManifestCode>
    ensures ok { IfOk result (λ v. read text.now ≡ Some (view v)) }
    ensures err { IfErr result (λ e. e ≢ memory → (e ≡ Text) × (read text.now ≡ None)) }
{
    match Value::from_str(alloc, text) {
        Ok(value) => Ok(value),
        Err(error) => match error.classify() {
            Category::Memory => Err(ManifestCode::Memory(NoMemory::from(AllocError))),
            _ => Err(ManifestCode::Text),
        },
    }
}

// A value that is no object has none, so that it has the form of nothing.
fn member_count(value: &Value) -> usize
    ensures { result ≡ member_count (view value.now) }
{
    match value.as_object() {
        Some(members) => members.len(),
        None => 0,
    }
}

/// The number of a member: digits alone, below 2^64.
pub fn number_at(value: &Value, name: &str) -> Option<u64>
    ensures { result ≡ number_at name.now (view value.now) }
{
    value.get(name).and_then(Value::as_u64)
}

/// The text of a member.
pub fn text_at<'a>(value: &'a Value, name: &str) -> Option<&'a str>
    ensures { option_map (λ s. s.now) result ≡ text_at name.now (view value.now) }
{
    value.get(name).and_then(Value::as_str)
}

fn has_text(value: &Value, name: &str) -> bool
    ensures { result ≡ has_text name.now (view value.now) }
{
    text_at(value, name).is_some()
}

/// The elements of a member that is an array.
pub fn elements_at<'a>(value: &'a Value, name: &str) -> Option<&'a Vec<Value>>
    ensures { option_map (λ v. map view v.now.items) result
        ≡ elements_at name.now (view value.now) }
{
    value.get(name).and_then(Value::as_array)
}

fn are_numbers(items: &[Value]) -> bool
    ensures { result ≡ list_all is_json_number (map view items.now) }
{
    for item in items {
        if !item.is_u64() {
            return false;
        }
    }
    true
}

fn has_numbers(value: &Value, name: &str) -> bool
    ensures { result ≡ has_numbers name.now (view value.now) }
{
    match elements_at(value, name) {
        Some(items) => are_numbers(items),
        None => false,
    }
}

fn has_members(value: &Value) -> bool
    ensures { result ≡ has_members (view value.now) }
{
    has_text(value, "name")
        && number_at(value, "column").is_some()
        && has_numbers(value, "helpers")
        && has_text(value, "code")
}

// Whether the version of the change record is named. Profile 1 has no such member, so that one there is too many.
fn has_record(profile: Profile, value: &Value) -> bool
    ensures { result ≡ has_record profile (view value.now) }
{
    match profile {
        Profile::One => false,
        Profile::Two => number_at(value, "record").is_some(),
    }
}

fn is_observer(profile: Profile, value: &Value) -> bool
    ensures { result ≡ is_observer profile (view value.now) }
{
    // A count and the names, so that there is no other member.
    let members = if has_record(profile, value) { 5 } else { 4 };
    member_count(value) == members && has_members(value)
}

fn are_observers(profile: Profile, items: &[Value]) -> bool
    ensures { result ≡ list_all (is_observer profile) (map view items.now) }
{
    for item in items {
        if !is_observer(profile, item) {
            return false;
        }
    }
    true
}

// The profile of a number.
fn profile_of(number: u64) -> Option<Profile>
    ensures { result ≡ profile_of number }
{
    match number {
        1 => Some(Profile::One),
        2 => Some(Profile::Two),
        _ => None,
    }
}

// The manifest, where the whole has the form of one.
fn manifest_in(value: &Value) -> Option<Manifest<'_>>
    ensures { option_map manifest_view result ≡ manifest_in (view value.now) }
{
    if member_count(value) != 2 {
        return None;
    }
    let profile = profile_of(number_at(value, "profile")?)?;
    let elements = elements_at(value, "observers")?;
    Some(Manifest { profile, elements })
}

/// The manifest that a value is, each of its elements with the form of an observer.
pub fn whole_in(value: &Value) -> Result<Manifest<'_>, ManifestCode>
    ensures whole { Gives is_memory manifest_view result (whole_in (manifest_in (view value.now))) }
    ensures few { IfOk result (λ m. length m.elements.now ≤ MAX_OBSERVERS) }
{
    let Some(manifest) = manifest_in(value) else {
        return Err(ManifestCode::Form);
    };
    // The form of all elements comes before their number, since 51 is lower than 52.
    if !are_observers(manifest.profile, manifest.elements) {
        Err(ManifestCode::Form)
    } else if manifest.elements.len() > MAX_OBSERVERS {
        Err(ManifestCode::TooMany)
    } else {
        Ok(manifest)
    }
}
