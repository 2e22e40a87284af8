//! The arguments that are numbers in C.
ghost use Rattle.std.specs.Prelude.{◌≡◌, Some, if◌then◌else◌};
ghost use Rattle.pb_isa.specs.Helpers.{Helper, helper_of};
ghost use Rattle.pb_helpers.specs.Table.{with_helper};
ghost use Rattle.pb_registry.specs.Manifests.{profile_of};
ghost use Rattle.pb_api.specs.Numbers.{version_by, helpers_by, helpers_in_bits};

use pb_helpers::{HelperTable, Version};
use pb_isa::Profile;

/// The profile of this number.
pub fn profile_of(number: u32) -> Option<Profile>
    ensures { result ≡ profile_of number }
{
    match number {
        1 => Some(Profile::One),
        2 => Some(Profile::Two),
        _ => None,
    }
}

/// The version of the change record of this number.
pub fn version_of(number: u32) -> Option<Version>
    ensures { result ≡ version_by number }
{
    match number {
        1 => Some(Version::First),
        2 => Some(Version::Second),
        _ => None,
    }
}

// The table, and this helper too where it is asked for.
fn with_if(table: HelperTable, number: i32, is_there: bool) -> HelperTable
    ensures { (h : Helper) → helper_of number ≡ Some h
        → result ≡ if is_there then with_helper table h else table }
{
    if is_there {
        table.with(number).unwrap_or(table)
    } else {
        table
    }
}

// Those of the helpers 1 to 4 whose bits are set.
fn helpers_by(bits: u32) -> HelperTable
    ensures { result ≡ helpers_by bits }
{
    let table = with_if(HelperTable::none(), 1, bits % 2 == 1);
    let table = with_if(table, 2, bits / 2 % 2 == 1);
    let table = with_if(table, 3, bits / 4 % 2 == 1);
    with_if(table, 4, bits / 8 % 2 == 1)
}

/// The helpers whose bits are set, the lowest for helper 1. There are four, so that a greater number names none.
pub fn helpers_of(bits: u32) -> Option<HelperTable>
    ensures { result ≡ helpers_in_bits bits }
{
    if bits < 16 {
        Some(helpers_by(bits))
    } else {
        None
    }
}
