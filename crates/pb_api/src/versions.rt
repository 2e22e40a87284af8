//! Which versions of formats a library knows.
ghost use Rattle.std.specs.Prelude.{◌≡◌, ◌+◌, ◌^◌};
ghost use Rattle.pb_registry.specs.Manifests.{profile_of};
ghost use Rattle.pb_api.specs.Numbers.{version_by, helpers_in_bits};
ghost use Rattle.pb_api.specs.Versions.{StandFrom};

// What `percobpf_api.h` declares. It grows where a caller that was compiled with an older header would be wrong.
const INTERFACE: u32 = 1;

/// The version of the interface, and the greatest numbers of profiles, of versions of the change record, and of helpers.
#[repr(C)]
#[derive(Clone, Copy)]
pub struct Versions {
    pub interface: u32,
    pub profiles: u32,
    pub records: u32,
    pub helpers: u32,
}

/// The versions that are known here.
pub fn known_versions() -> Versions
    ensures interface { result.interface ≡ 1 }
    ensures profiles { StandFrom 1 (result.profiles + 1) profile_of }
    ensures records { StandFrom 1 (result.records + 1) version_by }
    ensures helpers { StandFrom 0 (2 ^ result.helpers) helpers_in_bits }
{
    Versions {
        interface: INTERFACE,
        profiles: 2,
        records: 2,
        helpers: 4,
    }
}
