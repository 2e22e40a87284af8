//! Which profile and which version of the change record a number names.
ghost use Rattle.law_texts.specs.ManifestNumbers.{ManifestsNameProfiles, ManifestsNameRecords, OnlyTwoHasRecords};
ghost use Rattle.law_texts.specs.OptionNumbers.{OptionsNameProfiles, OptionsNameVersions};

/// In a manifest 1 and 2 name the profile of its programs, and no other number does. An observer may have the member `record`
/// in profile 2 alone, and else the manifest is refused with 51. Where it is left out or 1 the observer's change record has 80
/// bytes, where it is 2 it has 120, and another number is refused with 54.
pub fn manifests_name_profiles_and_records()
    ensures profiles { ManifestsNameProfiles }
    ensures members { OnlyTwoHasRecords }
    ensures records { ManifestsNameRecords }
{}

/// After `--profile` 1 and 2 name a profile, and after `--record` a version of the change record. No other number does, and where
/// the option is left out it is the first.
pub fn options_name_profiles_and_versions()
    ensures profiles { OptionsNameProfiles }
    ensures versions { OptionsNameVersions }
{}
