//! Files as bytes and as text. All files of a command are read before one is taken as text, so that
//! a missing file is reported before a malformed one.
ghost use Rattle.std.specs.Prelude.{◌≡◌, ◌∷◌, [], IfOk, IfErr, IsUtf8, string_bytes};
ghost use Rattle.pb_files.specs.Files.{IsKnownAs};
ghost use Rattle.pb_files.specs.PathFaults.{IsUnreadAt, IsNoTextAt, IsFileFault};

use crate::fault::FileFault;
use crate::paths::{PathFault, Paths};
use pb_texts::ReplayFiles;

/// The bytes of a file.
pub fn bytes_at<'a, P: Paths>(paths: &mut P, path: &'a str) -> Result<Vec<u8>, FileFault<'a>>
    ensures bytes { IfOk result (λ v. IsKnownAs (P.held paths.old path.now) (Ok v.items)) }
    ensures same { P.held paths.new ≡ P.held paths.old }
    ensures quiet { P.failed paths.new ≡ P.failed paths.old }
    ensures fault { IfErr result (IsUnreadAt (P.held paths.old path.now) path.now) }
{
    match paths.read(path) {
        Ok(bytes) => Ok(bytes),
        Err(PathFault::Failed) => Err(FileFault::Unreadable(path)),
        Err(PathFault::TooLarge) => Err(FileFault::TooLarge(path)),
        Err(PathFault::NoMemory(refused)) => Err(FileFault::NoMemory(refused)),
    }
}

/// The bytes as text.
pub fn text_of<'a>(bytes: Vec<u8>, path: &'a str) -> Result<String, FileFault<'a>>
    ensures text { IfOk result (λ s. string_bytes s ≡ bytes.items) }
    ensures utf8 { IfOk result (λ _. IsUtf8 bytes.items) }
    ensures fault { IfErr result (IsNoTextAt path.now bytes.items) }
{
    match String::from_utf8(bytes) {
        Ok(text) => Ok(text),
        Err(_) => Err(FileFault::NotText(path)),
    }
}

/// Two files as text. Both are read before the first is taken as text. If neither is read, or if
/// neither is text, the first is reported.
pub fn texts_at<'a, P: Paths>(
    paths: &mut P,
    manifest: &'a str,
    script: &'a str,
) -> Result<(String, String), FileFault<'a>>
    ensures manifest { IfOk result (λ t. IsKnownAs (P.held paths.old manifest.now)
        (Ok (string_bytes t.0))) }
    ensures script { IfOk result (λ t. IsKnownAs (P.held paths.old script.now)
        (Ok (string_bytes t.1))) }
    ensures same { P.held paths.new ≡ P.held paths.old }
    ensures quiet { P.failed paths.new ≡ P.failed paths.old }
    ensures fault { IfErr result (IsFileFault (P.held paths.old) (manifest.now ∷ script.now ∷ [])) }
{
    let first = bytes_at(paths, manifest)?;
    let second = bytes_at(paths, script)?;
    let first = text_of(first, manifest)?;
    let second = text_of(second, script)?;
    Ok((first, second))
}

/// The three files of a replay as text. All are read before the first is taken as text.
pub fn three_texts_at<'a, P: Paths>(
    paths: &mut P,
    files: &ReplayFiles<'a>,
) -> Result<(String, String, String), FileFault<'a>>
    ensures manifest { IfOk result (λ t. IsKnownAs (P.held paths.old files.now.manifest.now)
        (Ok (string_bytes t.0))) }
    ensures script { IfOk result (λ t. IsKnownAs (P.held paths.old files.now.script.now)
        (Ok (string_bytes t.1))) }
    ensures schedule { IfOk result (λ t. IsKnownAs (P.held paths.old files.now.schedule.now)
        (Ok (string_bytes t.2))) }
    ensures same { P.held paths.new ≡ P.held paths.old }
    ensures quiet { P.failed paths.new ≡ P.failed paths.old }
    ensures fault { IfErr result (IsFileFault (P.held paths.old)
        (files.now.manifest.now ∷ files.now.script.now ∷ files.now.schedule.now ∷ [])) }
{
    let manifest_bytes = bytes_at(paths, files.manifest)?;
    let script_bytes = bytes_at(paths, files.script)?;
    let schedule_bytes = bytes_at(paths, files.schedule)?;
    let manifest_text = text_of(manifest_bytes, files.manifest)?;
    let script_text = text_of(script_bytes, files.script)?;
    let schedule_text = text_of(schedule_bytes, files.schedule)?;
    Ok((manifest_text, script_text, schedule_text))
}
