//! The manifest that a log has.
ghost use Rattle.std.specs.Prelude.{◌≡◌, ℕ, List, option_map, IfOk, OnOk, IfErr, IsTrue};
ghost use Rattle.pb_log.specs.Records.{IsLog, IsReadable};
ghost use Rattle.pb_log.specs.Header.{HasManifest};
ghost use Rattle.pb_log.specs.Causes.{WhyNoManifest};

use crate::fault::LogFault;
use crate::header::manifest_of;
use crate::log::Log;
use crate::recovery::find_records;
use sqlite_disk::Disk;
use std::alloc::Global;

impl<D: Disk> Log<D> {
    /// Reads the manifest that the log on the disk has, before the log is opened: none where the file has no record. The file is
    /// left as it is, and a log that is damaged is reported as by `open`.
    pub fn read_manifest(&mut self, alloc: Global) -> Result<Option<Vec<u8>>, LogFault>
        requires usable { IsTrue (D.is_usable self.old.disk) }
        ensures manifest { IfOk result (λ m. IsTrue (D.is_clean self.new.disk)
            → HasManifest (option_map (λ v. v.items) m) (D.seen self.old.disk)) }
        ensures readable { OnOk result (IsTrue (D.is_clean self.new.disk)
            → (all : List (List ℕ)) → IsLog (D.seen self.old.disk) all
            → IsReadable (D.seen self.old.disk) all) }
        ensures seen { D.seen self.new.disk ≡ D.seen self.old.disk }
        ensures usable { IsTrue (D.is_usable self.new.disk) }
        ensures clean { IsTrue (D.is_clean self.new.disk) → IsTrue (D.is_clean self.old.disk) }
        ensures crash { (c : List ℕ)
            → D.may_leave self.new.disk c → D.may_leave self.old.disk c }
        ensures cause { IfErr result (λ e. IsTrue (D.is_clean self.new.disk)
            → WhyNoManifest (D.faults self.old.disk) (D.faults self.new.disk)
            (D.seen self.old.disk) e) }
        ensures faultless { OnOk result (D.faults self.new.disk ≡ D.faults self.old.disk) }
    {
        let (records, _end, _len) = find_records(alloc, &mut self.disk)?;
        match records.first() {
            Some(first) => Ok(Some(manifest_of(first)?.to_vec(alloc)?)),
            None => Ok(None),
        }
    }
}
