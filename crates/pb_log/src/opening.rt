//! How a log is opened.
ghost use Rattle.std.specs.Prelude.{◌≡◌, ◌⊎◌, ◌∷◌, [], ◌<◌, ◌^◌, ℕ, List, length, map, IfOk, OnOk, IfErr, IsTrue};
ghost use Rattle.sqlite_disk.specs.Disk.{Only};
ghost use Rattle.pb_log.specs.Records.{IsLog, IsAtRest, IsReadable, IsShutOrNew};
ghost use Rattle.pb_log.specs.Header.{header, HasRecords};
ghost use Rattle.pb_log.specs.Causes.{IsNoLog, IsOfTheFile, WhyNotOpened};

use crate::fault::LogFault;
use crate::header::{compare_header, header_of};
use crate::log::Log;
use crate::recovery::recover;
use sqlite_disk::Disk;
use std::alloc::Global;

// The most bytes beside the header that a crash leaves in the first put: two gates, a length and a sum.
const MOST_BESIDE: usize = 14;

impl<D: Disk> Log<D> {
    /// Opens the log that the disk holds after a start or a crash, and returns its records in their order, without the header.
    /// `manifest` has less than 2^31 bytes. A new file, of at most one byte, gets the header, and so does one that a crash left
    /// before it had one. At `Err` the log isn't opened;
    /// only at `Disk` and `NoMemory` may the file have changed, and it has the same records then.
    pub fn open(&mut self, alloc: Global, manifest: &[u8]) -> Result<Vec<Vec<u8>>, LogFault>
        requires usable { IsTrue (D.is_usable self.old.disk) }
        // After a restart, what is read is what is on the disk.
        requires restarted { Only (D.seen self.old.disk) (D.may_leave self.old.disk) }
        requires short { length manifest.now < 2 ^ 31 }
        ensures records { IfOk result (λ rs. IsTrue (D.is_clean self.new.disk)
            → HasRecords manifest.now (map (λ v. v.items) rs.items) (D.seen self.old.disk)) }
        // What doesn't end as puts leave it isn't opened.
        ensures readable { OnOk result (IsTrue (D.is_clean self.new.disk)
            → (all : List (List ℕ)) → IsLog (D.seen self.old.disk) all
            → IsReadable (D.seen self.old.disk) all) }
        // What can't be a log before it has its header is left as it is.
        ensures other { OnOk result (IsTrue (D.is_clean self.new.disk)
            → IsNoLog manifest.now (D.seen self.old.disk) → ⊥) }
        ensures at_rest { IfOk result (λ rs. IsTrue (D.is_clean self.new.disk)
            → IsAtRest (D.seen self.new.disk) (D.may_leave self.new.disk) self.new.end
            (header manifest.now ∷ map (λ v. v.items) rs.items)) }
        ensures usable { OnOk result (IsTrue (D.is_usable self.new.disk)) }
        ensures clean { IsTrue (D.is_clean self.new.disk) → IsTrue (D.is_clean self.old.disk) }
        // On every path a crash leaves the same records, or the header where there were none.
        ensures crash { IsTrue (D.is_clean self.new.disk)
            → (rs : List (List ℕ)) → IsLog (D.seen self.old.disk) rs
            → (c : List ℕ) → D.may_leave self.new.disk c
            → IsLog c rs ⊎ ((rs ≡ []) × IsLog c (header manifest.now ∷ [])) }
        // Where each byte of a torn write is old or new, they end shut, or the file is new.
        ensures shut { ((d : _) → IsTrue (D.is_mixing d)) → IsTrue (D.is_clean self.new.disk)
            → (rs : List (List ℕ)) → IsReadable (D.seen self.old.disk) rs
            → (c : List ℕ) → D.may_leave self.new.disk c → IsShutOrNew c }
        ensures cause { IfErr result (λ e. IsTrue (D.is_clean self.new.disk)
            → WhyNotOpened manifest.now (D.faults self.old.disk) (D.faults self.new.disk)
            (D.seen self.old.disk) e) }
        ensures kept { IfErr result (λ e. IsOfTheFile e
            → D.seen self.new.disk ≡ D.seen self.old.disk) }
        // A log that has its header is read alone.
        ensures read_alone { OnOk result (IsTrue (D.is_clean self.new.disk)
            → (first : List ℕ) (others : List (List ℕ))
            → IsLog (D.seen self.old.disk) (first ∷ others)
            → D.seen self.new.disk ≡ D.seen self.old.disk) }
        ensures faultless { OnOk result (D.faults self.new.disk ≡ D.faults self.old.disk) }
    {
        let (mut records, end, len) = recover(alloc, &mut self.disk)?;
        self.end = end;
        if records.is_empty() {
            let header = header_of(alloc, manifest)?;
            if len > MOST_BESIDE + header.len() {
                return Err(LogFault::NoHeader);
            }
            self.put(alloc, &header)?;
            return Ok(records);
        }
        let first = records.remove(0);
        compare_header(&first, manifest)?;
        Ok(records)
    }
}
