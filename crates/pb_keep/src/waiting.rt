//! Lines that were read, and are answered after the next record.
use pb_base::{Batch, MAX_CHANGES, NoMemory, Ts};
use std::alloc::Global;

/// The most bytes of a record: what a script may have.
pub const MAX_RECORD: usize = 16_777_216;

/// A line that waits for its answer.
#[derive(Drop)]
pub enum Waits {
    /// A change, which is answered when it is made.
    Change(Batch),
    /// A change whose condition wasn't met: the cell's newest write has this commit, 0 where it has none.
    Unmade(Ts),
    /// A line that was refused by this code. It waits too, so that answers stand in the order of lines.
    Refused(u8),
    Begun,
    Ended,
}

/// The lines that wait, in order.
#[derive(Drop)]
pub struct Waiting {
    /// Their answers to come.
    pub items: Vec<Waits>,
    /// How many of them are changes.
    pub changes: usize,
    /// The lines of their changes, each with its newline: the next record of the log.
    pub script: String,
    /// Whether they stand after a `begin`, and so wait for its `end`.
    pub is_group: bool,
}

impl Waiting {
    ghost use Rattle.std.specs.Prelude.{◌≡◌, ◌+◌, ◌∷◌, ◌++◌, [], OnOk, true, length, string_bytes};
    ghost use Rattle.pb_keep.specs.Waits.{changes_in, has_line_room, group_after, group_of, FitsIn, IsNoLine, IsOpenGroup, IsScriptLine, IsWaiting};
    ghost use Rattle.pb_keep.specs.declared.waiting.Waits.TheVariants.{Change};

    /// No lines.
    pub fn new(alloc: Global) -> Waiting
        ensures { IsNoLine result }
    {
        Waiting {
            items: Vec::new(alloc),
            changes: 0,
            script: String::new(alloc),
            is_group: false,
        }
    }

    /// Whether the record has room for one more line of so many bytes.
    pub fn has_room(&self, bytes: usize) -> bool
        ensures { result ≡ has_line_room self.now.changes
            (length (string_bytes self.now.script)) bytes }
    {
        self.changes < MAX_CHANGES && bytes < MAX_RECORD && self.script.len() < MAX_RECORD - bytes
    }

    // The answer to a line that changes nothing waits, and the next line stands in a group or not.
    fn push_other(&mut self, item: Waits, is_group: bool) -> Result<(), NoMemory>
        requires waiting { IsWaiting self.old }
        requires other { changes_in (item ∷ []) ≡ [] }
        requires open_group { is_group ≡ true → IsOpenGroup (self.old.items.items ++ item ∷ []) }
        ensures waiting { OnOk result (IsWaiting self.new) }
        ensures items { OnOk result (self.new.items.items ≡ self.old.items.items ++ item ∷ []) }
        ensures script { self.new.script ≡ self.old.script }
        ensures changes { self.new.changes ≡ self.old.changes }
        ensures group { OnOk result (self.new.is_group ≡ is_group) }
    {
        self.items.push(item)?;
        self.is_group = is_group;
        Ok(())
    }

    // A change waits, by its line of a script.
    fn push_change(&mut self, line: &str, batch: Batch) -> Result<(), NoMemory>
        requires waiting { IsWaiting self.old }
        requires room { has_line_room self.old.changes (length (string_bytes self.old.script))
            (length line.now) ≡ true }
        requires line { IsScriptLine line.now batch }
        ensures waiting { OnOk result (IsWaiting self.new) }
        ensures items { OnOk result
            (self.new.items.items ≡ self.old.items.items ++ Change batch ∷ []) }
        ensures script { OnOk result (length (string_bytes self.new.script)
            ≡ length (string_bytes self.old.script) + (length line.now + 1)) }
        ensures changes { OnOk result (self.new.changes ≡ self.old.changes + 1) }
        ensures group { self.new.is_group ≡ self.old.is_group }
    {
        self.items.push(Waits::Change(batch))?;
        self.script.push_str(line)?;
        self.script.push_str("\n")?;
        self.changes += 1;
        Ok(())
    }

    /// A line of these operations waits. Refused for memory, the waiting lines are of no use.
    pub fn push(&mut self, operations: &str, item: Waits) -> Result<(), NoMemory>
        requires waiting { IsWaiting self.old }
        requires fits { FitsIn self.old operations.now item }
        ensures waiting { OnOk result (IsWaiting self.new) }
        ensures items { OnOk result (self.new.items.items ≡ self.old.items.items ++ item ∷ []) }
        ensures group { OnOk result (group_of self.new
            ≡ group_after (group_of self.old) (length operations.now) item) }
    {
        let is_group = self.is_group;
        match item {
            Waits::Change(batch) => self.push_change(operations, batch),
            Waits::Unmade(newest) => self.push_other(Waits::Unmade(newest), is_group),
            Waits::Refused(code) => self.push_other(Waits::Refused(code), is_group),
            Waits::Begun => self.push_other(Waits::Begun, true),
            Waits::Ended => self.push_other(Waits::Ended, false),
        }
    }
}
