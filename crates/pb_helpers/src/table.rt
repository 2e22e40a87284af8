//! Which helpers a program may call.
ghost use Rattle.std.specs.Prelude.{◌≡◌, option_map, is_some};
ghost use Rattle.pb_isa.specs.Helpers.{no_helpers, helper_of, declared_helper};
ghost use Rattle.pb_helpers.specs.Table.{all_helpers, with_helper};

use std::marker::Model;

/// The helpers that a program may call: a set of 1 (read), 2 (write), 3 (delete) and 4 (start). A set, since a manifest
/// names each for itself, and a program that is declared neither write nor delete can't change any cell.
#[derive(Clone, Copy, PartialEq, Eq)]
pub struct HelperTable {
    reads: bool,
    writes: bool,
    deletes: bool,
    starts: bool,
}

impl Model for HelperTable {
    ghost use Rattle.pb_isa.specs.Helpers.{HelperSet, helper_code};

    ghost Value = { HelperSet };

    ghost coded = { helper_code };

    ghost view = { λ t. record { read = t.reads; write = t.writes; delete = t.deletes; start = t.starts } };

    ghost inverse = { λ h. record { reads = h.read; writes = h.write; deletes = h.delete; starts = h.start } };
}

impl HelperTable {
    /// No helper.
    pub fn none() -> HelperTable
        ensures { result ≡ no_helpers }
    {
        HelperTable {
            reads: false,
            writes: false,
            deletes: false,
            starts: false,
        }
    }

    /// All four.
    pub fn all() -> HelperTable
        ensures { result ≡ all_helpers }
    {
        HelperTable {
            reads: true,
            writes: true,
            deletes: true,
            starts: true,
        }
    }

    /// The table with the helper of this number beside its own; none where no helper has that number.
    pub fn with(self, number: i32) -> Option<HelperTable>
        ensures { result ≡ option_map (with_helper self) (helper_of number) }
    {
        // A number that no helper has gives none, and a helper that is there already changes nothing.
        let mut table = self;
        match number {
            1 => table.reads = true,
            2 => table.writes = true,
            3 => table.deletes = true,
            4 => table.starts = true,
            _ => return None,
        }
        Some(table)
    }

    /// Whether the table has the helper of this number.
    pub fn declares(self, number: i32) -> bool
        ensures { result ≡ is_some (declared_helper self number) }
    {
        match number {
            1 => self.reads,
            2 => self.writes,
            3 => self.deletes,
            4 => self.starts,
            _ => false,
        }
    }
}
