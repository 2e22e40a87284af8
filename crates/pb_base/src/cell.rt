//! Cells, and the order in which tablets keep them and passes go over them.
ghost use Rattle.std.specs.Prelude.{◌≡◌};

use crate::names::{Column, ObserverNo, Row};
use std::cmp::Ordering;

/// A data cell, or the cell in which an observer acknowledges the changes of a data cell (OSDI 2010, section 2.4).
///
/// Cells are ordered by row, then column, then data before acknowledgments, then observer. The row comes first, so that
/// the cells of a range of rows stand together and one tablet can have them.
#[derive(Clone, Copy, Debug)]
pub enum Cell {
    Data(Row, Column),
    Ack(ObserverNo, Row, Column),
}

impl Cell {
    ghost use Rattle.pb_base.specs.Cell.{row_of, column_of, rank_of, in_row_cmp, cell_cmp};

    /// Its row.
    pub fn row(&self) -> Row
        ensures { result ≡ row_of self.now }
    {
        match *self {
            Cell::Data(row, _) => row,
            Cell::Ack(_, row, _) => row,
        }
    }

    /// Its column.
    pub fn column(&self) -> Column
        ensures { result ≡ column_of self.now }
    {
        match *self {
            Cell::Data(_, column) => column,
            Cell::Ack(_, _, column) => column,
        }
    }

    // Where it stands among the cells of its row and column: data at 0, and so before each acknowledgment.
    fn rank(&self) -> u8
        ensures { result ≡ rank_of self.now }
    {
        match *self {
            Cell::Data(..) => 0,
            Cell::Ack(observer, _, _) => observer.number() + 1,
        }
    }

    // Of two cells of one row: by column, and then by rank.
    fn compare_in_row(&self, other: &Cell) -> Ordering
        ensures { result ≡ in_row_cmp self.now other.now }
    {
        match self.column().number().cmp(&other.column().number()) {
            Ordering::Equal => self.rank().cmp(&other.rank()),
            unequal => unequal,
        }
    }

    // By row, and then within it.
    fn compare(&self, other: &Cell) -> Ordering
        ensures { result ≡ cell_cmp self.now other.now }
    {
        match self.row().0.cmp(&other.row().0) {
            Ordering::Equal => self.compare_in_row(other),
            unequal => unequal,
        }
    }
}

// Equal is what compares alike, so that a sorted list and a test of equality never disagree about a cell.
impl PartialEq for Cell {
    ghost use Rattle.std.specs.Cmp.{partial_equiv_from_equiv, eq_by_cmp_equiv};
    ghost use Rattle.std.specs.Ordering.{eq_by_cmp};
    ghost use Rattle.pb_base.specs.Cell.{cell_cmp, cell_cmp_total};

    ghost eq = { eq_by_cmp cell_cmp };

    ghost laws = { partial_equiv_from_equiv (eq_by_cmp_equiv cell_cmp_total) };

    fn eq(&self, other: &Cell) -> bool {
        self.compare(other).is_eq()
    }
}

impl Eq for Cell {
    ghost use Rattle.std.specs.Cmp.{eq_by_cmp_equiv};
    ghost use Rattle.pb_base.specs.Cell.{cell_cmp_total};

    ghost laws = { eq_by_cmp_equiv cell_cmp_total };
}

impl PartialOrd for Cell {
    ghost use Rattle.std.specs.Cmp.{partial_order_from_total};
    ghost use Rattle.std.specs.Ordering.{as_partial_cmp};
    ghost use Rattle.pb_base.specs.Cell.{cell_cmp, cell_cmp_total};

    ghost partial_cmp = { as_partial_cmp cell_cmp };

    ghost laws = { partial_order_from_total cell_cmp_total };

    fn partial_cmp(&self, other: &Cell) -> Option<Ordering> {
        Some(self.compare(other))
    }
}

impl Ord for Cell {
    ghost use Rattle.std.specs.Prelude.{refl};
    ghost use Rattle.pb_base.specs.Cell.{cell_cmp, cell_cmp_total};

    ghost cmp = { cell_cmp };

    ghost total = { cell_cmp_total };

    ghost matches_partial_cmp = { λ x y. refl };

    ghost matches_eq = { λ x y. refl };

    fn cmp(&self, other: &Cell) -> Ordering {
        self.compare(other)
    }
}
