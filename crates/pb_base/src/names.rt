//! Rows, columns, observers and timestamps.
ghost use Rattle.std.specs.Prelude.{◌≡◌, ◌<◌, ◌≤◌, IfSome, IfNone};

use crate::limits::{COLUMNS, MAX_OBSERVERS};
use std::marker::Model;

/// The name of a row.
#[derive(Clone, Copy, Debug, PartialEq, Eq, PartialOrd, Ord)]
pub struct Row(pub u64);

/// A timestamp of the table's clock (OSDI 2010, section 2.3). The first that is given out is above the clock as
/// opened; 0 stands where there is none.
#[derive(Clone, Copy, Debug, PartialEq, Eq, PartialOrd, Ord)]
pub struct Ts(pub u64);

/// A column, 0 to 15. The number is private, so that each column has been through [`Column::new`].
#[derive(Clone, Copy, Debug, PartialEq, Eq, PartialOrd, Ord)]
pub struct Column {
    number: u8,
}

impl Model for Column {
    ghost use Rattle.std.specs.Prelude.{ℕ, ◌<◌};

    ghost Value = { ℕ };

    ghost view = { λ c. c.number };

    ghost use Rattle.pb_base.specs.declared.limits.TheConstants.{COLUMNS};

    ghost invariant = { λ c. c.number < COLUMNS };

    ghost inverse = { λ n. record { number = n } };
}

impl Column {
    /// The column of this number; none from 16 on.
    pub fn new(number: u8) -> Option<Column>
        ensures some { IfSome result (λ c. c ≡ number) }
        ensures none { IfNone result (COLUMNS ≤ number) }
    {
        if number < COLUMNS {
            Some(Column { number })
        } else {
            None
        }
    }

    /// Its number.
    pub fn number(self) -> u8
        ensures value { result ≡ self }
        ensures in_range { result < COLUMNS }
    {
        self.number
    }
}

/// The number of an observer, its place in the manifest, 0 to 31. It too is private, so that each is in range.
#[derive(Clone, Copy, Debug, PartialEq, Eq, PartialOrd, Ord)]
pub struct ObserverNo {
    number: u8,
}

impl Model for ObserverNo {
    ghost use Rattle.std.specs.Prelude.{ℕ, ◌<◌};

    ghost Value = { ℕ };

    ghost view = { λ o. o.number };

    ghost use Rattle.pb_base.specs.declared.limits.TheConstants.{MAX_OBSERVERS};

    ghost invariant = { λ o. o.number < MAX_OBSERVERS };

    ghost inverse = { λ n. record { number = n } };
}

impl ObserverNo {
    /// The observer of this number; none from 32 on.
    pub fn new(number: u8) -> Option<ObserverNo>
        ensures some { IfSome result (λ o. o ≡ number) }
        ensures none { IfNone result (MAX_OBSERVERS ≤ number) }
    {
        if usize::from(number) < MAX_OBSERVERS {
            Some(ObserverNo { number })
        } else {
            None
        }
    }

    /// Its number.
    pub fn number(self) -> u8
        ensures value { result ≡ self }
        ensures in_range { result < MAX_OBSERVERS }
    {
        self.number
    }
}
