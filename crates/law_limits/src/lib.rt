//! That a kept table stays within its limit of entries: laws on changes that are kept, on which no other law is built.
//!
//! By `pb_keeper` as many runs follow a change at most as the limit has room for. These laws say that this is enough: a run leaves
//! no more entries than it is counted with, so that the table has no more than its limit, or than it had, but for the own writes of
//! the changes of one record, 32 entries each.
#![tactic(auto)]

ghost use Rattle.law_limits.specs.Limits.{CatchingUpStaysWithin, ChangesStayWithin, ServedTablesStayWithin};

/// A change that is kept, with the runs that follow it, leaves no more entries than the limit, or than the table had, and 32 more.
pub fn changes_stay_within()
    ensures { ChangesStayWithin }
{}

/// Observers that a table gets leave 34 entries at most for each run that they may make to catch up.
pub fn catching_up_stays_within()
    ensures { CatchingUpStaysWithin }
{}

/// While lines are answered a table never has more entries than its limit, or than it began with, and 320,000 more.
pub fn served_tables_stay_within()
    ensures { ServedTablesStayWithin }
{}
