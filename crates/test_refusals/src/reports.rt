//! Reports.
ghost use Rattle.std.specs.Prelude.{◌≡◌, false};

use crate::page::Page;
use pb_base::{Sink, Ts};
use pb_core::Shared;
use pb_script::report;
use pb_steps::{Step, Work};
use pb_store::Tablet;
use std::alloc::Global;
use test_fixtures::Unready;
use test_growths::observers::open_watched;
use test_growths::refusals::Refusals;
use test_growths::steps::{batch, cell_of, declares, three_cells};
use test_growths::twins::{call_all, close};

// A change of three cells, of which the last is locked still, and one that has locked its one cell.
const REPORT: &[u8] =
    b"cell 7 0 commit 2 deleted\ncell 7 2 commit 2 deleted\ncell 1007 1 commit 2 deleted\nruns first 0\nruns second 0\nruns third 0\nmarks 2 locks 2\n";

/// Whether a table's report is written, also where that is refused once: nothing is written then.
pub fn is_reported<T: Tablet>(
    alloc: Global,
    shared: &Shared<T>,
    page: &mut Page,
    refusals: &mut Refusals,
) -> bool
    requires { page.old.failed ≡ false }
{
    if report(alloc, page, shared).is_ok() {
        return true;
    }
    refusals.note("report");
    !page.has_failed() && page.holds(b"") && report(alloc, page, shared).is_ok()
}

// The steps of both changes.
fn steps(alloc: Global) -> Result<Vec<Step>, Unready> {
    let (first, second, third) = (cell_of(0)?, cell_of(1)?, cell_of(2)?);
    let writes_three = declares(alloc, Ts(1), three_cells(alloc)?)?;
    let writes_one = declares(alloc, Ts(3), batch(alloc)?)?;
    Ok(vec![in alloc;
        Step::Begin(Work::Script),
        writes_three,
        Step::Prewrite(Ts(1), first),
        Step::Prewrite(Ts(1), second),
        Step::Prewrite(Ts(1), third),
        Step::Stamp(Ts(1)),
        Step::CommitPrimary(Ts(1)),
        Step::CommitSecondary(Ts(1), second),
        Step::Begin(Work::Script),
        writes_one,
        Step::Prewrite(Ts(3), first),
    ]?)
}

/// `report`.
pub fn tables_are_reported(alloc: Global, refusals: &mut Refusals) -> Result<bool, Unready> {
    let steps = steps(alloc)?;
    let mut twins = open_watched(alloc)?;
    let mut page = Page::new();
    let held = call_all(&mut twins, &steps, refusals)
        && is_reported(alloc, &twins.shared, &mut page, refusals)
        && page.holds(REPORT);
    close(twins);
    Ok(held)
}
