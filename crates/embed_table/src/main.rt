//! Opens a shared table with one observer, commits a change, runs the observer on each cell that
//! this marked, and prints what a snapshot and the report show of the cells: all by calls of the
//! crates, in an event loop of its own.
#![tactic(auto)]

ghost use Rattle.std.specs.Prelude.{◌≤◌, length, IfOk};
ghost use Rattle.pb_base.specs.declared.limits.TheConstants.{MAX_OBSERVERS};

use anyhow::{Context, Result, bail};
use pb_base::{Batch, Cell, Column, Content, MAX_ENTRIES, MAX_OBSERVERS, ObserverNo, Out, Row, Ts};
use pb_core::{Answer, Observer, OpenRefused, Seat, Shared, Step, Work};
use pb_memtablet::ListTablet;
use pb_notify::{JobEnd, Need, ObserverJob};
use pb_registry::Registry;
use pb_script::report;
use pb_store::Table;
use pb_txn::{ChangeJob, Outcome};
use std::alloc::Global;
use std::sync::Arc;

// One observer, whose program is that of examples/copy.s: it copies what column 0 holds to column 1.
const MANIFEST: &str = concat!(
    r#"{"profile":1,"observers":[{"name":"copy","column":0,"helpers":[2],"code":""#,
    "bf1600000000000079623000000000007b2ae0ff0000000079623800000000007b2ae8ff000000007962400000000000",
    "7b2af0ff0000000079624800000000007b2af8ff000000007961000000000000b702000001000000bfa3000000000000",
    "07030000e0ffffff8500000002000000b7000000000000009500000000000000",
    r#""}]}"#
);

// More steps than a job here takes. A loop of so many turns is known to end.
const MOST_TURNS: u32 = 1_000;

// The observers of the manifest. That they are few enough for a table is promised by `Registry::from_json`.
fn observers(alloc: Global) -> Result<Vec<Observer>>
    ensures { IfOk result (λ v. length v.items ≤ MAX_OBSERVERS) }
{
    match Registry::from_json(alloc, MANIFEST)?.into_observers(alloc) {
        Ok(observers) => Ok(observers),
        Err(_registry) => bail!("no memory"),
    }
}

// An empty table of two tablets: one has the rows below 1,000, the other all the rest.
fn table(alloc: Global) -> Result<Table<ListTablet>> {
    let mut tablets = Vec::new(alloc);
    tablets.push((Row(0), ListTablet::new(alloc)))?;
    tablets.push((Row(1_000), ListTablet::new(alloc)))?;
    match Table::new(tablets) {
        Ok(table) => Ok(table),
        Err((_tablets, refusal)) => Err(refusal.into()),
    }
}

// Puts 42 into cell 7 0, and 43 into cell 1007 0.
fn change(alloc: Global) -> Result<Batch> {
    let column = Column::new(0).context("no column")?;
    let mut writes = Vec::new(alloc);
    for (row, first) in [(7, 42), (1_007, 43)] {
        let mut value = [0; 32];
        value[0] = first;
        writes.push((Row(row), column, Content::Value(value)))?;
    }
    Batch::new(writes).ok().context("no batch")
}

// Makes a change: calls the table for each step that the job gives.
fn commit(
    alloc: Global,
    shared: &mut Shared<ListTablet>,
    seat: &mut Seat,
    batch: Batch,
) -> Result<Outcome> {
    let mut job = ChangeJob::new(alloc, batch).ok().context("no memory")?;
    for _turn in 0..MOST_TURNS {
        let Some(step) = job.next() else { break };
        let answer = shared.call(seat, step)?;
        // `took` asks for an answer that the step can have, as those of `Shared::call` are.
        job.took(answer);
    }
    job.outcome().context("too many steps")
}

// Does what a job needs up to its end, its machine here and all else by calls of the table.
fn follow(
    alloc: Global,
    shared: &mut Shared<ListTablet>,
    seat: &mut Seat,
    job: &mut ObserverJob,
) -> Result<JobEnd> {
    for _turn in 0..MOST_TURNS {
        match job.needs() {
            Need::Local => job.follow(alloc)?,
            Need::Call => {
                // A job that needs a call has a next step.
                let Some(step) = job.next() else {
                    unreachable!()
                };
                let answer = shared.call(seat, step)?;
                job.took(answer);
            }
            Need::Over(end) => return Ok(end),
        }
    }
    bail!("too many steps")
}

// Runs an observer on a cell.
fn run(
    alloc: Global,
    shared: &mut Shared<ListTablet>,
    seat: &mut Seat,
    job: ObserverJob,
) -> Result<JobEnd> {
    let mut job = job;
    follow(alloc, shared, seat, &mut job)
}

// Runs each observer of a marked cell's column on it.
fn run_all(
    rt: &HostRuntime,
    shared: &mut Shared<ListTablet>,
    seat: &mut Seat,
    cell: Cell,
) -> Result<()> {
    for place in 0..MAX_OBSERVERS {
        let Some(observer) = shared.observers().get(place) else {
            break;
        };
        if observer.column == cell.column() {
            println!(rt; "{} runs on row {}", observer.name, cell.row().0)?;
            let number = ObserverNo::new(place as u8).context("no number")?;
            let program = Arc::try_clone(&observer.program)?;
            let job = ObserverJob::new(number, program, cell.row(), cell.column());
            let end = run(rt.alloc(), shared, seat, job)?;
            println!(rt; "it ends as {end:?}")?;
        }
    }
    Ok(())
}

// What a cell has in a snapshot of now.
fn read(shared: &mut Shared<ListTablet>, seat: &mut Seat, cell: Cell) -> Result<Answer> {
    // `Begin` has no other answer than a start.
    let Answer::At(start) = shared.call(seat, &Step::Begin(Work::Script))? else {
        unreachable!()
    };
    Ok(shared.call(seat, &Step::Read(start, cell))?)
}

// All that is done with the table while it is open.
fn work(rt: &HostRuntime, shared: &mut Shared<ListTablet>, seat: &mut Seat) -> Result<()> {
    let alloc = rt.alloc();
    let batch = change(alloc)?;
    let Outcome::Committed(commit) = commit(alloc, shared, seat, batch)? else {
        bail!("the change is in conflict");
    };
    println!(rt; "the change is committed at {}", commit.0)?;

    // A run that is in conflict leaves the mark, so that it comes again.
    for _turn in 0..MOST_TURNS {
        let Answer::Marked(cell) = shared.call(seat, &Step::NextMark(None))? else {
            break;
        };
        run_all(rt, shared, seat, cell)?;
    }

    let copied = Cell::Data(Row(7), Column::new(1).context("no column")?);
    if let Answer::Found {
        start,
        commit,
        content: Content::Value(value),
    } = read(shared, seat, copied)?
    {
        println!(rt;
            "cell 7 1 holds {}, written from {} to {}",
            value[0], start.0, commit.0
        )?;
    }
    report(alloc, &mut Out::new(rt.stdout()), shared)?;
    Ok(())
}

fn main(rt: HostRuntime) -> Result<()> {
    let observers = observers(rt.alloc())?;
    let table = table(rt.alloc())?;
    match Shared::open(rt.alloc(), table, observers, 1, Ts(0), MAX_ENTRIES) {
        Ok((mut shared, mut seats)) => {
            // There are as many seats as were asked for.
            let done = work(&rt, &mut shared, &mut seats[0]);
            shared.close();
            done
        }
        Err(
            OpenRefused {
                table,
                observers: _,
                refusal,
            },
        ) => {
            table.close();
            bail!("the table is {refusal}")
        }
    }
}
