//! Changes made one after the other, and the answers to lines that waited.
ghost use Rattle.std.specs.Prelude.{◌≡◌, ◌≤◌, ◌<◌, ◌+◌, ◌*◌, ◌++◌, ◌∷◌, [], ℕ, List, None, true, IfOk, OnOk, IfErr, OnErr, length, string_bytes, codes, decimal};
ghost use Rattle.std.specs.FinMap as map;
ghost use Rattle.pb_base.specs.Batch.{Writes};
ghost use Rattle.pb_store.specs.Contents.{IsNextMark};
ghost use Rattle.pb_keeper.specs.Counts.{commit_count};
ghost use Rattle.pb_keeper.specs.Keeps.{Keeps};
ghost use Rattle.pb_keeper.specs.Leads.{SaidLeads};
ghost use Rattle.pb_keeper.specs.Made.{IsMade, comes_to_rest, runs_within};
ghost use Rattle.pb_keeper.specs.Stats.{kept_table, Counted, KeptTable};
ghost use Rattle.pb_keeper.specs.Stops.{IsStop, WantsMemory};
ghost use Rattle.pb_steps.specs.Readings.{last_timestamp};
ghost use Rattle.pb_keep.specs.Again.{IsBrokenOff};
ghost use Rattle.pb_keep.specs.Left.{most_timestamps, AreInTime, IsOfMaking, IsRefusedMemory};
ghost use Rattle.pb_keep.specs.Waits.{changes_in, made_line, other_line, AreAnswers, AreSomeAnswers, IsAnswer};

use crate::fault::KeepFault;
use crate::waiting::Waits;
use pb_base::{Batch, NoMemory, Ts};
use pb_keeper::{Made, ObserverStats, Stopped, make};
use pb_state::State;
use pb_store::Tablet;
use std::alloc::Global;

// Adds the answer of a change that was made: `made C runs N`, or `made C unquiet` where its observers didn't come to rest.
fn push_made(alloc: Global, text: &mut String, made: &Made) -> Result<(), NoMemory>
    ensures line { OnOk result (string_bytes text.new
        ≡ string_bytes text.old ++ made_line made.now) }
    ensures same { OnErr result (string_bytes text.new ≡ string_bytes text.old) }
{
    let line = if made.drained.rests {
        format!(in alloc; "made {} runs {}\n", made.commit.0, made.drained.runs)?
    } else {
        format!(in alloc; "made {} unquiet\n", made.commit.0)?
    };
    text.push_str(line.as_str())?;
    Ok(())
}

fn push_refused(alloc: Global, text: &mut String, code: u8) -> Result<(), NoMemory>
    ensures line { OnOk result (string_bytes text.new
        ≡ string_bytes text.old ++ (codes "refused " ++ (decimal code ++ codes "\n"))) }
    ensures same { OnErr result (string_bytes text.new ≡ string_bytes text.old) }
{
    let line = format!(in alloc; "refused {code}\n")?;
    text.push_str(line.as_str())?;
    Ok(())
}

fn push_unmade(alloc: Global, text: &mut String, newest: Ts) -> Result<(), NoMemory>
    ensures line { OnOk result (string_bytes text.new
        ≡ string_bytes text.old ++ (codes "unmade commit " ++ (decimal newest.0 ++ codes "\n"))) }
    ensures same { OnErr result (string_bytes text.new ≡ string_bytes text.old) }
{
    let line = format!(in alloc; "unmade commit {}\n", newest.0)?;
    text.push_str(line.as_str())?;
    Ok(())
}

// Adds the answer to a line that changes nothing.
fn push_other(alloc: Global, text: &mut String, item: &Waits) -> Result<(), NoMemory>
    ensures line { OnOk result (string_bytes text.new
        ≡ string_bytes text.old ++ other_line item.now) }
    ensures same { OnErr result (string_bytes text.new ≡ string_bytes text.old) }
{
    match item {
        Waits::Change(_) => Ok(()),
        Waits::Unmade(newest) => push_unmade(alloc, text, *newest),
        Waits::Refused(code) => push_refused(alloc, text, *code),
        Waits::Begun => Ok(text.push_str("begun\n")?),
        Waits::Ended => Ok(text.push_str("ended\n")?),
    }
}

// Makes a change, and counts what the runs did that followed it.
pub(crate) fn make_counted<T: Tablet>(
    alloc: Global,
    state: &mut State<T>,
    stats: &mut Vec<ObserverStats>,
    batch: Batch,
    limit: u64,
) -> Result<Made, Stopped>
    ensures ok { IfOk result (λ m. (leads : SaidLeads
        (Counted state.old.observers stats.old.items stats.new.items
        (IsMade state.old.observers (runs_within limit (map.len state.old.entries)) batch
        m.commit)) state.old state.new)
        × (m.drained.runs ≡ commit_count leads.form.form.drain)
        × (m.drained.rests ≡ comes_to_rest leads.form.form.drained)) }
    ensures quiet { IfOk result
        (λ m. m.drained.rests ≡ true → IsNextMark state.new.marks None None) }
    ensures keeps { (first : KeptTable) (changes : List Writes)
        → Keeps limit first changes (kept_table state.old stats.old.items)
        → OnOk result (Keeps limit first (changes ++ batch ∷ [])
        (kept_table state.new stats.new.items)) }
    ensures observers { OnOk result (state.new.observers ≡ state.old.observers) }
    ensures clock { state.new.clock ≤ state.old.clock + most_timestamps }
    ensures in_time { (first : KeptTable) (changes : List Writes)
        → Keeps limit first changes (kept_table state.old stats.old.items)
        → state.old.clock + most_timestamps < last_timestamp → IfErr result WantsMemory }
    ensures stops { (first : KeptTable) (changes : List Writes)
        → Keeps limit first changes (kept_table state.old stats.old.items)
        → IfErr result (λ e. IsStop e state.new) }
    ensures left { OnErr result (IsBrokenOff state.old state.new) }
{
    make(alloc, state, stats, batch, limit)
}

// Answers a line that waited, and makes its change, if it is one, before.
fn answer<T: Tablet>(
    alloc: Global,
    state: &mut State<T>,
    stats: &mut Vec<ObserverStats>,
    item: Waits,
    text: &mut String,
    limit: u64,
) -> Result<(), KeepFault>
    ensures answer { OnOk result ((more : List ℕ)
        × (string_bytes text.new ≡ string_bytes text.old ++ more)
        × IsAnswer limit item (kept_table state.old stats.old.items)
        (kept_table state.new stats.new.items) more) }
    ensures keeps { (first : KeptTable) (changes : List Writes)
        → Keeps limit first changes (kept_table state.old stats.old.items)
        → OnOk result (Keeps limit first (changes ++ changes_in (item ∷ []))
        (kept_table state.new stats.new.items)) }
    ensures observers { OnOk result (state.new.observers ≡ state.old.observers) }
    ensures unanswered { OnErr result (string_bytes text.new ≡ string_bytes text.old) }
    ensures why { IfErr result IsOfMaking }
    ensures clock { state.new.clock
        ≤ state.old.clock + length (changes_in (item ∷ [])) * most_timestamps }
    ensures in_time { (first : KeptTable) (changes : List Writes)
        → Keeps limit first changes (kept_table state.old stats.old.items)
        → AreInTime (item ∷ []) state.old → IfErr result IsRefusedMemory }
{
    match item {
        Waits::Change(batch) => {
            let made = make_counted(alloc, state, stats, batch, limit)?;
            push_made(alloc, text, &made)?;
        }
        other => push_other(alloc, text, &other)?,
    }
    Ok(())
}

// Makes the changes of lines that waited, each with its observers, and adds the answers to all of the lines.
pub(crate) fn make_and_answer<T: Tablet>(
    alloc: Global,
    state: &mut State<T>,
    stats: &mut Vec<ObserverStats>,
    items: Vec<Waits>,
    text: &mut String,
    limit: u64,
) -> Result<(), KeepFault>
    ensures answers { OnOk result ((more : List ℕ)
        × (string_bytes text.new ≡ string_bytes text.old ++ more)
        × AreAnswers limit items.items (kept_table state.old stats.old.items)
        (kept_table state.new stats.new.items) more) }
    ensures keeps { (first : KeptTable) (changes : List Writes)
        → Keeps limit first changes (kept_table state.old stats.old.items)
        → OnOk result (Keeps limit first (changes ++ changes_in items.items)
        (kept_table state.new stats.new.items)) }
    ensures observers { OnOk result (state.new.observers ≡ state.old.observers) }
    ensures some { OnErr result (AreSomeAnswers limit items.items
        (kept_table state.old stats.old.items) (string_bytes text.old) (string_bytes text.new)) }
    ensures why { IfErr result IsOfMaking }
    // With timestamps for all changes, nothing but memory is wanting.
    ensures in_time { (first : KeptTable) (changes : List Writes)
        → Keeps limit first changes (kept_table state.old stats.old.items)
        → AreInTime items.items state.old → IfErr result IsRefusedMemory }
{
    for item in items {
        answer(alloc, state, stats, item, text, limit)?;
    }
    Ok(())
}
