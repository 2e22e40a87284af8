//! A replay, as C gets it: from bytes to the report, in the caller's buffer.
ghost use Rattle.std.specs.Prelude.{◌≡◌, ◌∷◌, [], IfOk};
ghost use Rattle.pb_store.specs.Contents.{nothing};
ghost use Rattle.pb_api.specs.Answers.{buffer_call};
ghost use Rattle.pb_api.specs.Replays.{GivesFaultText, IsReplayOf, IsReplayed};
ghost use Rattle.pb_driver.specs.FaultTexts.{run_fault_text};

use crate::answer::TextAnswer;
use crate::kind::AnswerKind;
use crate::page::Page;
use crate::programs::out_of_memory;
use pb_base::{NoMemory, Row, Ts};
use pb_driver::{RunFault, replay_texts};
use pb_memtablet::ListTablet;
use pb_store::Table;
use std::alloc::Global;

// An empty table of one tablet, since a replay swaps none.
fn empty_table(alloc: Global) -> Result<Table<ListTablet>, NoMemory>
    ensures contents { IfOk result (λ t. t.contents ≡ nothing) }
    ensures firsts { IfOk result (λ t. t.firsts ≡ 0 ∷ []) }
{
    let mut parts = Vec::new(alloc);
    parts.push((Row(0), ListTablet::new(alloc)))?;
    match Table::new(parts) {
        Ok(table) => Ok(table),
        Err(_) => unreachable!(),
    }
}

// The answer where a text or an event is at fault.
fn with_fault(alloc: Global, fault: &RunFault, out: &mut [u8]) -> TextAnswer
    ensures { GivesFaultText (run_fault_text fault.now) (buffer_call out.old out.new result) }
{
    match format!(in alloc; "{fault}") {
        Ok(text) => TextAnswer::with_text(AnswerKind::Refused, text.as_bytes(), out),
        Err(refused) => out_of_memory(NoMemory::from(refused)),
    }
}

// A replay of three texts.
fn replay_read(
    alloc: Global,
    manifest: &str,
    script: &str,
    schedule: &str,
    clock: u64,
    out: &mut [u8],
) -> TextAnswer
    ensures { IsReplayOf clock manifest.now script.now schedule.now
        (buffer_call out.old out.new result) }
{
    let table = match empty_table(alloc) {
        Ok(table) => table,
        Err(refused) => return out_of_memory(refused),
    };
    let mut page = Page::new(alloc);
    match replay_texts(
        alloc,
        manifest,
        script,
        schedule,
        table,
        Ts(clock),
        &mut page,
    ) {
        Ok(()) => TextAnswer::with_text(AnswerKind::Done, page.bytes(), out),
        Err(RunFault::NoMemory(refused)) => out_of_memory(refused),
        // A page takes all that is written to it, but where memory is refused.
        Err(RunFault::Output) => match page.refused() {
            Some(refused) => out_of_memory(refused),
            None => unreachable!(),
        },
        Err(fault) => with_fault(alloc, &fault, out),
    }
}

/// A replay of what is given as three texts. All are taken as texts first.
pub fn replay(
    alloc: Global,
    manifest: &[u8],
    script: &[u8],
    schedule: &[u8],
    clock: u64,
    out: &mut [u8],
) -> TextAnswer
    ensures { IsReplayed clock manifest.now script.now schedule.now
        (buffer_call out.old out.new result) }
{
    let Ok(manifest) = str::from_utf8(manifest) else {
        return TextAnswer::without_text(AnswerKind::NotText, 0, 0);
    };
    let Ok(script) = str::from_utf8(script) else {
        return TextAnswer::without_text(AnswerKind::NotText, 0, 1);
    };
    let Ok(schedule) = str::from_utf8(schedule) else {
        return TextAnswer::without_text(AnswerKind::NotText, 0, 2);
    };
    replay_read(alloc, manifest, script, schedule, clock, out)
}
