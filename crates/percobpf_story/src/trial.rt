//! A trial of a program whose bytes a file has, judged as `check` judges it.
ghost use Rattle.std.specs.Prelude.{◌≡◌, false, IfOk, IfErr, string_bytes};
ghost use Rattle.pb_base.specs.Taking.{taking};
ghost use Rattle.pb_files.specs.Programs.{AnswerLeaves, IsMemoryFault};
ghost use Rattle.pb_files.specs.declared.answer.Verdict.TheVariants as verdicts;
ghost use Rattle.pb_story.specs.Trials.{IsTrialText};
ghost use Rattle.percobpf_story.specs.Trials.{Tries};

use pb_accepted::Accepted;
use pb_base::{NoMemory, Sink};
use pb_files::{FileFault, Paths, Verdict, VerdictText, bytes_at, refusal_of, write_answer};
use pb_helpers::HelperTable;
use pb_registry::accept_in;
use pb_story::trial_text;
use pb_texts::Trial;
use pb_verify::VerifyFault;
use std::alloc::Global;
use std::sync::Arc;

// A program to be shared, as a machine takes it.
fn shared(alloc: Global, accepted: Accepted) -> Result<Arc<Accepted>, NoMemory>
    ensures { IfOk result (λ a. a.value ≡ accepted) }
{
    Ok(Arc::new(alloc, accepted)?)
}

// What an accepted program does in the run.
fn ran<'a>(alloc: Global, accepted: Accepted, trial: &Trial) -> Result<VerdictText, FileFault<'a>>
    ensures told { IfOk result (λ a. (a.verdict ≡ verdicts.Accepted)
        × IsTrialText accepted trial.now (string_bytes a.text)) }
    ensures fault { IfErr result IsMemoryFault }
{
    let accepted = shared(alloc, accepted)?;
    let text = trial_text(alloc, &accepted, trial)?;
    Ok(VerdictText {
        verdict: Verdict::Accepted,
        text,
    })
}

// What the program of these bytes does in the run, or where bytes or program are refused.
fn tried<'a>(alloc: Global, trial: &Trial, bytes: &[u8]) -> Result<VerdictText, FileFault<'a>>
    ensures told { IfOk result (λ a. Tries trial.now bytes.now a.verdict (string_bytes a.text)) }
    ensures fault { IfErr result IsMemoryFault }
{
    let program = &trial.program;
    // All helpers, as `check` has them.
    match accept_in(
        alloc,
        program.profile,
        program.version,
        bytes,
        HelperTable::all(),
    ) {
        Ok(accepted) => ran(alloc, accepted, trial),
        Err(VerifyFault::Refused(refused)) => refusal_of(alloc, refused),
        Err(VerifyFault::NoMemory(refused)) => Err(FileFault::NoMemory(refused)),
    }
}

/// Writes what the program of a file does in one run, or where it is refused.
pub fn try_file<'a, P: Paths, O: Sink>(
    alloc: Global,
    trial: &Trial<'a>,
    paths: &mut P,
    out: &mut O,
) -> Result<Verdict, FileFault<'a>>
    requires unfailed { O.failed out.old ≡ false }
    ensures told { AnswerLeaves (Tries trial.now) (P.held paths.old trial.now.program.file.now)
        trial.now.program.file.now (taking O.taken O.failed out.old out.new) result }
    ensures same { P.held paths.new ≡ P.held paths.old }
    ensures quiet { P.failed paths.new ≡ P.failed paths.old }
{
    let bytes = bytes_at(paths, trial.program.file)?;
    let answer = tried(alloc, trial, &bytes)?;
    write_answer(&answer, out)
}
