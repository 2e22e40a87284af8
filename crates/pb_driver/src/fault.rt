//! Why a run or a replay ended early: one type for both, so that the same lines report them.
ghost use Rattle.std.specs.Prelude.{◌≡◌};
ghost use Rattle.pb_driver.specs.Texts.{of_report};

use pb_base::NoMemory;
use pb_parse::ScriptFault;
use pb_registry::RegistryFault;
use pb_script::ReportFault;
use pb_world::WorldFault;
use std::error::Error;
use std::fmt;

/// Why a run or a replay ended before its report was written.
#[derive(Debug, Drop)]
pub enum RunFault {
    /// The manifest was refused, for another cause than memory.
    Manifest(RegistryFault),
    /// The script was refused, for another cause than memory.
    Script(ScriptFault),
    /// The schedule was refused, for another cause than memory.
    Schedule(ScriptFault),
    /// An event was at fault.
    Event(WorldFault),
    /// What the workers' seats received isn't what the journal has of them: refusal 48 of
    /// [`pb_ending::finish`].
    SeatsDiffer,
    /// A write of the report failed, or took no byte.
    Output,
    /// A growth was refused.
    NoMemory(NoMemory),
}

impl fmt::Display for RunFault {
    ghost use Rattle.std.specs.Prelude.{Some};
    ghost use Rattle.pb_driver.specs.FaultTexts.{run_fault_text};

    ghost output = { λ f. Some (run_fault_text f) };

    fn fmt<W: fmt::Write>(&self, f: &mut fmt::Formatter<W>) -> fmt::Result {
        match self {
            RunFault::Manifest(fault) => write!(f, "manifest: {fault}"),
            RunFault::Script(fault) => write!(f, "script: {fault}"),
            RunFault::Schedule(fault) => write!(f, "schedule: {fault}"),
            RunFault::Event(fault) => write!(f, "{fault}"),
            RunFault::SeatsDiffer => write!(f, "seats differ"),
            RunFault::Output => write!(f, "cannot write the output"),
            RunFault::NoMemory(_) => write!(f, "no memory"),
        }
    }
}

impl Error for RunFault {}

impl From<ReportFault> for RunFault {
    ghost from_gives = { λ f e. e ≡ of_report f };

    fn from(fault: ReportFault) -> RunFault {
        match fault {
            ReportFault::Output => RunFault::Output,
            ReportFault::NoMemory(refused) => RunFault::NoMemory(refused),
        }
    }
}
