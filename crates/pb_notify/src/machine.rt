//! The machine of a run. Instructions are done where it stands, since to move it in and out costs more than one. It
//! can do its exit again where memory was refused, since what the exit left is kept until it is declared.
ghost use Rattle.std.specs.Prelude.{◌≡◌, ℕ, length, IfOk, IfErr};
ghost use Rattle.pb_steps.specs.Reads.{value_in};
ghost use Rattle.pb_notify.specs.Machines.{first_position, after_reply, HearsReply, exit_at, ExitLeaves};
ghost use Rattle.pb_notify.specs.Steps.{ExitsAs, MovesOn, FollowsOn};
ghost use Rattle.pb_vm.specs.MachineSlot.{IsAtSlot};
ghost use Rattle.pb_vm.specs.Position.{Position};
ghost use Rattle.pb_vm.specs.declared.moved.Moved.TheVariants.{Ended};
ghost use Rattle.pb_vm.specs.declared.moved.MachinePhase.TheVariants.{Going, Asking};

use pb_accepted::Accepted;
use pb_base::{NoMemory, ObserverNo, Ts};
use pb_finished::Finished;
use pb_helpers::{Ask, Record};
use pb_steps::{Answer, Declaration, Declared, EndedRun, reply_in};
use pb_vm::{Moved, Vm};
use std::alloc::Global;
use std::marker::Model;
use std::sync::Arc;

/// A machine of an accepted program. Where its exit couldn't be declared, it is seen before it.
#[derive(Drop)]
pub struct Machine {
    standing: Standing,
}

#[derive(Drop)]
enum Standing {
    Running(Vm),
    /// At an exit whose declaration was refused: what it left, with the instructions before that and its slot, so that
    /// it is still seen there, and whether it did that exit again.
    Exited {
        left: Finished,
        taken: u16,
        slot: usize,
        again: bool,
    },
}

impl Model for Machine {
    ghost use Rattle.pb_vm.specs.Position.{Position};
    ghost use Rattle.pb_notify.specs.Machines.{position_in, IsKept};

    ghost Value = { Position };

    ghost view = { λ m. position_in m.standing };

    ghost invariant = { λ m. IsKept m.standing };
}

impl Machine {
    /// A machine on entry.
    pub fn start(
        alloc: Global,
        accepted: &Arc<Accepted>,
        change: Record,
        start: Ts,
    ) -> Result<Machine, NoMemory>
        requires { length change ≡ accepted.now.value.record_size }
        ensures { IfOk result (λ m. m ≡ first_position accepted.now.value change start.0) }
    {
        let vm = Vm::start(alloc, accepted, change, start)?;
        Ok(Machine {
            standing: Standing::Running(vm),
        })
    }

    /// The slot at which it stands.
    pub fn slot(&self) -> usize
        ensures { IsAtSlot self.now result }
    {
        match &self.standing {
            Standing::Running(vm) => vm.slot(),
            Standing::Exited { slot, .. } => *slot,
        }
    }

    /// Does one instruction, and returns what it did.
    #[inline(always)]
    pub fn local(&mut self) -> Moved
        requires { self.old.phase ≡ Going }
        ensures { MovesOn self.old result self.new }
    {
        match &mut self.standing {
            Standing::Running(vm) => vm.step(),
            Standing::Exited { left, again, .. } => {
                *again = true;
                Moved::Ended(left.result())
            }
        }
    }

    /// Does all instructions up to the next ask or the exit, and returns what the last one did.
    pub fn follow(&mut self) -> Moved
        requires { self.old.phase ≡ Going }
        ensures { FollowsOn self.old result self.new }
    {
        match &mut self.standing {
            Standing::Running(vm) => vm.follow(),
            Standing::Exited { left, again, .. } => {
                *again = true;
                Moved::Ended(left.result())
            }
        }
    }

    /// Gives the instruction that waits the answer to the read of its cell.
    pub fn reply(self, ask: Ask, answer: Answer) -> Machine
        requires { self.phase ≡ Asking ask }
        ensures told { HearsReply self ask answer result }
        ensures is { result ≡ after_reply self ask (value_in answer) }
    {
        match self.standing {
            Standing::Running(mut vm) => {
                vm.reply(reply_in(answer));
                Machine {
                    standing: Standing::Running(vm),
                }
            }
            // It isn't here while it asks, since at its exit it is seen as going on or as ended.
            Standing::Exited { .. } => unreachable!(),
        }
    }

    /// Declares what the run of this observer leaves, with register 0, once its exit is done. Refused for memory, it is
    /// before its exit again, and comes back with the refused growth.
    pub fn exit(
        self,
        alloc: Global,
        observer: ObserverNo,
    ) -> Result<(u64, Declaration), (Machine, NoMemory)>
        requires { (v : Position) × (r : ℕ) × MovesOn v (Ended r) self }
        ensures ok { (v : Position) (r : ℕ) → MovesOn v (Ended r) self
            → IfOk result (λ d. ExitsAs observer v d.0 d.1) }
        ensures same { (v : Position) (r : ℕ) → MovesOn v (Ended r) self
            → IfErr result (λ e. e.0 ≡ v) }
    {
        match self.standing {
            Standing::Running(vm) => {
                let slot = vm.slot();
                // The exit is counted already, and `Exited` keeps the count before it.
                let taken = vm.taken() - 1;
                let finished = vm.finish();
                // For the proof: result and writes are what the program means.
                finished.known();
                declare(alloc, observer, finished, taken, slot)
            }
            Standing::Exited {
                left,
                taken,
                slot,
                ..
            } => declare(alloc, observer, left, taken, slot),
        }
    }
}

// Declares what it left. Refused, it stands at its exit: both growths hand back what they were given, so that nothing
// is lost.
fn declare(
    alloc: Global,
    observer: ObserverNo,
    left: Finished,
    taken: u16,
    slot: usize,
) -> Result<(u64, Declaration), (Machine, NoMemory)>
    requires leaves { ExitLeaves (exit_at left taken) left }
    requires at { IsAtSlot (exit_at left taken) slot }
    ensures ok { IfOk result (λ d. ExitsAs observer (exit_at left taken) d.0 d.1) }
    ensures same { IfErr result (λ e. e.0 ≡ exit_at left taken) }
{
    let end = left.result();
    let (left, refused) = match EndedRun::new(alloc, left) {
        Ok(run) => match Declaration::new(alloc, Declared::Run(observer, run)) {
            Ok(what) => return Ok((end, what)),
            Err(failed) => {
                let (what, refused) = NoMemory::with_value(failed);
                match what {
                    Declared::Run(_, run) => (run.into_finished(), refused),
                    Declared::Script(_) => unreachable!(),
                }
            }
        },
        Err(failed) => NoMemory::with_value(failed),
    };
    let standing = Standing::Exited {
        left,
        taken,
        slot,
        again: false,
    };
    Err((Machine { standing }, refused))
}
