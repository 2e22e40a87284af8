//! Faults of events. Each is found before the event does anything, so that the world stays as the events before it
//! left it.
ghost use Rattle.std.specs.Prelude.{◌≡◌};
ghost use Rattle.pb_world.specs.Faults.{fault_code};

use pb_base::NoMemory;
use std::error::Error;
use std::fmt;

/// Why an event can't happen.
#[derive(Debug, PartialEq, Eq, Drop)]
pub enum EventFault {
    /// A growth was refused.
    NoMemory(NoMemory),
    /// There is no such actor.
    NoSuchActor,
    /// The actor has a job.
    Busy,
    /// There is no such change or observer.
    NoSuchJob,
}

impl EventFault {
    /// The number by which it is reported.
    pub fn code(&self) -> u8
        ensures { result ≡ fault_code self.now }
    {
        match self {
            EventFault::NoMemory(_) => 1,
            EventFault::NoSuchActor => 60,
            EventFault::Busy => 61,
            EventFault::NoSuchJob => 63,
        }
    }
}

/// Which event of a list was at fault, from 0, and its fault.
#[derive(Debug, PartialEq, Eq, Drop)]
pub struct WorldFault {
    pub event: usize,
    pub fault: EventFault,
}

impl WorldFault {
    /// The number of its fault.
    pub fn code(&self) -> u8
        ensures { result ≡ fault_code self.now.fault }
    {
        self.fault.code()
    }
}

impl fmt::Display for WorldFault {
    ghost use Rattle.std.specs.Prelude.{Some};
    ghost use Rattle.pb_world.specs.Faults.{fault_code, event_and_code};

    ghost output = { λ f. Some (event_and_code f.event (fault_code f.fault)) };

    fn fmt<W: fmt::Write>(&self, f: &mut fmt::Formatter<W>) -> fmt::Result {
        let event = self.event;
        let code = self.code();
        write!(f, "event {event} code {code}")
    }
}

impl Error for WorldFault {}
