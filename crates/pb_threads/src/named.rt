//! A table under a lock, of which it is known how it was opened. A type parameter keeps that, since
//! nothing is known of what comes out of a lock but what its type keeps.
ghost use Rattle.std.specs.Prelude.{◌≡◌};
ghost use Rattle.pb_threads.specs.Gains.{opening_of};

use crate::desk::Callee;
use pb_base::Refusal;
use pb_core::{Seat, Shared};
use pb_steps::{Answer, Step};
use pb_store::Tablet;
use std::marker::{Brand, PhantomData};
use std::sync::Mutex;

/// How a table was opened.
pub trait Opening {
    ghost use Rattle.pb_threads.specs.Gains.{OpeningOf};

    ghost opening: { OpeningOf };
}

impl Opening for Brand {
    ghost use Rattle.std.specs.Prelude.{[]};

    ghost opening = { record { observers = []; seats = 0; opened = 0; limit = 0; places = 0 } };
}

/// A table that was opened so, and stays so, since no call and no swap changes any of it.
pub struct Held<T: Tablet, J: Opening> {
    shared: Shared<T>,
    of: PhantomData<J>,
    ghost opened_so: { opening_of shared ≡ J.opening },
}

impl<T: Tablet, J: Opening> Callee for Held<T, J> {
    ghost use Rattle.std.specs.Prelude.{Some};

    ghost table = { λ h. h.shared };

    ghost opening = { Some J.opening };

    fn take(&mut self, seat: &mut Seat, step: &Step) -> Result<Answer, Refusal> {
        self.shared.take(seat, step)
    }
}

impl<T: Tablet, J: Opening> Held<T, J> {
    ghost use Rattle.std.specs.Prelude.{◌≡◌, None, IfOk, IfErr, OnOk};
    ghost use Rattle.pb_store.specs.Contents.{nothing};
    ghost use Rattle.pb_store.specs.Tiles.{swap_reason, refusal_or_want};

    /// Swaps a tablet in at its place, as [`Shared::swap`] does.
    pub(crate) fn swap(&mut self, place: usize, tablet: T) -> Result<T, (T, Refusal)>
        ensures same { self.new.shared ≡ self.old.shared }
        ensures answered { IfOk result (λ old. T.contents old ≡ nothing) }
        ensures accepted { OnOk result (swap_reason (T.contents tablet) place
            J.opening.places ≡ None) }
        ensures handed_back { IfErr result (λ e. T.contents e.0 ≡ nothing) }
        ensures refused { IfErr result (λ e. e.1 ≡ refusal_or_want
            (swap_reason (T.contents tablet) place J.opening.places)) }
    {
        self.shared.swap(place, tablet)
    }
}

/// Locks up a table that was opened so.
pub(crate) fn hold<T: Tablet, J: Opening>(shared: Shared<T>) -> Mutex<Held<T, J>>
    requires { opening_of shared ≡ J.opening }
{
    Mutex::new(Held {
        shared,
        of: PhantomData,
    })
}

/// The table, out of its lock.
pub(crate) fn into_shared<T: Tablet, J: Opening>(desk: Mutex<Held<T, J>>) -> Shared<T>
    ensures { opening_of result ≡ J.opening }
{
    let Held { shared, of: _ } = desk.into_inner();
    shared
}
