//! The end of a run: each seat's list is compared with the journal, since nothing else shows that
//! the table which comes out of the lock is the one that the seats called.
ghost use Rattle.std.specs.Prelude.{◌≡◌, ◌≢◌, ◌<◌, ◌≤◌, ◌+◌, ◌↔◌, ◌==◌, IsTrue, IsOk, IfOk, IfErr, IfSome, Some, None, length, slice_get};
ghost use Rattle.std.specs.List.{list_any};
ghost use Rattle.pb_base.specs.declared.limits.TheConstants.{MAX_SEATS};
ghost use Rattle.pb_ending.specs.Agrees.{Agree, EachTold, no_twice};
ghost use Rattle.pb_ending.specs.Cursors.{told_by, AreNumberedBelow, ArePlaces, IsAt, HasNoSeat, AreAtEnd};

use crate::same::is_same;
use pb_base::MAX_SEATS;
use pb_core::{Seat, Shared};
use pb_history::{KeptCall, KeptEntry};
use pb_store::Tablet;
use std::marker::Model;

// As many as there are seats at most, so that places and cursors take no memory.
const SEATS: usize = MAX_SEATS as usize;

/// A table whose seats agree with its journal. It ends by `close` alone.
pub struct Ended<T: Tablet> {
    shared: Shared<T>,
    seats: Vec<Seat>,
}

impl<T: Tablet> Model for Ended<T> {
    ghost use Rattle.pb_ending.specs.Agrees.{EndedOf, ended_code, Agree};

    ghost Value = { EndedOf };

    ghost coded = { ended_code };

    ghost view = { λ e. record { shared = e.shared; seats = e.seats.items } };

    ghost invariant = { λ e. Agree e.shared e.seats.items };
}

// Each seat is one of so many.
fn are_seated(count: u32, seats: &[Seat]) -> bool
    ensures { IsTrue result ↔ AreNumberedBelow count seats.now }
{
    for seat in seats {
        if seat.number() >= count {
            return false;
        }
    }
    true
}

// Whether one of these seats has this number.
fn has_number(number: u32, seats: &[Seat]) -> bool
    ensures { result ≡ list_any (λ s. s.number == number) seats.now }
{
    seats.iter().any(|s| s.number() == number)
}

// No two seats have one number.
fn are_distinct(seats: &[Seat]) -> bool
    ensures { result ≡ no_twice seats.now }
{
    for k in 0..seats.len() {
        if has_number(seats[k].number(), &seats[k + 1..]) {
            return false;
        }
    }
    true
}

// By its number, the place of each seat among these, so that the list of an entry is found without a search.
fn places_of(seats: &[Seat]) -> [usize; SEATS]
    requires few { AreNumberedBelow MAX_SEATS seats.now }
    requires distinct { IsTrue (no_twice seats.now) }
    ensures { ArePlaces result seats.now }
{
    let mut places = [0; SEATS];
    for k in 0..seats.len() {
        places[seats[k].number() as usize] = k;
    }
    places
}

// Where the seat of this number stands, if it is among these. What stands at its place is asked for its number, since
// the place is 0 for a number that none has.
fn place_of(number: u32, seats: &[Seat], places: &[usize; SEATS]) -> Option<usize>
    requires { ArePlaces places.now seats.now }
    ensures some { IfSome result (IsAt seats.now number) }
    ensures none { result ≡ None → HasNoSeat seats.now number }
{
    if number >= MAX_SEATS {
        return None;
    }
    let place = places[number as usize];
    if place < seats.len() && seats[place].number() == number {
        return Some(place);
    }
    None
}

// The place after this item of the list, if there is one and it is what the entry records.
fn cursor_after(e: &KeptEntry, list: &[KeptCall], next: usize) -> Option<usize>
    ensures some { IfSome result (λ n. (slice_get list.now next ≡ Some (told_by e.now))
        × (n ≡ next + 1)) }
    ensures none { result ≡ None → slice_get list.now next ≢ Some (told_by e.now) }
{
    if next < list.len() && is_same(e, &list[next]) {
        return Some(next + 1);
    }
    None
}

// Each cursor has come to the end of its seat's list.
fn are_at_end(seats: &[Seat], cursors: &[usize; SEATS]) -> bool
    requires { length seats.now ≤ MAX_SEATS }
    ensures { IsTrue result ↔ AreAtEnd seats.now cursors.now }
{
    for k in 0..seats.len() {
        if cursors[k] != seats[k].received().len() {
            return false;
        }
    }
    true
}

// Each list is the journal's entries of its seat. One pass along the journal has a cursor in each list, so that each
// entry is looked at once.
fn are_told(count: u32, journal: &[KeptEntry], seats: &[Seat]) -> bool
    requires few { count ≤ MAX_SEATS }
    requires counted { length seats.now ≡ count }
    requires seated { AreNumberedBelow count seats.now }
    requires distinct { IsTrue (no_twice seats.now) }
    ensures { IsTrue result ↔ EachTold count journal.now seats.now }
{
    let places = places_of(seats);
    let mut cursors = [0; SEATS];
    for e in journal {
        if let Some(place) = place_of(e.seat(), seats, &places) {
            match cursor_after(e, seats[place].received(), cursors[place]) {
                Some(next) => cursors[place] = next,
                None => return false,
            }
        }
    }
    are_at_end(seats, &cursors)
}

// Each seat of the table is there once, and received what the journal has. Numbers are looked at
// first, since the pass takes them for places.
fn do_agree<T: Tablet>(shared: &Shared<T>, seats: &[Seat]) -> bool
    ensures { IsTrue result ↔ Agree shared.now seats.now }
{
    let count = shared.seats();
    if seats.len() != count as usize {
        return false;
    }
    if !are_seated(count, seats) || !are_distinct(seats) {
        return false;
    }
    are_told(count, shared.journal(), seats)
}

/// Accepts where each seat of the table is there once, in whatever order, and each list is the journal's entries of
/// that seat. Else it hands both back: refusal 48. It takes no memory, and looks at each entry of the journal once,
/// however many seats there are.
pub fn finish<T: Tablet>(
    shared: Shared<T>,
    seats: Vec<Seat>,
) -> Result<Ended<T>, (Shared<T>, Vec<Seat>)>
    ensures accepts { Agree shared seats.items → IsOk result }
    ensures ended { IfOk result (λ e. e ≡ record { shared = shared; seats = seats.items }) }
    ensures agree { IfOk result (λ e. Agree e.shared e.seats) }
    ensures handed_back { IfErr result (λ p. p.0 ≡ shared) }
    ensures seats { IfErr result (λ p. p.1 ≡ seats) }
{
    if do_agree(&shared, &seats) {
        Ok(Ended { shared, seats })
    } else {
        Err((shared, seats))
    }
}

impl<T: Tablet> Ended<T> {
    ghost use Rattle.std.specs.Prelude.{◌≡◌};
    ghost use Rattle.pb_ending.specs.Agrees.{Agree};

    /// The table.
    pub fn shared(&self) -> &Shared<T>
        ensures table { result.now ≡ self.now.shared }
        ensures agree { Agree self.now.shared self.now.seats }
    {
        &self.shared
    }

    /// The table alone. Its seats end here, since their lists have as many calls as the journal has.
    pub fn into_shared(self) -> Shared<T>
        ensures table { result ≡ self.shared }
        ensures agree { Agree self.shared self.seats }
    {
        let Ended { shared, seats: _ } = self;
        shared
    }

    /// Ends the table. It takes no memory.
    pub fn close(self) {
        self.into_shared().close();
    }
}
