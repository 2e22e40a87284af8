//! The shared table: a state with the journal that led to it.
ghost use Rattle.std.specs.Prelude.{◌≡◌, ◌<◌, ◌++◌, ◌∷◌, [], OnOk, IfOk, vec_len, vec_capacity, true};
ghost use Rattle.pb_core.specs.Calls.{IsFresh, IsBlank};

use crate::laws::legal_tables_tell;
use crate::seat::{Book, Seat};
use pb_accepted::Observer;
use pb_base::{MAX_ENTRIES, MAX_OBSERVERS, MAX_SEATS, NoMemory, Reason, Refusal, Ts};
use pb_history::{CallRoom, KeptCall, KeptEntry, journals_tell, quiet_is_counted};
use pb_state::{Admitted, State};
use pb_steps::{Answer, Phase, Step};
use pb_store::{Table, Tablet};
use std::alloc::Global;
use std::marker::Model;

/// A state with the journal of the steps that led to it, and a book for each seat.
///
/// A shared table ends by `close` alone.
pub struct Shared<T: Tablet> {
    state: State<T>,
    journal: Vec<KeptEntry>,
    books: Vec<Book>,
    opened: u64,
    limit: usize,
    // How many tablets the table has.
    places: usize,
}

impl<T: Tablet> Model for Shared<T> {
    ghost use Rattle.pb_core.specs.Calls.{SharedOf};
    ghost use Rattle.pb_core.specs.Codes.{shared_code};

    ghost Value = { SharedOf };

    ghost coded = { shared_code };

    ghost use Rattle.pb_core.specs.Keeping.{SharedKeeps};

    ghost view = { λ s. record { journal = s.journal.items; state = s.state; opened = s.opened; limit = s.limit; places = s.places } };

    ghost invariant = { λ s. SharedKeeps s.journal.items s.books.items s.state s.opened s.limit };
}

/// A table that couldn't be opened, handed back with its observers: refused with 4 where it isn't empty, with 1 where there
/// was no memory.
pub struct OpenRefused<T: Tablet> {
    pub table: Table<T>,
    pub observers: Vec<Observer>,
    pub refusal: Refusal,
}

// Room for one item more. Inlined, as those below are, since each call of the table goes through all of them.
#[inline(always)]
fn make_room<X>(list: &mut Vec<X>) -> Result<(), NoMemory>
    ensures items { list.new.items ≡ list.old.items }
    ensures room { OnOk result (vec_len list.new < vec_capacity list.new) }
{
    list.reserve(1)?;
    Ok(())
}

#[inline(always)]
fn append<X: Drop>(list: &mut Vec<X>, item: X)
    requires { vec_len list.old < vec_capacity list.old }
    ensures { list.new.items ≡ list.old.items ++ item ∷ [] }
{
    list.push(item).unwrap();
}

// Room for one item more in each list, or none of them changed.
fn make_rooms(
    journal: &mut Vec<KeptEntry>,
    places: &mut Vec<u32>,
    received: &mut Vec<KeptCall>,
) -> Result<(), NoMemory>
    ensures journal { journal.new.items ≡ journal.old.items }
    ensures places { places.new.items ≡ places.old.items }
    ensures received { received.new.items ≡ received.old.items }
    ensures journal_room { OnOk result (vec_len journal.new < vec_capacity journal.new) }
    ensures places_room { OnOk result (vec_len places.new < vec_capacity places.new) }
    ensures received_room { OnOk result (vec_len received.new < vec_capacity received.new) }
{
    make_room(journal)?;
    make_room(places)?;
    make_room(received)?;
    Ok(())
}

// The journal's entry of a step.
#[inline(always)]
fn entry_of(seat: u32, step: Step, answer: &Answer, room: &mut CallRoom) -> KeptEntry
    requires { room.old ≡ true }
    ensures { result ≡ record { seat = seat; step = step; answer = answer.now } }
{
    KeptEntry::new(seat, step, *answer, room)
}

// A step as its seat received it.
#[inline(always)]
fn received_of(step: Step, answer: &Answer, room: &mut CallRoom) -> KeptCall
    requires { room.old ≡ true }
    ensures { result ≡ record { step = step; answer = answer.now } }
{
    KeptCall::new(step, *answer, room)
}

// Empty books, one a seat.
fn empty_books(alloc: Global, count: u32) -> Result<Vec<Book>, NoMemory>
    ensures { IfOk result (λ v. IsBlank count v.items) }
{
    let mut books = Vec::new(alloc);
    for place in 0..count {
        let _ = place;
        books.push(Book {
            places: Vec::new(alloc),
        })?;
    }
    Ok(books)
}

// Seats with empty lists, numbered from 0.
fn empty_seats(alloc: Global, count: u32) -> Result<Vec<Seat>, NoMemory>
    ensures { IfOk result (λ v. IsFresh count v.items) }
{
    let mut seats = Vec::new(alloc);
    for number in 0..count {
        seats.push(Seat::new(alloc, number))?;
    }
    Ok(seats)
}

// Empty books and seats, as many of each.
fn books_and_seats(alloc: Global, count: u32) -> Result<(Vec<Book>, Vec<Seat>), NoMemory>
    ensures books { IfOk result (λ v. IsBlank count v.0.items) }
    ensures seats { IfOk result (λ v. IsFresh count v.1.items) }
{
    Ok((empty_books(alloc, count)?, empty_seats(alloc, count)?))
}

impl<T: Tablet> Shared<T> {
    ghost use Rattle.std.specs.Prelude.{◌≡◌, ◌≤◌, ◌<◌, ◌↔◌, IfOk, IfErr, OnOk, OnErr, [], length, ℕ, Err, Some, None, true, false};
    ghost use Rattle.pb_store.specs.Contents.{nothing, is_nothing};
    ghost use Rattle.pb_store.specs.Tiles.{swap_reason, refusal_or_want};
    ghost use Rattle.std.specs.FinMap as map;
    ghost use Rattle.std.specs.Result.{result_err};
    ghost use Rattle.pb_base.specs.Reasons.{refusal_by, memory_refusal};
    ghost use Rattle.pb_base.specs.declared.refusal.Reason.TheVariants as reasons;
    ghost use Rattle.pb_steps.specs.State.{opening, phase_in};
    ghost use Rattle.pb_steps.specs.Readings.{lock_count};
    ghost use Rattle.pb_steps.specs.Answers.{CanAnswer};
    ghost use Rattle.pb_state.specs.Admitted.{Admits, step_admitted};
    ghost use Rattle.pb_core.specs.Calls.{AreSeats, Calls, call_reason};
    ghost use Rattle.pb_history.specs.Handled.{TellsQuiet};
    ghost use Rattle.pb_history.specs.History.{TellsHistory};
    ghost use Rattle.pb_history.specs.ReadsTold.{TellsReads};
    ghost use Rattle.pb_history.specs.RunCounts.{TellsRunCounts};
    ghost use Rattle.pb_history.specs.RecordsTold.{TellsRecords};
    ghost use Rattle.pb_core.specs.Histories.{IsLegalTable, IsSnapshotHistory, HandlesOnce};

    /// Opens a table for these observers and as many seats, with `last` the last timestamp given out so far and room for
    /// `limit` entries.
    ///
    /// It hands table and observers back with code 4 where it isn't empty, and with code 1 where memory is refused.
    pub fn open(
        alloc: Global,
        table: Table<T>,
        observers: Vec<Observer>,
        seats: u32,
        last: Ts,
        limit: usize,
    ) -> Result<(Shared<T>, Vec<Seat>), OpenRefused<T>>
        requires some { 1 ≤ seats }
        requires few { seats ≤ MAX_SEATS }
        requires bounded { limit ≤ MAX_ENTRIES }
        requires numbered { length observers.items ≤ MAX_OBSERVERS }
        ensures shared { IfOk result (λ s. s.0 ≡ record {
          journal = [];
          state = opening observers.items seats last.0;
          opened = last.0;
          limit = limit;
          places = length table.firsts;
        }) }
        ensures seats { IfOk result (λ s. AreSeats s.0 s.1.items) }
        ensures empty { OnOk result (is_nothing table.contents ≡ true) }
        ensures handed_back { IfErr result (λ e. e.table ≡ table) }
        ensures observers { IfErr result (λ e. e.observers ≡ observers) }
        ensures full { is_nothing table.contents ≡ false
            → IfErr result (λ e. e.refusal ≡ refusal_by reasons.NotEmpty) }
        ensures memory { is_nothing table.contents ≡ true
            → IfErr result (λ e. e.refusal ≡ memory_refusal) }
    {
        // Before any growth, since every table that has something is refused with 4, also where
        // there is no memory.
        if !table.is_empty() {
            return Err(OpenRefused {
                table,
                observers,
                refusal: Reason::NotEmpty.refusal(),
            });
        }
        let (books, all) = match books_and_seats(alloc, seats) {
            Ok(made) => made,
            Err(e) => {
                return Err(OpenRefused {
                    table,
                    observers,
                    refusal: Refusal::from(e),
                });
            }
        };
        let places = table.places();
        let state = State::new(alloc, table, observers, seats, last);
        let shared = Shared {
            state,
            journal: Vec::new(alloc),
            books,
            opened: last.0,
            limit,
            places,
        };
        Ok((shared, all))
    }

    /// Copies all that a tablet of the table contains into another, puts that in its place, and answers the old one, emptied.
    /// It is no event: the journal and the state stay as they are.
    ///
    /// Refused it answers the new one, emptied: with 4 where that isn't empty, else 5 where there is no such place, or 1 where
    /// memory is refused.
    pub fn swap(&mut self, place: usize, tablet: T) -> Result<T, (T, Refusal)>
        ensures same { self.new ≡ self.old }
        ensures answered { IfOk result (λ old. T.contents old ≡ nothing) }
        ensures accepted { OnOk result (swap_reason (T.contents tablet) place
            self.old.places ≡ None) }
        ensures handed_back { IfErr result (λ e. T.contents e.0 ≡ nothing) }
        ensures refused { IfErr result (λ e. e.1 ≡ refusal_or_want
            (swap_reason (T.contents tablet) place self.old.places)) }
    {
        // In the order of `swap_reason`, as the table has it.
        if tablet.is_empty() && place >= self.places {
            return Err((tablet, Reason::NoSuchPlace.refusal()));
        }
        self.state.swap_within(place, tablet)
    }

    /// Ends the table, with all that is in it.
    pub fn close(self) {
        let Shared {
            state,
            journal: _,
            books: _,
            opened: _,
            limit: _,
            places: _,
        } = self;
        state.close();
    }

    /// The entries of all answered calls, in order. Its committed transactions are a legal snapshot history, and each
    /// committed change is handled by at most one committed run of each observer of its column. It is a run of steps from
    /// the opening state, and leads to the state that is there. Where no mark and no lock is left, a change is handled by
    /// exactly one committed run.
    pub fn journal(&self) -> &[KeptEntry]
        ensures entries { result.now ≡ self.now.journal }
        ensures legal { IsLegalTable self.now }
        ensures history { TellsHistory self.now.journal self.now.state }
        ensures reads { TellsReads self.now.state.observers self.now.state.seats self.now.opened
            self.now.journal }
        ensures counts { TellsRunCounts self.now.journal self.now.state }
        ensures snapshots { IsSnapshotHistory self.now }
        ensures records { TellsRecords self.now.journal self.now.state }
        ensures once { HandlesOnce self.now }
    {
        // For the proof: what holds of legal journals.
        journals_tell();
        legal_tables_tell();
        &self.journal
    }

    /// What its type keeps: its journal is legal, and leads to the state that is there.
    pub fn known(&self)
        ensures { IsLegalTable self.now }
    {
        let _ = &self.journal;
    }

    /// The clock as opened.
    pub fn opened(&self) -> Ts
        ensures { result.0 ≡ self.now.opened }
    {
        Ts(self.opened)
    }

    /// How many entries the journal may have.
    pub fn limit(&self) -> usize
        ensures limit { result ≡ self.now.limit }
        ensures bounded { result ≤ MAX_ENTRIES }
        ensures room { length self.now.journal ≤ self.now.limit }
    {
        self.limit
    }

    /// The last timestamp given out.
    pub fn clock(&self) -> Ts
        ensures { result.0 ≡ self.now.state.clock }
    {
        self.state.clock()
    }

    /// The observers, by their numbers.
    pub fn observers(&self) -> &[Observer]
        ensures observers { result.now ≡ self.now.state.observers }
        ensures few { length result.now ≤ MAX_OBSERVERS }
    {
        self.state.observers()
    }

    /// How many seats the table has.
    pub fn seats(&self) -> u32
        ensures seats { result ≡ self.now.state.seats }
        ensures some { 1 ≤ result }
        ensures few { result ≤ MAX_SEATS }
    {
        self.state.seats()
    }

    /// How far the transaction of this start has come.
    pub fn phase(&self, start: Ts) -> Option<Phase>
        ensures { result ≡ phase_in self.now.state start.0 }
    {
        self.state.phase(start)
    }

    /// The table, to read it.
    pub fn table(&self) -> &Table<T>
        ensures entries { result.now.contents.entries ≡ self.now.state.entries }
        ensures marks { result.now.contents.marks ≡ self.now.state.marks }
    {
        self.state.table()
    }

    /// How many locks stand in the table. Where it is none, and no cell is marked, the table is quiet.
    pub fn locks(&self) -> usize
        ensures count { result ≡ lock_count self.now.state.entries }
        ensures quiet { TellsQuiet self.now.state }
    {
        quiet_is_counted();
        self.state.locks()
    }

    /// How many cells are marked.
    pub fn marks(&self) -> usize
        ensures { result ≡ map.len self.now.state.marks }
    {
        self.state.marks()
    }

    // A step with what it needs, or why its call is refused: of the reasons that apply, the one with the lowest number.
    fn admit<'s>(&self, seat: u32, step: &'s Step) -> Result<Admitted<'s>, Reason>
        ensures reason { result_err result ≡ call_reason self.now seat step.now }
        ensures step { IfOk result (λ a. step_admitted a ≡ step.now) }
        ensures admitted { IfOk result (λ a. Admits self.now.state seat a) }
    {
        // 44 lies between the state's own numbers, so that it is returned before those above it.
        let is_full = self.journal.len() == self.limit;
        match self.state.admit(seat, step) {
            Ok(admitted) => {
                if is_full {
                    Err(Reason::JournalFull)
                } else {
                    Ok(admitted)
                }
            }
            Err(reason) => {
                if is_full && Reason::JournalFull.code() < reason.code() {
                    Err(Reason::JournalFull)
                } else {
                    Err(reason)
                }
            }
        }
    }

    /// Takes one step for a seat, and adds its one entry to the journal, to the seat's book and to the seat's list.
    ///
    /// The numbers 40 to 47 and 49 come before any growth; 1 comes only where a growth was refused. Refused, it leaves the
    /// table and the seat as they were. 44 comes exactly where the journal has as many entries as its limit. The journal that
    /// it is called on is legal.
    #[tactic(auto, using(pb_history::proofs::StepsCanAnswer::steps_answer))]
    pub fn call(&mut self, seat: &mut Seat, step: &Step) -> Result<Answer, Refusal>
        ensures refused { (r : _) → call_reason self.old seat.old.number step.now ≡ Some r
            → result ≡ Err (refusal_by r) }
        ensures allowed { call_reason self.old seat.old.number step.now ≡ None
            → IfErr result (λ r. r ≡ memory_refusal) }
        ensures taken { IfOk result (λ a. Calls self.old seat.old step.now a self.new seat.new) }
        ensures legal { IsLegalTable self.old }
        ensures can { IfOk result (λ a. CanAnswer step.now a) }
        ensures table { OnErr result (self.new ≡ self.old) }
        ensures seat { OnErr result (seat.new ≡ seat.old) }
    {
        // For the proof: the journal is legal.
        self.known();
        match self.admit(seat.number, step) {
            Ok(admitted) => Ok(self.keep(seat, step, &admitted)?),
            Err(reason) => Err(reason.refusal()),
        }
    }

    // All growths come before the first change, so that a refused one leaves table and seat as they
    // were, and what was admitted holds when the step is taken. The step is copied for each of both
    // lists, since one copy shared through a pointer would take more memory than two.
    fn keep(
        &mut self,
        seat: &mut Seat,
        step: &Step,
        admitted: &Admitted<'_>,
    ) -> Result<Answer, NoMemory>
        requires allowed { call_reason self.old seat.old.number step.now ≡ None }
        requires step { step_admitted admitted.now ≡ step.now }
        requires admitted { Admits self.old.state seat.old.number admitted.now }
        ensures taken { IfOk result (λ a. Calls self.old seat.old step.now a self.new seat.new) }
        ensures table { OnErr result (self.new ≡ self.old) }
        ensures seat { OnErr result (seat.new ≡ seat.old) }
    {
        let number = seat.number;
        let place = self.journal.len() as u32;
        let book = &mut self.books[number as usize];
        make_rooms(&mut self.journal, &mut book.places, &mut seat.received)?;
        seat.journal_room.make()?;
        seat.room.make()?;
        let kept = step.copy()?;
        let told = step.copy()?;
        let answer = self.state.take_admitted(number, admitted)?;
        append(&mut book.places, place);
        let entry = entry_of(number, kept, &answer, &mut seat.journal_room);
        append(&mut self.journal, entry);
        let received = received_of(told, &answer, &mut seat.room);
        append(&mut seat.received, received);
        Ok(answer)
    }
}
