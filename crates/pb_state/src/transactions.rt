//! Transactions, by their starts, and where to look for one.
ghost use Rattle.std.specs.Prelude.{◌≡◌, ◌<◌, MatchOption};
ghost use Rattle.pb_state.specs.Starts.{StartsRise, IsStartAt, IsNoStart};

use crate::admitted::TransactionAt;
use crate::room::{append, make_room};
use crate::transaction::Transaction;
use pb_base::{NoMemory, Ts};
use pb_store::{Edit, Table, Tablet};
use std::alloc::Global;
use std::marker::Model;

/// The transactions, under their starts. A list in order is enough, since starts only rise and a new one is pushed.
#[derive(Drop)]
pub(crate) struct Transactions {
    list: Vec<(u64, Transaction)>,
}

impl Model for Transactions {
    ghost use Rattle.pb_steps.specs.State.{Transactions, transactions_code};
    ghost use Rattle.std.specs.FinMap.{from_entries};
    ghost use Rattle.pb_state.specs.Starts.{StartsRise};

    ghost Value = { Transactions };

    ghost coded = { transactions_code };

    ghost view = { λ a. from_entries a.list.items };

    ghost invariant = { λ a. StartsRise a.list.items };
}

// Where a start would stand if starts rose evenly, since a report looks for all of them from the oldest on. It is a
// guess, and can be any number, since it is looked at before it is taken.
fn even_place(list: &[(u64, Transaction)], start: u64) -> usize {
    let (Some(first), Some(last)) = (list.first(), list.last()) else {
        return 0;
    };
    let whole = last.0.saturating_sub(first.0);
    let part = start.saturating_sub(first.0);
    if whole == 0 {
        return 0;
    }
    match part.checked_mul(list.len() as u64 - 1) {
        Some(product) => (product / whole) as usize,
        None => 0,
    }
}

// Where the transaction of a start stands.
fn place_of(list: &[(u64, Transaction)], start: u64) -> Option<usize>
    requires { StartsRise list.now }
    ensures { MatchOption result (IsNoStart list.now start) (IsStartAt list.now start) }
{
    let mut low = 0;
    let mut high = list.len();
    // Mostly it is the newest, since a step is mostly one of the transaction that began last.
    if high > 0 && list[high - 1].0 == start {
        return Some(high - 1);
    }
    let likely = even_place(list, start);
    if likely < high && list[likely].0 == start {
        return Some(likely);
    }
    while low < high {
        let middle = low + (high - low) / 2;
        let here = list[middle].0;
        if here == start {
            return Some(middle);
        }
        if here < start {
            low = middle + 1;
        } else {
            high = middle;
        }
    }
    None
}

impl Transactions {
    ghost use Rattle.std.specs.Prelude.{◌≡◌, ◌<◌, ℕ, OnOk, OnErr, Some, None};
    ghost use Rattle.std.specs.FinMap as map;
    ghost use Rattle.std.specs.Borrow.{sem};
    ghost use Rattle.pb_store.specs.Contents.{AreEdits, after_edits};
    ghost use Rattle.pb_steps.specs.State.{TransactionOf};
    ghost use Rattle.pb_state.specs.Admitted.{IsTransactionAt};
    ghost use Rattle.pb_state.specs.Lending.{LendsTransaction};

    pub(crate) fn new(alloc: Global) -> Transactions
        ensures { result ≡ map.empty }
    {
        Transactions {
            list: Vec::new(alloc),
        }
    }

    /// The transaction of a start, and where it stands.
    pub(crate) fn find(&self, start: Ts) -> Option<(TransactionAt, &Transaction)>
        ensures { MatchOption result (map.get self.now start.0 ≡ None)
            (λ f. (f.0.start ≡ start) × (map.get self.now start.0 ≡ Some f.1.now)
            × IsTransactionAt self.now f.0 f.1.now) }
    {
        match place_of(&self.list, start.0) {
            Some(place) => Some((TransactionAt { start, place }, &self.list[place].1)),
            None => None,
        }
    }

    /// The transaction that stands there, to change it.
    pub(crate) fn at_mut(&mut self, at: TransactionAt) -> &mut Transaction
        requires { (t : TransactionOf) × IsTransactionAt self.old at t }
        ensures* changed { sem 𝓛 (LendsTransaction self.entry at result) }
        ensures there { map.get self.old at.start.0 ≡ Some result.now }
    {
        &mut self.list[at.place].1
    }

    /// Adds one that began last.
    pub(crate) fn add(&mut self, start: Ts, transaction: Transaction) -> Result<(), NoMemory>
        requires { (s : ℕ) (t : TransactionOf) → map.get self.old s ≡ Some t → s < start.0 }
        ensures ok { OnOk result (self.new ≡ map.insert self.old start.0 transaction) }
        ensures err { OnErr result (self.new ≡ self.old) }
    {
        self.list.push((start.0, transaction))?;
        Ok(())
    }

    /// Adds one that began last and does the edits in the table, or neither.
    pub(crate) fn add_with<T: Tablet>(
        &mut self,
        start: Ts,
        transaction: Transaction,
        table: &mut Table<T>,
        edits: &[Edit],
    ) -> Result<(), NoMemory>
        requires last { (s : ℕ) (t : TransactionOf) → map.get self.old s ≡ Some t → s < start.0 }
        requires edits { AreEdits edits.now }
        ensures ok { OnOk result (self.new ≡ map.insert self.old start.0 transaction) }
        ensures applied { OnOk result (table.new.contents
            ≡ after_edits edits.now table.old.contents) }
        ensures err { OnErr result (self.new ≡ self.old) }
        ensures kept { OnErr result (table.new.contents ≡ table.old.contents) }
    {
        make_room(&mut self.list, 1)?;
        table.apply(edits)?;
        append(&mut self.list, (start.0, transaction));
        Ok(())
    }
}
