//! What the main seat makes of what workers left.
use pb_base::{Cell, Column, ObserverNo, Row};
use pb_core::{Seat, Shared};
use pb_steps::Step;
use pb_store::Tablet;

// The number that a step of the main seat is refused with, or 0 where it is answered.
fn code_of_call<T: Tablet>(shared: &mut Shared<T>, seats: &mut Vec<Seat>, step: &Step) -> u8 {
    let Some(main) = seats.first_mut() else {
        return 41;
    };
    match shared.call(main, step) {
        Ok(_) => 0,
        Err(refusal) => refusal.code(),
    }
}

// Settles the primaries of a change of cells 7 1, 7 0 and 1000 0 and of the runs on the last two, and clears the cells that the
// three write.
fn steps() -> Option<[Step; 7]> {
    let (zero, one) = (Column::new(0)?, Column::new(1)?);
    let copy = ObserverNo::new(0)?;
    Some([
        Step::Settle(Cell::Data(Row(7), one)),
        Step::Settle(Cell::Ack(copy, Row(7), zero)),
        Step::Settle(Cell::Ack(copy, Row(1000), zero)),
        Step::Clear(Cell::Data(Row(7), zero)),
        Step::Clear(Cell::Data(Row(1000), zero)),
        Step::Clear(Cell::Data(Row(7), one)),
        Step::Clear(Cell::Data(Row(1000), one)),
    ])
}

/// Whether the main seat's calls were printed, each with the number that it is refused with, or 0.
pub fn is_clearing_told<T: Tablet>(
    rt: &HostRuntime,
    shared: &mut Shared<T>,
    seats: &mut Vec<Seat>,
) -> Option<bool> {
    let steps = steps()?;
    print!(rt; "cleared").ok()?;
    for step in &steps {
        let code = code_of_call(shared, seats, step);
        print!(rt; " {code}").ok()?;
    }
    Some(println!(rt; "").is_ok())
}
