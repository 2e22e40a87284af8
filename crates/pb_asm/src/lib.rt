//! Programs as text, and back: the assembler that `asm` calls, and the listing that `dis` prints.
//! It stands apart, since no run needs a text: a manifest has bytes. `mov64 r0, 1` and `exit`, each
//! on a line of its own, are the text of a program of two instructions; with a second blank before
//! the `1` they are refused at line 1 with 81. Its contracts promise that a text is read, in a
//! profile, exactly if its lines but for empty ones and remarks are the listing of a program of
//! that profile. They also promise that any other text is refused at its first line at fault, with
//! the code of that fault.
#![tactic(auto)]

mod cuts;
mod fault;
mod line;
mod lines;
mod listing;
mod names;
mod operands;
mod text;

pub use listing::disassemble;
pub use pb_reading::TextFault as AsmFault;
pub use text::{
    assemble, assemble_in, fault_is_first, faults_are_told_where_they_are, listings_read_back,
    numbers_out_of_range_are_told, one_spelling, only_listings_are_read,
};
