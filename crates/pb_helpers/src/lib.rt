//! The helpers that a program may call, which arguments each accepts, what the program asks and is
//! answered, and the record of the change that it runs for. Verifier, machine, table and jobs all
//! know a program's asks and its record by these types, and the verifier takes its codes from here.
//! A program with `call 1` that is declared no read is refused with 30, and one whose R3 is a
//! number then with 31. Its contracts promise that arguments are judged by the rules, with the
//! lowest code reported, and that a change record has the bytes of its cell, version and
//! acknowledgment, 80 or 120 of them.
//!
//! RFC 9669 leaves helpers to the platform (section 4.3.1): these four, and the rules of their arguments, are the
//! project's own profile.
#![tactic(auto)]

mod arguments;
mod ask;
mod change;
mod code;
mod table;

pub use arguments::{
    argument_code, argument_codes_rise, stack_read_code, stack_write_code, unset_code,
};
pub use ask::{Ask, Reply};
pub use change::{Record, Version};
pub use code::RuleCode;
pub use table::HelperTable;
