//! The exports for C: a static library, with `percobpf_api.h` as its header. Each export is a function of
//! `pb_api` under a name of C, which says what it answers.
//!
//! **Pointers.** Nothing checks C: a pointer isn't null, also where its length is 0, as many bytes as its length says may be
//! read there, and `out` overlaps no other argument. The header has a macro for each function, which passes an address where
//! the caller's pointer is null and its length 0.
#![tactic(auto)]

mod check;
mod replay;
mod run;
mod texts;
