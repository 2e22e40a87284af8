//! The manifest: which observers there are, each with an accepted program.
//!
//! It is the door by which foreign programs come in: past it each is an `Accepted`, so that
//! nothing above judges one again. It stands below table and workers, which take its observers as
//! they are; `pb_driver` calls it for manifests, and `pb_files` to judge a program alone. Observers
//! are read in order, with distinct names, each program accepted with its own helpers and for its
//! own change record. Else the first fault is returned: that of the whole, or the first observer's,
//! by its lowest code. So of two observers both named `copy` the second is reported, as
//! `observer 1 code 53`, whatever else is wrong with it.
#![tactic(auto)]

mod accepting;
mod code;
mod fault;
mod form;
mod listing;
mod manifest;
mod observer;

pub use accepting::{accept, accept_in};
pub use fault::RegistryFault;
pub use manifest::Registry;
