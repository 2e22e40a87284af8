//! Conversations with the table: what is asked step by step, each step after the answer of the one before.
//!
//! A job is what asks ([`AsksSteps`]): a transaction's plan, a change, the run of an observer. Its value is where it stands, and
//! that names the step that is next. For example, a change that asks for its begin and is answered 1 has had the conversation
//! `Begin(Script) At(1)`, which is a beginning of the whole one.
//!
//! Above it stands what comes part after part (`IsOfParts`, `EndsIn`): the tries of a change, the runs on a cell, the marks of a
//! pass, the passes of a drain. Each of these is whole, or was cut off in a part. [`parts_are_cut`] holds of any parts
//! each of which may be cut.
#![tactic(auto)]

mod laws;

pub use laws::{
    AsksSteps, ComesInParts, answers_decide, beginnings_are_cut, conversations_are_cut,
    conversations_unfold, parts_are_cut,
};
