//! Texts of lines and words, as they are read: from left to right, up to the first fault. Assembler
//! texts, scripts and schedules are three formats of one kind. A line says one thing, or is empty
//! or a remark; its words stand with one blank between them, and a number has one spelling. For a
//! text that isn't read one fault is reported, that of its first line at fault. So `pb_asm` and
//! `pb_parse` cut lines, words and numbers by this crate, and state by its definitions what they
//! read and which fault they report. Its contracts promise that what is cut off a text is the first
//! of its lines or words, in the words of the standard library's `split`. They also promise that a
//! word is read as a number exactly if it is the number's digits without a zero before them. So the
//! line `put 7 0 2a` has the words `put`, `7`, `0` and `2a`; `7` is a number, `07` and `2a` are
//! none, and of a number up to 15, `16` is out of range.
#![tactic(auto)]

mod fault;
mod lines;
mod numerals;
mod words;

pub use fault::{LineFault, TextFault};
pub use lines::{first_line, is_skipped};
pub use numerals::{is_numeral, numeral_upto};
pub use words::{LineWords, first_word};
