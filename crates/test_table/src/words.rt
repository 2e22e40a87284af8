//! The words of a step, from left to right.
use pb_accepted::Observer;
use pb_base::{Cell, Column, Content, ObserverNo, Row, Ts};

/// What is left of a step.
#[derive(Drop)]
pub struct Words<'a> {
    rest: &'a str,
}

impl<'a> Words<'a> {
    /// All words of a step.
    pub fn of(step: &'a str) -> Words<'a> {
        Words { rest: step }
    }

    /// Whether none is left.
    pub fn is_empty(&self) -> bool {
        self.rest.is_empty()
    }

    /// The next word, without a semicolon after it, and the empty one where none is left.
    pub fn next(&mut self) -> &'a str {
        let (word, rest) = match self.rest.split_once(' ') {
            Some(parts) => parts,
            None => (self.rest, ""),
        };
        self.rest = rest;
        match word.strip_suffix(';') {
            Some(word) => word,
            None => word,
        }
    }

    /// A timestamp.
    pub fn ts(&mut self) -> Option<Ts> {
        Some(Ts(self.next().parse::<u64>().ok()?))
    }

    /// A row.
    pub fn row(&mut self) -> Option<Row> {
        Some(Row(self.next().parse::<u64>().ok()?))
    }

    /// A column.
    pub fn column(&mut self) -> Option<Column> {
        Column::new(self.next().parse::<u8>().ok()?)
    }

    /// The number of the observer of this name.
    pub fn observer(&mut self, observers: &[Observer]) -> Option<ObserverNo> {
        let name = self.next();
        for (place, observer) in observers.iter().enumerate() {
            if observer.name.as_str() == name {
                return ObserverNo::new(u8::try_from(place).ok()?);
            }
        }
        None
    }

    /// A data cell, or after `ack` an acknowledgment.
    pub fn cell(&mut self, observers: &[Observer]) -> Option<Cell> {
        let word = self.next();
        if word == "ack" {
            let observer = self.observer(observers)?;
            let row = self.row()?;
            return Some(Cell::Ack(observer, row, self.column()?));
        }
        let row = Row(word.parse::<u64>().ok()?);
        Some(Cell::Data(row, self.column()?))
    }

    /// A deletion, or after `value` the digits of the first bytes, with zeros after them.
    pub fn content(&mut self) -> Option<Content> {
        if self.next() == "deleted" {
            return Some(Content::Deleted);
        }
        let digits = self.next();
        let mut value = [0; 32];
        let bytes = value.get_mut(..digits.len() / 2)?;
        hex::decode_to_slice(digits, bytes).ok()?;
        Some(Content::Value(value))
    }
}
