//! Which observers of a list stand in another one, and where: those of a table that stay with it.
ghost use Rattle.std.specs.Prelude.{◌≡◌, ◌+◌, ◌↔◌, None, Ok, Some, length, slice_get, IfNone, IfOk, IfSome, IsTrue};
ghost use Rattle.pb_generations.specs.Chosen.{AreChosen};
ghost use Rattle.pb_accepted.specs.Observers.{ObserverOf};
ghost use Rattle.pb_keeper.specs.Choosing.{IsOneOf, IsSplit, WhyNotChosen};

use pb_accepted::Observer;
use std::alloc::{AllocError, Global};

// Whether both have the same name, column and program.
fn is_same_observer(a: &Observer, b: &Observer) -> bool
    ensures { IsTrue result ↔ (a.now ≡ b.now) }
{
    a.name == b.name && a.column == b.column && a.program.is_same(&b.program)
}

// The first place at which the list has such an observer.
fn place_of(observers: &[Observer], one: &Observer) -> Option<usize>
    ensures some { IfSome result (λ p. slice_get observers.now p ≡ Some one.now) }
    ensures none { IfNone result (IsOneOf observers.now one.now → ⊥) }
{
    for (place, other) in observers.iter().enumerate() {
        if is_same_observer(other, one) {
            return Some(place);
        }
    }
    None
}

/// At which places of the first list the observers of the second one stand, each with the same name, column and program; none
/// if one of them isn't there, or two of them are the same.
pub fn places_of(
    alloc: Global,
    old: &[Observer],
    new: &[Observer],
) -> Result<Option<Vec<usize>>, AllocError>
    ensures chosen { IfOk result (λ o. IfSome o (λ places.
        AreChosen places.items old.now new.now)) }
    ensures none { result ≡ Ok None → WhyNotChosen old.now new.now }
{
    let mut places = Vec::with_capacity(alloc, new.len())?;
    for one in new {
        let Some(place) = place_of(old, one) else {
            return Ok(None);
        };
        if places.contains(&place) {
            return Ok(None);
        }
        places.push(place)?;
    }
    Ok(Some(places))
}

/// The observers of the second list that the first one has too, and the others, both in their order.
pub fn split_known(
    alloc: Global,
    old: &[Observer],
    new: Vec<Observer>,
) -> Result<(Vec<Observer>, Vec<Observer>), AllocError>
    ensures split { IfOk result (λ parts. IsSplit old.now new.items parts.0.items parts.1.items) }
    ensures as_many { IfOk result (λ parts.
        length parts.0.items + length parts.1.items ≡ length new.items) }
    ensures others { IfOk result (λ parts. (o : ObserverOf) → IsOneOf parts.1.items o
        → IsOneOf old.now o → ⊥) }
{
    let mut known = Vec::new(alloc);
    let mut others = Vec::new(alloc);
    for one in new {
        if place_of(old, &one).is_some() {
            known.push(one)?;
        } else {
            others.push(one)?;
        }
    }
    Ok((known, others))
}
