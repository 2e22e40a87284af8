//! The tablets of the program's table, and the spares that replace them: of two sorts, in turn. Programs alone know
//! which sorts there are, since the libraries over tablets are generic in them.
ghost use Rattle.std.specs.Prelude.{◌≡◌, ◌+◌, ◌/◌, ◌%◌, ◌∷◌, [], false, true, map, vec_len, IfOk};
ghost use Rattle.pb_memtablet.specs.Either.{is_slab_inside};
ghost use Rattle.pb_store.specs.TableOf.{firsts_of};
ghost use Rattle.percobpf.specs.Places.{is_slab, placed, spare_at, spares};

use pb_base::{NoMemory, Row};
use pb_memtablet::EitherTablet;
use std::alloc::Global;

// Whether the tablet at a place is a slab after so many swaps there: at first only the second one is, and each swap is with
// one of the other sort.
fn is_slab(place: usize, swaps: usize) -> bool
    ensures { result ≡ is_slab place swaps }
{
    if swaps % 2 == 0 {
        place == 1
    } else {
        place != 1
    }
}

// The spare of this number, with the place that it goes to: it is of the other sort than the tablet that it replaces there.
fn spare_at(alloc: Global, number: usize) -> (usize, EitherTablet)
    ensures { placed result ≡ spare_at number }
{
    let place = number % 2;
    (
        place,
        EitherTablet::new(alloc, is_slab(place, number / 2 + 1)),
    )
}

/// The first tablets: of the rows from 0 on a list, and of those from 1,000 on a slab.
pub fn first_tablets(alloc: Global) -> Result<Vec<(Row, EitherTablet)>, NoMemory>
    ensures rows { IfOk result (λ parts. firsts_of parts.items ≡ 0 ∷ 1000 ∷ []) }
    ensures sorts { IfOk result (λ parts.
        map (λ p. is_slab_inside p.1) parts.items ≡ false ∷ true ∷ []) }
{
    let mut parts = Vec::new(alloc);
    parts.push((Row(0), EitherTablet::new(alloc, is_slab(0, 0))))?;
    parts.push((Row(1000), EitherTablet::new(alloc, is_slab(1, 0))))?;
    Ok(parts)
}

/// So many spares, the first for the first place, the next for the second, and so on in turn, each of the other sort than the
/// one that it replaces there.
pub fn spares_for(alloc: Global, swaps: usize) -> Result<Vec<(usize, EitherTablet)>, NoMemory>
    ensures spares { IfOk result (λ v. map placed v.items ≡ spares swaps) }
    ensures count { IfOk result (λ v. vec_len v ≡ swaps) }
{
    let mut all = Vec::new(alloc);
    for number in 0..swaps {
        all.push(spare_at(alloc, number))?;
    }
    Ok(all)
}
