//! Room in lists, made before what may not be refused.
ghost use Rattle.std.specs.Prelude.{◌≡◌, ◌<◌, ◌++◌, ◌∷◌, [], OnOk, vec_len, vec_capacity};

use pb_base::NoMemory;

/// Makes room for one item more: for a few in all while there are fewer, since mostly there are no more, and beyond
/// that in steps that grow, so that long lists don't move with each item.
pub(crate) fn make_room<X>(list: &mut Vec<X>, few: usize) -> Result<(), NoMemory>
    ensures items { list.new.items ≡ list.old.items }
    ensures room { OnOk result (vec_len list.new < vec_capacity list.new) }
{
    let len = list.len();
    if len < few {
        list.reserve_exact(few - len)?;
    } else {
        list.reserve(1)?;
    }
    Ok(())
}

/// Pushes where there is room, so that it can't be refused.
pub(crate) fn append<X: Drop>(list: &mut Vec<X>, item: X)
    requires { vec_len list.old < vec_capacity list.old }
    ensures { list.new.items ≡ list.old.items ++ item ∷ [] }
{
    list.push(item).unwrap();
}
