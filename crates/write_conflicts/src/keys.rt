//! Spots as numbers, in the order of the spots.

ghost use Rattle.std.specs.Prelude.{◌≡◌, ◌≤◌, length};
ghost use Rattle.write_conflicts.specs.Internal.Rows.{spot_of, IsSetOf};

use liszt_base::Spot;

/// The bound of ids: a key is the field times this, plus the id.
const ID_BOUND: u64 = 4_294_967_296;

/// The key of a spot.
pub(crate) fn key(field: u32, id: u32) -> u64
    ensures { spot_of result ≡ record { field = field; id = id } }
{
    u64::from(field) * ID_BOUND + u64::from(id)
}

/// The spot of a key.
pub(crate) fn spot(key: u64) -> Spot
    ensures { result ≡ spot_of key }
{
    Spot {
        field: (key / ID_BOUND) as u32,
        id: (key % ID_BOUND) as u32,
    }
}

/// Sorts keys and removes repeated ones.
pub(crate) fn sort_keys(keys: &mut Vec<u64>)
    ensures set { IsSetOf keys.old.items keys.new.items }
    ensures bound { length keys.new.items ≤ length keys.old.items }
{
    keys.sort_unstable();
    keys.dedup();
}
