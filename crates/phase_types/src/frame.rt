use liszt_base::Kind;
use resolved_code::FirstAccesses;
use sqlite_items::Items;

/// The frame of a comprehension so far: the number of its number slots, the kinds of its element slots, and its first accesses to
/// fields and scalars. The main program has no accesses.
#[derive(Drop)]
pub struct Frame {
    pub numbers: u32,
    pub elements: Items<Kind>,
    pub accesses: Option<FirstAccesses>,
}
