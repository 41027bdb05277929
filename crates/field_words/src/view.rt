use std::collections::LinkedList;

/// What the rule knows of a seat: its own and its frozen words with their values, its share, and the number of its steps. No value
/// of this type is made.
pub struct View {
    pub own: LinkedList<(u32, i64)>,
    pub frozen: LinkedList<(u32, i64)>,
    pub share: u64,
    pub steps: u64,
}
