use crate::layout::LinkLayout;
use std::collections::LinkedList;

/// An end of a link: the number of its next packet; whether it is busy; at a busy sending end the number of data words that it has put; and
/// the last turn word that was loaded there. No value of this type is made.
pub struct End {
    pub next: u64,
    pub busy: bool,
    pub put: u64,
    pub last: Option<u64>,
}

/// What the rule knows of a seat: the layout of the table, the script, its ends by their numbers, whether it was joined into another
/// seat, and the number of its steps. No value of this type is made.
pub struct View {
    pub layout: LinkLayout,
    pub script: LinkedList<LinkedList<LinkedList<u64>>>,
    pub ends: LinkedList<(u32, End)>,
    pub joined: bool,
    pub steps: u64,
}
