use crate::expressions::{NumberCode, TruthCode};
use crate::first_accesses::FirstAccesses;
use crate::statements::StatementCodes;
use liszt_base::{Kind, Place};
use liszt_tree::How;
use sqlite_items::Items;

/// A comprehension over the elements of a kind: the kinds of its element slots in their order, of which slot 0 is the element of
/// the iteration; the number of its number slots; its body; and its first access to each field and scalar that it accesses, in the
/// order of the text. The mode of the first access is that of all accesses to the same field or scalar.
#[derive(Debug, Drop)]
pub struct ComprehensionCode {
    pub over: Kind,
    pub elements: Items<Kind>,
    pub numbers: u32,
    pub body: StatementCodes,
    pub accesses: FirstAccesses,
}

/// The items of a main program, or of a block in it.
pub type ItemCodes = Items<ItemCode>;

/// A statement of the main program. A comprehension is at the index of its number in the list of comprehensions. The place of a
/// `while` and of a `print` is that of its first word.
#[cycle(items)]
#[derive(Debug, Drop)]
pub enum ItemCode {
    Field {
        field: u32,
        init: NumberCode,
    },
    Var {
        scalar: u32,
        init: NumberCode,
    },
    Assign {
        scalar: u32,
        how: How,
        value: NumberCode,
    },
    If {
        test: TruthCode,
        first: BlockCode,
        second: Option<BlockCode>,
    },
    While {
        place: Place,
        test: TruthCode,
        body: BlockCode,
    },
    For {
        comprehension: u32,
    },
    Print {
        place: Place,
        value: NumberCode,
    },
}

/// A block of the main program: its scope and its items.
#[cycle(items)]
#[derive(Debug, Drop)]
pub struct BlockCode {
    pub scope: u32,
    pub items: Items<ItemCode>,
}
