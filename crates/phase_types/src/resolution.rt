use liszt_base::Kind;
use resolved_code::{ElementCode, NumberCode, NumberLink, TruthCode, TruthLink};
use sqlite_items::Items;

/// What a visible name denotes: a field by its number, with the kind of its elements; a scalar of the main program by its number; a
/// local number by its slot; or an element by its slot, with its kind.
#[derive(Clone, Copy)]
pub enum Resolution {
    Field { field: u32, kind: Kind },
    Scalar { scalar: u32 },
    Number { slot: u32 },
    Element { slot: u32, kind: Kind },
}

/// A resolved expression by its type; an element with its kind.
#[derive(Drop)]
pub enum TypedCode {
    Number { code: NumberCode },
    Truth { code: TruthCode },
    Element { kind: Kind, code: ElementCode },
}

/// The operands of a chain so far. Elements have no operator.
#[derive(Drop)]
pub enum ChainCode {
    Numbers {
        first: NumberCode,
        rest: Items<NumberLink>,
    },
    Truths {
        first: TruthCode,
        rest: Items<TruthLink>,
    },
    Element {
        kind: Kind,
        code: ElementCode,
    },
}
