use crate::expressions::{ElementCode, NumberCode, TruthCode};
use liszt_base::{Place, SetName};
use liszt_tree::How;
use sqlite_items::Items;

/// The statements of a body, or of a block in it.
pub type StatementCodes = Items<StatementCode>;

/// A statement of the body of a comprehension. A slot is assigned where it is declared; no other declaration has it. The place of
/// a field is that of its name, of a `while` that of its first word, and of a `for` that of the word of the set.
#[derive(Debug, Drop)]
pub enum StatementCode {
    Var {
        slot: u32,
        init: NumberCode,
    },
    Val {
        slot: u32,
        init: ElementCode,
    },
    Local {
        slot: u32,
        how: How,
        value: NumberCode,
    },
    Scalar {
        scalar: u32,
        how: How,
        value: NumberCode,
    },
    Field {
        place: Place,
        field: u32,
        how: How,
        target: ElementCode,
        value: NumberCode,
    },
    If {
        test: TruthCode,
        first: StatementCodes,
        second: StatementCodes,
    },
    While {
        place: Place,
        test: TruthCode,
        body: StatementCodes,
    },
    For {
        slot: u32,
        set: SetName,
        place: Place,
        arg: ElementCode,
        body: StatementCodes,
    },
}
