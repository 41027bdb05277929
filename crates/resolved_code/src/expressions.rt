use liszt_base::Place;
use liszt_tree::Rel;
use sqlite_items::{Boxed, Items};

/// The functions of one element that give an element.
#[derive(Clone, Copy, Debug, PartialEq, Eq)]
pub enum ElementFun {
    Head,
    Tail,
    Inside,
    Outside,
    Flip,
}

/// An expression that gives an element, or nil. It cannot trap.
#[derive(Debug, Drop)]
pub enum ElementCode {
    Slot {
        slot: u32,
    },
    Call {
        fun: ElementFun,
        arg: Boxed<ElementCode>,
    },
    Towards {
        arg: Boxed<ElementCode>,
        to: Boxed<ElementCode>,
    },
}

/// The operators between numbers.
#[derive(Clone, Copy, Debug, PartialEq, Eq)]
pub enum Arithmetic {
    Plus,
    Minus,
    Times,
    Over,
    Rest,
}

/// An expression that gives a number. The place of a field is that of its name, of `Id` that of the call, and of `Neg` that of
/// the operator.
#[cycle(numbers)]
#[derive(Debug, Drop)]
pub enum NumberCode {
    Constant {
        value: i64,
    },
    Local {
        slot: u32,
    },
    Scalar {
        scalar: u32,
    },
    Field {
        place: Place,
        field: u32,
        arg: ElementCode,
    },
    Id {
        place: Place,
        arg: ElementCode,
    },
    Neg {
        place: Place,
        arg: Boxed<NumberCode>,
    },
    Chain {
        first: Boxed<NumberCode>,
        rest: Items<NumberLink>,
    },
}

/// An operand of a chain after the first, with the operator before it and the place of the operator.
#[cycle(numbers)]
#[derive(Debug, Drop)]
pub struct NumberLink {
    pub op: Arithmetic,
    pub place: Place,
    pub arg: NumberCode,
}

/// The operators between truth values.
#[derive(Clone, Copy, Debug, PartialEq, Eq)]
pub enum Connective {
    Or,
    And,
}

/// An expression that gives a truth value. `CompareElements` tests for equality, or for inequality if `is_equal` is false.
#[cycle(truths)]
#[derive(Debug, Drop)]
pub enum TruthCode {
    Valid {
        arg: ElementCode,
    },
    Not {
        arg: Boxed<TruthCode>,
    },
    Chain {
        first: Boxed<TruthCode>,
        rest: Items<TruthLink>,
    },
    CompareNumbers {
        rel: Rel,
        left: NumberCode,
        right: NumberCode,
    },
    CompareElements {
        is_equal: bool,
        left: ElementCode,
        right: ElementCode,
    },
}

/// An operand of a chain after the first, with the operator before it.
#[cycle(truths)]
#[derive(Debug, Drop)]
pub struct TruthLink {
    pub op: Connective,
    pub arg: TruthCode,
}
