use liszt_base::{ByteList, Kind, Op, Place, SetName};
use sqlite_items::{Boxed, Items};

/// The bytes of a name.
pub type Name = ByteList;

/// The items of a main program, or of a block in it.
pub type ItemList = Items<Item>;

/// The statements of a body, or of a block in it.
pub type StmtList = Items<Stmt>;

/// The operands of a chain after the first.
pub type LinkList = Items<Link>;

/// A program: the items of its main part.
#[derive(Debug, Drop)]
pub struct Program {
    pub items: ItemList,
}

/// A statement of the main program. `place` is that of its first word, `at` that of the name.
#[derive(Debug, Drop)]
pub enum Item {
    Field {
        place: Place,
        name: Name,
        at: Place,
        kind: Kind,
        init: Expr,
    },
    Var {
        place: Place,
        name: Name,
        at: Place,
        init: Expr,
    },
    Assign {
        place: Place,
        name: Name,
        how: How,
        value: Expr,
    },
    If {
        place: Place,
        test: Expr,
        yes: ItemList,
        no: ItemList,
        has_else: bool,
    },
    While {
        place: Place,
        test: Expr,
        body: ItemList,
    },
    For {
        place: Place,
        name: Name,
        at: Place,
        over: Kind,
        body: StmtList,
    },
    Print {
        place: Place,
        value: Expr,
    },
}

/// A statement of the body of a comprehension, with places as in `Item`; `set_at` is that of the word of the set.
#[derive(Debug, Drop)]
pub enum Stmt {
    Var {
        place: Place,
        name: Name,
        at: Place,
        init: Expr,
    },
    Val {
        place: Place,
        name: Name,
        at: Place,
        init: Expr,
    },
    Assign {
        place: Place,
        name: Name,
        target: Option<Expr>,
        how: How,
        value: Expr,
    },
    If {
        place: Place,
        test: Expr,
        yes: StmtList,
        no: StmtList,
        has_else: bool,
    },
    While {
        place: Place,
        test: Expr,
        body: StmtList,
    },
    For {
        place: Place,
        name: Name,
        at: Place,
        set: SetName,
        set_at: Place,
        arg: Expr,
        body: StmtList,
    },
}

/// The operator of an assignment: `=`, a reduction, or `-=`.
#[derive(Clone, Copy, Debug, PartialEq, Eq)]
pub enum How {
    Set,
    Fold(Op),
    Less,
}

/// An expression. Its place is that of the first word; of a prefix operator and of a comparison, that of the operator; of a chain,
/// that of the first link.
#[cycle(tree)]
#[derive(Debug, Drop)]
pub enum Expr {
    Number {
        place: Place,
        value: i64,
    },
    Name {
        place: Place,
        name: Name,
    },
    Field {
        place: Place,
        name: Name,
        arg: Boxed<Expr>,
    },
    Call {
        place: Place,
        fun: Fun,
        arg: Boxed<Expr>,
    },
    Towards {
        place: Place,
        arg: Boxed<Expr>,
        to: Boxed<Expr>,
    },
    Neg {
        place: Place,
        arg: Boxed<Expr>,
    },
    Not {
        place: Place,
        arg: Boxed<Expr>,
    },
    Chain {
        level: Level,
        first: Boxed<Expr>,
        rest: LinkList,
    },
    Compare {
        place: Place,
        rel: Rel,
        left: Boxed<Expr>,
        right: Boxed<Expr>,
    },
}

/// An operand of a chain after the first, with the operator before it and the place of the operator.
#[cycle(tree)]
#[derive(Debug, Drop)]
pub struct Link {
    pub op: Sign,
    pub place: Place,
    pub arg: Expr,
}

/// The functions of one element.
#[derive(Clone, Copy, Debug, PartialEq, Eq)]
pub enum Fun {
    Head,
    Tail,
    Inside,
    Outside,
    Flip,
    Valid,
    Id,
}

/// The levels of chains, the weakest first.
#[derive(Clone, Copy, Debug, PartialEq, Eq)]
pub enum Level {
    Or,
    And,
    Sum,
    Product,
}

/// The operators of chains.
#[derive(Clone, Copy, Debug, PartialEq, Eq)]
pub enum Sign {
    Or,
    And,
    Plus,
    Minus,
    Times,
    Over,
    Rest,
}

/// The comparisons `== != < <= > >=`.
#[derive(Clone, Copy, Debug, PartialEq, Eq)]
pub enum Rel {
    Same,
    Other,
    Below,
    AtMost,
    Above,
    AtLeast,
}
