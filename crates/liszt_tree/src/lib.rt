//! The tree of a program, and the definitions of the plain tree that it denotes and of its canonical text.
#![tactic(auto)]

mod cases;
pub mod laws;
mod nodes;
mod print;
mod print_expression;
mod tree;
mod words;

pub use print::print_tree;
pub use tree::{
    Expr, Fun, How, Item, ItemList, Level, Link, LinkList, Name, Program, Rel, Sign, Stmt, StmtList,
};
