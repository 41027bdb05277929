//! The parser: the tree of a text's tokens, or their fault; and the definitions of grammar, depth and faults, with their laws.
#![tactic(auto)]

mod cases;
mod choices;
mod expression;
mod fault_cases;
mod item;
mod kinds;
pub mod laws;
mod nesting;
mod operand;
mod parser;
mod program;
mod program_cases;
mod source;
mod statement;
mod tokens;
mod word_cases;

pub use parser::parse;
