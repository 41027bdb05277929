//! The tokens of a program's text: their types, the function that finds them, and the definitions of what a text's tokens
//! are, with their laws.
#![tactic(auto)]

mod cases;
mod cursor;
pub mod laws;
mod leading;
mod lexer;
mod shared;
#[cfg(test)]
mod tests;
mod token;

pub use lexer::{TokenList, tokens};
pub use token::{Token, TokenKind};
