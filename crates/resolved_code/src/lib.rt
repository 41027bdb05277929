//! Resolved programs: each name is replaced by the number of the field or scalar or by the slot of a frame that it denotes, and
//! each expression has the type of what it gives. A field is a number: 0 to 4 are built in, and declared ones are numbered from
//! 6 on. Local numbers and elements are slots of the frame of a comprehension. Places remain where a trap can be.
#![tactic(auto)]

mod accesses;
mod expressions;
mod first_accesses;
mod items;
mod shared;
mod statements;

pub use accesses::{AccessAt, Subject};
pub use expressions::{
    Arithmetic, Connective, ElementCode, ElementFun, NumberCode, NumberLink, TruthCode, TruthLink,
};
pub use first_accesses::FirstAccesses;
pub use items::{BlockCode, ComprehensionCode, ItemCode, ItemCodes};
pub use statements::{StatementCode, StatementCodes};
