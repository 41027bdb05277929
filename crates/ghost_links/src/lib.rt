//! Links between ranks: packets that one thread posts and another takes, through words that both share. A seat has ends of links, and each
//! call is a fixed series of atomic steps under the link rule, without a lock and without waiting. `docs/CONCURRENCY.md` says what
//! that rule is.
#![tactic(auto)]

pub mod laws;
mod layout;
mod links;
mod packet;
mod rule;
mod shared;
mod view;

pub use links::{LinkId, LinkSeat, Links, PostAnswer, TakeAnswer};
pub use packet::Packet;
pub use rule::Script;
pub use view::{End, View};
