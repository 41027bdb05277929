//! The parts of a mesh's cells, one for each rank: blocks of consecutive cells, or those of a parts file.
#![tactic(auto)]

mod block_list;
mod cases;
pub mod laws;
mod part_list;
mod parts_file;
mod shared;
#[cfg(test)]
mod tests;

pub use block_list::blocks;
pub use part_list::PartList;
pub use parts_file::read_parts;
