//! Packed rows of unread events: a row that is long unread takes two or three bytes.
#![tactic(auto)]

mod adding;
mod block;
mod block_list;
mod blocks;
mod counting;
mod cutting;
mod difference;
mod marks;
mod packing;
mod rotating;
mod thread_rows;
mod threads;
mod unpacking;
mod walk;

pub use block::Block;
pub use blocks::Blocks;
