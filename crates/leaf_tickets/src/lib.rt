//! Numbers that threads draw from one counter, each number once.
//!
//! A `LeafSeat` stands for one who draws. Contracts see the numbers that it has drawn and the
//! counter that it last found. Whoever closes the counter with all its seats knows that together
//! they drew each number once, and none was left out.
#![tactic(auto)]

mod leaf_seat;
mod leaves;
mod leaves_over;
mod rule;
mod view;

pub use leaf_seat::LeafSeat;
pub use leaves::Leaves;
pub use leaves_over::LeavesOver;
pub use std::alloc::AllocError as OutOfMemory;
