//! Values behind places that threads enter in turn.
//!
//! A `Gate` has up to 16 places, a value in each. Who holds a `Seat` of the gate enters a place, has its value alone, and leaves it with that value. Other places go on meanwhile. A value stands for a history, a list of items that only grows, and contracts see of each seat which beginning of each place's history it has seen.
#![tactic(auto)]

mod apart;
mod gate;
mod held;
mod laws;
mod refused;
mod rule;
mod seat;
mod slots;
mod stands_for;
mod view;

pub use gate::Gate;
pub use held::Held;
pub use laws::own_items;
pub use refused::Refused;
pub use seat::Seat;
pub use stands_for::StandsFor;
pub use std::alloc::AllocError as OutOfMemory;
