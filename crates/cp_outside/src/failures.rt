//! Why a call of the outside was refused.

/// There is no memory left for what was asked: `AllocError` of std, under the name that the calls
/// of this project use.
pub use std::alloc::AllocError as OutOfMemory;

/// A call of the outside failed. It is answered only by a call in which the count of faults rose, or
/// stands at `u64::MAX`.
#[derive(Clone, Copy, Debug, PartialEq, Eq)]
pub struct Failed;
