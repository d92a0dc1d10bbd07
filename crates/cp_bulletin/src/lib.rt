//! The texts of the closed epochs: a board publishes them one after another, and readers see them without waiting.
//!
//! A `Reader` keeps a list of the texts that it has seen, which only grows. What a reader has met is the part of its list that was found on the board in an earlier call of the board's with this reader, and each such call takes only what is new.
#![tactic(auto)]

mod board;
mod contents;
mod epoch_refusal;
mod epoch_text;
mod published;
mod reader;
mod rule;

pub use board::Board;
pub use contents::Contents;
pub use epoch_refusal::EpochRefusal;
pub use epoch_text::EpochText;
pub use reader::Reader;
pub use std::alloc::AllocError as OutOfMemory;
