//! The store as a plain machine: lists that are searched. It is the definitions' own program, and what
//! every faster body is compared with.
#![tactic(auto)]

pub mod answer;
pub mod booked;
mod booking;
pub mod call_refusal;
pub mod chronicle;
pub mod close_refusal;
pub mod content;
pub mod counter;
mod entries;
pub mod event;
pub mod frozen_block;
pub mod frozen_part;
pub mod item;
pub mod items;
pub mod laws;
pub mod leaf_source;
pub mod leaves_over;
pub mod machine;
mod pages;
pub mod phase;
pub mod plain_core;
pub mod request;
mod rules;
mod running;
pub mod seal_item;
mod sealing;
pub mod seals;
mod search;
pub mod shards;
mod tables;
mod writers;

pub use answer::Answer;
pub use booked::Booked;
pub use call_refusal::CallRefusal;
pub use chronicle::Chronicle;
pub use close_refusal::CloseRefusal;
pub use content::Content;
pub use counter::Counter;
pub use cp_bytes::OutOfMemory;
pub use event::Event;
pub use frozen_block::FrozenBlock;
pub use frozen_part::FrozenPart;
pub use item::Item;
pub use items::Items;
pub use leaf_source::LeafSource;
pub use leaves_over::LeavesOver;
pub use phase::Phase;
pub use plain_core::Core;
pub use request::Request;
pub use seal_item::SealItem;
pub use seals::Seals;
pub use shards::Shards;
