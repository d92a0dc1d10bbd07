//! The words of a command line: pairs of a name and a value, and numbers.
#![tactic(auto)]

mod numbers;
mod options;

pub use numbers::number;
pub use options::Pairs;
