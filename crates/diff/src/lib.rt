// What differs between two maps of one guard, in the caller's memory. A row is five numbers: start, end, old, new, and the count of
// rights bits that differ.
#![tactic(auto)]

pub mod fill;
mod lent;
mod put;
mod walk;

pub use map::{answer, used_part};
