// One memory guard. Document 01 calls a RISAF a guard.
#![tactic(auto)]

pub mod contents;
pub mod guards;
pub mod memory;
pub mod port;
pub mod registers;
pub mod rows;

pub use contents::{GUARD_WORDS, Guard, HEAD_WORDS, IADDR, IAESR, IASR, REGIONS_WORDS};
pub use guards::{GUARD_COUNT, GUARD_NUMBERS, GuardNumber, Shape};
pub use memory::{Faults, memory_checked};
pub use port::{CAEF, Port, read};
pub use rows::{Row, row_at};
