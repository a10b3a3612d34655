// The whole device: its state in the caller's memory, and what an event does to it.
#![tactic(auto)]

pub mod applied;
mod blocks;
mod controller;
pub mod encoded;
pub mod event;
mod flags;
mod guards;
pub mod layout;
mod memory;
mod part_words;
mod peripherals;
mod registers;
mod reset;

pub use applied::{
    apply, apply_master, apply_memory, apply_peripheral, apply_register, apply_reset,
    interrupt_line,
};
pub use encoded::{master_encoded, memory_encoded};
pub use event::{
    Block, Event, MasterAccess, MemoryAccess, Operation, PeripheralAccess, RegisterAccess,
};
pub use layout::{STATE_WORDS, region_words};
