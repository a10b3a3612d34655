// The controller RIFSC: which peripherals are secure and privileged, and what each master carries.
#![tactic(auto)]

pub mod contents;
pub mod masters;
pub mod peripherals;
pub mod port;
pub mod registers;

pub use contents::Rifsc;
pub use masters::{Attributes, MASTERS, MasterNumber};
pub use peripherals::{Filter, PeripheralNumber};
pub use port::Seen;
pub use registers::{Lock, Register, Row, register_at};
