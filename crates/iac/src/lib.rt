// The illegal access controller IAC: flags, their enables, and the interrupt line as it is kept.
#![tactic(auto)]

pub mod contents;
pub mod flags;
pub mod held;
pub mod port;
pub mod registers;

pub use contents::Iac;
pub use flags::is_flag;
pub use held::{Held, fresh};
pub use port::Seen;
pub use registers::{Register, Row, register_at};
