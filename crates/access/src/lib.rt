// What every block shares: how an access is asked, how it is answered, and in which order it is checked.
#![tactic(auto)]

pub mod accessed;
pub mod answer;
pub mod bus;
pub mod checks;
pub mod flag;
pub mod kind;
pub mod request;

pub use accessed::Accessed;
pub use answer::{Answer, Why};
pub use bus::Bus;
pub use checks::{Checks, PASSED};
pub use flag::Flag;
pub use kind::{Cid, DEBUGGER, Kind};
pub use request::Request;
