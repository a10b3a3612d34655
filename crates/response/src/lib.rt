// A line of a script, obeyed: what it does to the state, and what it prints.
#![tactic(auto)]

mod line;
mod sheet;

pub use line::{RESPONSE_MOST, respond};
