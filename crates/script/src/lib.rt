// A line of text as a command, and, from the crate `print`, answers, maps and what differs between maps as text.
#![tactic(auto)]

mod command;
mod events;
mod fields;
mod numbers;
mod reader;

pub use command::{Command, read_line};
pub use fields::LINE_MOST;
pub use print::{print_answer, print_bad, print_diff, print_end, print_guard, print_span};
