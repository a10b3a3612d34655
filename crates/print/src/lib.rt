// Answers and maps as text.
#![tactic(auto)]

mod hex;
mod print;

pub use print::{print_answer, print_bad, print_diff, print_end, print_guard, print_span};
