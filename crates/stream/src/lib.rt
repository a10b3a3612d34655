// A whole input, given in blocks of any size: its lines, one after the other, each obeyed and its text put out.
#![tactic(auto)]

mod blocks;
mod feeds;
mod kept;

pub use blocks::{Taken, take};
pub use kept::{Held, LINE_ROOM, finish, start};
