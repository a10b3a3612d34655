// The model for C: include/suthrain.h declares these functions, and says what each is for. A slice is C's pointer and count.
#![tactic(auto)]

pub mod batches;
pub mod events;
pub mod maps;
mod numbers;
