// The map of a guard in the caller's memory: who may do what at which offset.
#![tactic(auto)]

pub mod fill;
pub mod part;

pub use fill::answer;
pub use part::used_part;
pub use spans::lookup;
