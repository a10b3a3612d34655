// Memory accesses one after another.
#![tactic(auto)]

pub mod batches;

pub use batches::batch;
