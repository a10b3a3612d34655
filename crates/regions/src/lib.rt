// What the regions of a guard grant: the verdict on an access, the rights of all kinds of asking in one word, up to where they stay, and
// which base regions a sweep over them has to look at.
#![tactic(auto)]

mod active;
mod admits;
mod ahead;
mod lent;
mod masks;
pub mod places;
mod rights;
pub mod rules;
mod scan;
mod verdict;

pub use active::{Active, active_at};
pub use rights::{Stretch, rights_at, stretch_at};
pub use rules::decide;
pub use verdict::{Reason, Rule, Verdict};
