// The index of an illegal-access flag: a peripheral's own number, or that of a block of the firewall. Never a compartment's number.
#[derive(Clone, Copy)]
pub struct Flag(pub u32);
