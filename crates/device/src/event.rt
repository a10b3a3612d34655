use access::{Kind, Request};
use rifsc::{MasterNumber, PeripheralNumber};
use risaf::GuardNumber;

// The block whose registers are accessed.
#[derive(Clone, Copy)]
pub enum Block {
    Rifsc,
    Iac,
    Risaf(GuardNumber),
}

#[derive(Clone, Copy)]
pub struct RegisterAccess {
    pub block: Block,
    pub request: Request,
}

// What is done at a peripheral.
#[derive(Clone, Copy, PartialEq, Eq)]
pub enum Operation {
    Read,
    Write,
    Fetch,
}

#[derive(Clone, Copy)]
pub struct PeripheralAccess {
    pub peripheral: PeripheralNumber,
    pub operation: Operation,
    pub secure: bool,
    pub privileged: bool,
}

#[repr(C)]
#[derive(Clone, Copy)]
pub struct MemoryAccess {
    pub guard: GuardNumber,
    pub offset: u32,
    pub width: u32,
    pub kind: Kind,
}

// A memory access whose CID, security and privilege are those that the master carries.
#[derive(Clone, Copy)]
pub struct MasterAccess {
    pub master: MasterNumber,
    pub guard: GuardNumber,
    pub offset: u32,
    pub width: u32,
    pub write: bool,
}

// One event at a time is applied to the state.
#[derive(Clone, Copy)]
pub enum Event {
    Reset,
    Register(RegisterAccess),
    Peripheral(PeripheralAccess),
    Memory(MemoryAccess),
    Master(MasterAccess),
}
