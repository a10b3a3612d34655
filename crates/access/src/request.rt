// What a register access asks of a block's port.
#[derive(Clone, Copy)]
pub struct Request {
    pub offset: u32,
    pub write: bool,
    // The word to be written; a read has one too, which means nothing. It is no Option: document 01 and each script line give a read its data
    // too, and C's `rif_register` has it.
    pub value: u32,
    pub secure: bool,
    pub privileged: bool,
}
