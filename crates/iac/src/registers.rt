#![tactic(auto, unfolding(crate::specs::Registers::iisr, crate::specs::Registers::register_at, crate::specs::Registers::row_of))]

ghost use Rattle.std.specs.Prelude.{◌≡◌, option_map};
ghost use Rattle.iac.specs.Registers.{iisr, register_at, row, row_of};

// A register of the illegal access controller, with its index.
#[derive(Clone, Copy)]
pub enum Register {
    Ier(usize),
    Isr(usize),
    Icr(usize),
    Iisr(usize),
}

// A register's row of the table: all that is fixed of it.
#[derive(Clone, Copy)]
pub struct Row {
    // Not write-only.
    pub readable: bool,
    // Not read-only.
    pub writable: bool,
    // Needs secure and privileged, to read also.
    pub guarded: bool,
    // The bits that read 1 whatever is stored, and the named bits.
    pub fixed: u32,
    pub named: u32,
}

// IISR0 to IISR5.
pub(crate) const FLAGS: [u32; words::BIT_WORDS] = [
    0xffff_ff7f,
    0x77ff_ffff,
    0x77df_f03b,
    0x0000_05ff,
    0x7bef_ffef,
    0x0000_0000,
];

// IISRx: which bits of IERx, ISRx and ICRx are named. Past the last there is none.
pub(crate) fn iisr(x: usize) -> u32
    ensures { result ≡ iisr x }
{
    words::word_at(FLAGS, x)
}

// The register at an offset that is a multiple of 4.
pub fn register_at(offset: u32) -> Option<Register>
    ensures { result ≡ register_at offset }
{
    Some(match offset {
        0x000..=0x017 => Register::Ier((offset / 4) as usize),
        0x080..=0x097 => Register::Isr(((offset - 0x080) / 4) as usize),
        0x100..=0x117 => Register::Icr(((offset - 0x100) / 4) as usize),
        0x36c..=0x383 => Register::Iisr(((offset - 0x36c) / 4) as usize),
        _ => return None,
    })
}

impl Row {
    fn of(readable: bool, writable: bool, guarded: bool, fixed: u32, named: u32) -> Self
        ensures { result ≡ row readable writable guarded fixed named }
    {
        Row {
            readable,
            writable,
            guarded,
            fixed,
            named,
        }
    }
}

impl Register {
    // The table of registers. In the order of the columns: readable, writable, guarded, bits that read 1, named bits.
    pub fn columns(self) -> Row
        ensures { result ≡ row_of self }
    {
        match self {
            Register::Ier(x) => Row::of(true, true, true, 0, iisr(x)),
            Register::Isr(x) => Row::of(true, false, true, 0, iisr(x)),
            Register::Icr(x) => Row::of(false, true, true, 0, iisr(x)),
            Register::Iisr(x) => Row::of(true, false, false, iisr(x), 0),
        }
    }

    // The row of a register, if there is one.
    #[inline(always)]
    pub fn row(reg: Option<Self>) -> Option<Row>
        ensures { result ≡ option_map row_of reg }
    {
        Some(reg?.columns())
    }
}
