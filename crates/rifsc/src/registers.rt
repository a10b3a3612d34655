#![tactic(auto, unfolding(crate::specs::Registers::ppsr, crate::specs::Registers::register_at, crate::specs::Registers::row_of))]

ghost use Rattle.std.specs.Prelude.{◌≡◌, option_map};
ghost use Rattle.rifsc.specs.Registers.{ppsr, register_at, row, row_of};

// A register of the controller, with its index where it is one of several.
#[derive(Clone, Copy)]
pub enum Register {
    Cr,
    Seccfgr(usize),
    Privcfgr(usize),
    Rcfglockr(usize),
    Rimccr,
    Attr(usize),
    Ppsr(usize),
}

// What stops every write to a register: GLOCK of CR, GLOCK of RIMC_CR, or nothing. A column of the table: as an Option each row of it would
// say `Some` and be no plainer.
#[derive(Clone, Copy)]
pub enum Lock {
    Glock,
    RimcLock,
    Never,
}

// A register's row of the table: all that is fixed of it.
#[derive(Clone, Copy)]
pub struct Row {
    // Not read-only.
    pub writable: bool,
    // A write needs secure; every write needs privileged.
    pub secure: bool,
    pub lock: Lock,
    pub index: usize,
    // The bits that read 1 whatever is stored, and the named bits.
    pub fixed: u32,
    pub named: u32,
}

// GLOCK, of CR and of RIMC_CR; DAPCID and the constant of RIMC_CR; what ATTR has beside MCID, and with it.
pub(crate) const GLOCK: u32 = 0x0000_0001;

pub(crate) const DAPCID: u32 = 0x0000_0700;

const RIMC_CONSTANT: u32 = 0x0000_0010;

pub(crate) const ATTR_FLAGS: u32 = 0x0000_0300;

pub(crate) const ATTR_NAMED: u32 = 0x0000_0370;

// PPSR0 to PPSR5.
pub(crate) const PERIPHERALS: [u32; words::BIT_WORDS] = [
    0xffff_ff7f,
    0x77ff_ffff,
    0xf7df_f03b,
    0x0000_05ff,
    0xbbef_ffef,
    0x7dde_ef7f,
];

// PPSRx: which bits of SECCFGRx, PRIVCFGRx and RCFGLOCKRx are named. Past the last there is none.
pub(crate) fn ppsr(x: usize) -> u32
    ensures { result ≡ ppsr x }
{
    words::word_at(PERIPHERALS, x)
}

// The register at an offset that is a multiple of 4.
pub fn register_at(offset: u32) -> Option<Register>
    ensures { result ≡ register_at offset }
{
    Some(match offset {
        0x000 => Register::Cr,
        0x010..=0x027 => Register::Seccfgr(((offset - 0x010) / 4) as usize),
        0x030..=0x047 => Register::Privcfgr(((offset - 0x030) / 4) as usize),
        0x050..=0x067 => Register::Rcfglockr(((offset - 0x050) / 4) as usize),
        0xc00 => Register::Rimccr,
        0xc10..=0xc43 => Register::Attr(((offset - 0xc10) / 4) as usize),
        0xfb0..=0xfc7 => Register::Ppsr(((offset - 0xfb0) / 4) as usize),
        _ => return None,
    })
}

impl Row {
    // Of a register that can be written.
    fn of(secure: bool, lock: Lock, index: usize, fixed: u32, named: u32) -> Self
        ensures { result ≡ row secure lock index fixed named }
    {
        Row {
            writable: true,
            secure,
            lock,
            index,
            fixed,
            named,
        }
    }
}

impl Register {
    // The table of registers. In the order of the columns: a write needs secure, lock, index, bits that read 1, named bits.
    pub fn columns(self) -> Row
        ensures { result ≡ row_of self }
    {
        match self {
            Register::Cr => Row::of(true, Lock::Glock, 0, 0, GLOCK),
            Register::Seccfgr(x) => Row::of(true, Lock::Glock, x, 0, ppsr(x)),
            Register::Privcfgr(x) => Row::of(false, Lock::Glock, x, 0, ppsr(x)),
            Register::Rcfglockr(x) => Row::of(true, Lock::Glock, x, 0, ppsr(x)),
            Register::Rimccr => Row::of(true, Lock::RimcLock, 0, RIMC_CONSTANT, DAPCID | GLOCK),
            Register::Attr(m) => Row::of(true, Lock::RimcLock, m, 0, ATTR_NAMED),
            Register::Ppsr(x) => Row {
                writable: false,
                ..Row::of(true, Lock::Never, x, ppsr(x), 0)
            },
        }
    }

    // The row of a register, if there is one.
    #[inline(always)]
    pub fn row(reg: Option<Self>) -> Option<Row>
        ensures { result ≡ option_map row_of reg }
    {
        Some(reg?.columns())
    }
}
