#![tactic(auto, unfolding(crate::specs::Registers::region_at, crate::specs::Registers::sub_register, crate::specs::Registers::region_register, crate::specs::Registers::register_at))]

ghost use Rattle.std.specs.Prelude.{◌≡◌};
ghost use Rattle.risaf.specs.Registers.{region_at, region_register, register_at, sub_register};

// A register that is none of a region's.
#[derive(Clone, Copy)]
pub enum Head {
    Cr,
    Iasr,
    Iacr,
    Iaesr,
    Iaddr,
}

// A register of a base region, and of a subregion. Two, since the fourth differs and each row of the table does; one with the other's in
// it would need a case that cannot be.
#[derive(Clone, Copy)]
pub enum BaseField {
    Cfgr,
    Start,
    End,
    Cidcfgr,
}

#[derive(Clone, Copy)]
pub enum SubField {
    SubCfgr,
    SubStart,
    SubEnd,
    Nest,
}

// A register of a guard. The first index is the base region's, from 0; the second is 0 for subregion A and 1 for B.
#[derive(Clone, Copy)]
pub enum Register {
    OfHead(Head),
    OfBase(usize, BaseField),
    OfSub(usize, usize, SubField),
}

// The offsets that a base region's registers take.
const BLOCK: u32 = 0x40;

// The base region, from 0, whose block an offset lies in.
fn region_at(offset: u32) -> Option<usize>
    ensures { result ≡ region_at offset }
{
    match offset {
        0x040..=0x2ff => Some(((offset - 0x040) / BLOCK) as usize),
        _ => None,
    }
}

// The register at offset k of the part of subregion s of base region x.
fn sub_register(x: usize, s: usize, k: u32) -> Option<Register>
    ensures { result ≡ sub_register x s k }
{
    match k {
        0x0 => Some(Register::OfSub(x, s, SubField::SubCfgr)),
        0x4 => Some(Register::OfSub(x, s, SubField::SubStart)),
        0x8 => Some(Register::OfSub(x, s, SubField::SubEnd)),
        0xc => Some(Register::OfSub(x, s, SubField::Nest)),
        _ => None,
    }
}

// The register at offset k of the block of base region x.
fn region_register(x: usize, k: u32) -> Option<Register>
    ensures { result ≡ region_register x k }
{
    match k {
        0x0 => Some(Register::OfBase(x, BaseField::Cfgr)),
        0x4 => Some(Register::OfBase(x, BaseField::Start)),
        0x8 => Some(Register::OfBase(x, BaseField::End)),
        0xc => Some(Register::OfBase(x, BaseField::Cidcfgr)),
        0x10..=0x1f => sub_register(x, 0, k - 0x10),
        0x20..=0x2f => sub_register(x, 1, k - 0x20),
        _ => None,
    }
}

// The register at an offset that is a multiple of 4, of a guard with n base regions.
pub(crate) fn register_at(n: usize, offset: u32) -> Option<Register>
    ensures { result ≡ register_at n offset }
{
    match offset {
        0x000 => Some(Register::OfHead(Head::Cr)),
        0x008 => Some(Register::OfHead(Head::Iasr)),
        0x00c => Some(Register::OfHead(Head::Iacr)),
        0x020 => Some(Register::OfHead(Head::Iaesr)),
        0x024 => Some(Register::OfHead(Head::Iaddr)),
        _ => {
            let x = region_at(offset)?;
            if x < n {
                region_register(x, offset % BLOCK)
            } else {
                None
            }
        }
    }
}
