#![tactic(auto, unfolding(crate::specs::Guards::shape_at, crate::specs::Guards::shape_in))]

ghost use Rattle.std.specs.Prelude.{◌≡◌};
ghost use Rattle.risaf.specs.Guards.{low_bits, shape_at};

use access::{Bus, Flag};

// A guard's number; never a compartment's or a peripheral's number.
#[repr(C)]
#[derive(Clone, Copy)]
pub struct GuardNumber(pub u32);

// What a guard is: its place among the guards in rising number, its count of base regions, the size of its
// window and of its granule in bytes, the bus that it stands on, and its flag.
#[derive(Clone, Copy)]
pub struct Shape {
    pub place: usize,
    pub regions: usize,
    pub window: u64,
    pub granule: u32,
    pub bus: Bus,
    pub flag: Flag,
}

// How many guards there are, and a number that every guard's is below.
pub const GUARD_COUNT: usize = 17;

pub const GUARD_NUMBERS: u32 = 24;

// The bits of an offset within a granule. No guard has a granule of 0 bytes.
pub(crate) fn low_bits(granule: u32) -> u32
    ensures { result ≡ low_bits granule }
{
    if granule == 0 { 0 } else { granule - 1 }
}

impl Shape {
    fn of(place: usize, regions: usize, window: u64, granule: u32, bus: Bus, flag: u32) -> Self
        ensures { result ≡ record { place = place; regions = regions; window = window; granule = granule; bus = bus; flag = record { 0 = flag } } }
    {
        Shape {
            place,
            regions,
            window,
            granule,
            bus,
            flag: Flag(flag),
        }
    }
}

impl GuardNumber {
    // The table of guards, in rising number: place, base regions, window, granule, bus, flag.
    pub fn shape(self) -> Option<Shape>
        ensures { result ≡ shape_at self.0 }
    {
        match self.0 {
            1 => Some(Shape::of(0, 7, 0x4000_0000, 4096, Bus::Axi, 139)),
            2 => Some(Shape::of(1, 7, 0x10_0000, 4096, Bus::Axi, 140)),
            3 => Some(Shape::of(2, 7, 0x10_0000, 4096, Bus::Axi, 141)),
            4 => Some(Shape::of(3, 11, 0x1_0000_0000, 4096, Bus::Axi, 142)),
            5 => Some(Shape::of(4, 11, 0x1_0000_0000, 4096, Bus::Axi, 143)),
            6 => Some(Shape::of(5, 11, 0x1_0000_0000, 4096, Bus::Axi, 144)),
            7 => Some(Shape::of(6, 7, 409_600, 4096, Bus::Axi, 145)),
            8 => Some(Shape::of(7, 7, 262_144, 4096, Bus::Axi, 146)),
            9 => Some(Shape::of(8, 7, 131_072, 4096, Bus::Axi, 147)),
            11 => Some(Shape::of(9, 7, 0x1000_0000, 4096, Bus::Axi, 149)),
            12 => Some(Shape::of(10, 7, 0x1000_0000, 4096, Bus::Axi, 150)),
            13 => Some(Shape::of(11, 7, 0x1000_0000, 4096, Bus::Axi, 151)),
            14 => Some(Shape::of(12, 7, 0x1000_0000, 4096, Bus::Axi, 152)),
            15 => Some(Shape::of(13, 2, 4096, 4, Bus::Ahb, 153)),
            21 => Some(Shape::of(14, 7, 16_384, 512, Bus::Ahb, 155)),
            22 => Some(Shape::of(15, 7, 16_384, 512, Bus::Ahb, 156)),
            23 => Some(Shape::of(16, 3, 4096, 512, Bus::Ahb, 157)),
            _ => None,
        }
    }
}
