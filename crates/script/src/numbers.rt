ghost use Rattle.std.specs.Prelude.{◌≡◌, ◌+◌, ◌≤◌, ◌<◌, suc, drop, length, take};
ghost use Rattle.script.specs.Fields.{tab};
ghost use Rattle.script.specs.Places.{decimal_at, field_from};
ghost use Rattle.script.specs.Numbers.{either_of, hex_of, is_decimal, operation_of};

use crate::fields::{ends, four};
use device::Operation;

// The digits of a hexadecimal number.
const HEX_DIGITS: usize = 8;

// A hexadecimal number and the tab behind it.
pub(crate) const HEX_STEP: usize = HEX_DIGITS + 1;

// A letter and the tab behind it.
pub(crate) const LETTER_STEP: usize = 2;

// The most that a decimal number may be. Compared, not by `u32::try_from`: the must-fail edit `second` makes it one more.
const NUMBER_MOST: u64 = u32::MAX as u64;

// 1 in each of eight bytes.
const EACH: u64 = 0x0101_0101_0101_0101;

// All bits of the lower byte of each two, and of the lower two of each four.
const LOWER_BYTES: u64 = 0x00ff_00ff_00ff_00ff;

const LOWER_PAIRS: u64 = 0x0000_ffff_0000_ffff;

// Eight hexadecimal digits, all at once: each byte of `text` is a character, and each of `digits` the digit that it stands for, if its
// `letters` says rightly whether it is a letter. It does where the digit is below 16 and its own character is the one in `text`.
// Not `from_str_radix`, digit by digit: it reads a `+` and capitals too, which are bad (docs/PROMISES.md, the must-fail edit `first`).
fn hex(line: &[u8], from: usize) -> Option<u32>
    requires { from + 8 ≤ length line.now }
    ensures { result ≡ hex_of (take 8 (drop from line.now)) }
{
    let text = 0x1_0000_0000 * (four(line, from) as u64) + (four(line, from + 4) as u64);
    let letters = (text & 64 * EACH) >> 6;
    let digits = (text & 15 * EACH) + 9 * letters;
    if (digits & 240 * EACH) != 0 {
        return None;
    }
    let tens = ((digits + 6 * EACH) & 16 * EACH) >> 4;
    if digits + 48 * EACH + 39 * tens != text {
        return None;
    }
    let pairs = (digits + (digits >> 4)) & LOWER_BYTES;
    let fours = (pairs + (pairs >> 8)) & LOWER_PAIRS;
    Some(((fours + (fours >> 16)) % 0x1_0000_0000) as u32)
}

fn is_decimal(b: u8) -> bool
    ensures { result ≡ is_decimal b }
{
    (b'0' <= b) & (b <= b'9')
}

// ---- the reading of the field that starts at `from`: not methods of `Reader`, since docs/PROMISES.md names `decimal_at`, `operation_at`
// and, in fields.rt, `begins` as they are, and the others are like them

pub(crate) fn hex_at(line: &[u8], from: usize) -> Option<u32>
    requires { from ≤ suc (length line.now) }
    ensures { result ≡ hex_of (field_from line.now from) }
{
    if !ends(line, from + HEX_DIGITS) {
        return None;
    }
    hex(line, from)
}

// A decimal number without leading zeros. Not `parse`: it reads leading zeros and a `+` too, which are bad (docs/PROMISES.md, the must-fail
// edit `first`). The loop counts, since where the field ends is part of the result.
#[inline(always)]
pub(crate) fn decimal_at(line: &[u8], from: usize) -> Option<(u32, usize)>
    ensures { result ≡ decimal_at line.now from }
{
    if line.len() <= from {
        return None;
    }
    let first = line[from];
    if !is_decimal(first) {
        return None;
    }
    let mut n = (first - b'0') as u64;
    for i in from + 1..line.len() {
        let b = line[i];
        if b == b'\t' {
            return Some((n as u32, i));
        }
        if (n == 0) | !is_decimal(b) {
            return None;
        }
        n = 10 * n + (b - b'0') as u64;
        if NUMBER_MOST < n {
            return None;
        }
    }
    Some((n as u32, line.len()))
}

// The one letter or the other.
pub(crate) fn either_at(line: &[u8], from: usize, this: u8, that: u8) -> Option<bool>
    requires { (from ≤ suc (length line.now)) × (tab < this) × (tab < that) }
    ensures { result ≡ either_of this that (field_from line.now from) }
{
    if !ends(line, from + 1) {
        return None;
    }
    let b = line[from];
    if (b == this) | (b == that) {
        Some(b == this)
    } else {
        None
    }
}

// r, w or x.
pub(crate) fn operation_at(line: &[u8], from: usize) -> Option<Operation>
    requires { from ≤ suc (length line.now) }
    ensures { result ≡ operation_of (field_from line.now from) }
{
    if !ends(line, from + 1) {
        return None;
    }
    match line[from] {
        b'r' => Some(Operation::Read),
        b'w' => Some(Operation::Write),
        b'x' => Some(Operation::Fetch),
        _ => None,
    }
}
