ghost use Rattle.std.specs.Prelude.{[], ◌∷◌, ◌++◌, ◌≡◌, ◌+◌, ◌≤◌, ◌<◌, length};
ghost use Rattle.print.specs.Print.{
  answer_line,
  bad_line,
  diff_line,
  digits_of,
  end_line,
  guard_line,
  hex_text,
  label_line,
  span_line,
  width_of,
};
ghost use Rattle.print.specs.Writing.{bytes_with, place_with};
ghost use Rattle.print.specs.Parts.{Wrote};

use crate::hex::hex_digits;
use risaf::GuardNumber;

// Lines are put by hand, not by `Display` and `write!`: there is no heap, and a line is in lent bytes at its place, whole or not at all.
// `out` and `at`, and the same place back where there is no room, are in the clauses of the functions that docs/PROMISES.md names.

// Writes the bytes from `at` on. The place after them.
fn put(out: &mut [u8], at: usize, bytes: &[u8]) -> usize
    requires { at + length bytes.now ≤ length out.old }
    ensures { Wrote out.old at bytes.now out.new result }
{
    let end = at + bytes.len();
    out[at..end].copy_from_slice(bytes);
    end
}

// Writes the last `count` decimal digits of n, and the byte that ends them, from `at` on. The place after them.
fn put_digits(out: &mut [u8], at: usize, n: u64, count: usize, end: u8) -> usize
    requires { at + count < length out.old }
    ensures { Wrote out.old at (digits_of 10 count n ++ (end ∷ [])) out.new result }
{
    let mut m = n;
    for k in (0..count).rev() {
        out[at + k] = b'0' + (m % 10) as u8;
        m /= 10;
    }
    out[at + count] = end;
    at + count + 1
}

// Writes the last eight hexadecimal digits of n, and the byte that ends them, from `at` on. The place after them.
fn put_hex(out: &mut [u8], at: usize, n: u64, end: u8) -> usize
    requires { at + 9 ≤ length out.old }
    ensures { Wrote out.old at (hex_text 8 n ++ (end ∷ [])) out.new result }
{
    let a = put(out, at, &hex_digits(n));
    out[a] = end;
    a + 1
}

// The same with sixteen digits, which are twice eight.
fn put_rights(out: &mut [u8], at: usize, rights: u64, end: u8) -> usize
    requires { at + 17 ≤ length out.old }
    ensures { Wrote out.old at (hex_text 16 rights ++ (end ∷ [])) out.new result }
{
    let a = put(out, at, &hex_digits(rights / 0x1_0000_0000));
    put_hex(out, a, rights, end)
}

// Writes an answer's value, and the line feed, from `at` on. The place after them. Most values are a single digit.
fn put_value(out: &mut [u8], at: usize, value: u32) -> usize
    requires { at + 9 ≤ length out.old }
    ensures { Wrote out.old at (hex_text 8 value ++ (10 ∷ [])) out.new result }
{
    if value < 10 {
        let a = put(out, at, b"0000000");
        return put_digits(out, a, value as u64, 1, b'\n');
    }
    put_hex(out, at, value as u64, b'\n')
}

// How many decimal digits n has. With `ilog10`, which was proved too, a line of a mixed script takes 561 instructions, 1.61 of C's, where
// the bar is 1.6, and with this loop 505, 1.45 of C's.
fn width(n: u64) -> usize
    ensures { (result ≡ width_of n) × (result ≤ 20) }
{
    let mut m = n;
    let mut k = 1;
    while 10 <= m {
        m /= 10;
        k += 1;
    }
    k
}

// A label and a number.
fn print_labelled(out: &mut [u8], at: usize, label: &[u8], n: u64) -> usize
    ensures next { result ≡ place_with out.old at (label_line label.now n) }
    ensures bytes { out.new ≡ bytes_with out.old at (label_line label.now n) }
{
    let count = width(n);
    if out.len().saturating_sub(at) < label.len() + count + 1 {
        return at;
    }
    let a = put(out, at, label);
    put_digits(out, a, n, count, b'\n')
}

// Each function below writes a line from `at` on, with its line feed, and gives the place after it. Where there is no room,
// nothing is written, and the place is the same.

// `ans`, number, value.
pub fn print_answer(out: &mut [u8], at: usize, number: u64, value: u32) -> usize
    ensures next { result ≡ place_with out.old at (answer_line number value) }
    ensures bytes { out.new ≡ bytes_with out.old at (answer_line number value) }
{
    let count = width(number);
    if out.len().saturating_sub(at) < count + 14 {
        return at;
    }
    let a = put(out, at, b"ans\t");
    let b = put_digits(out, a, number, count, b'\t');
    put_value(out, b, value)
}

// The bytes of a line of a span.
const SPAN_LENGTH: usize = 40;

// `span`, start, end, rights. Of start and end the low 32 bits are printed.
pub fn print_span(out: &mut [u8], at: usize, start: u64, end: u64, rights: u64) -> usize
    ensures next { result ≡ place_with out.old at (span_line start end rights) }
    ensures bytes { out.new ≡ bytes_with out.old at (span_line start end rights) }
{
    if out.len().saturating_sub(at) < SPAN_LENGTH {
        return at;
    }
    let a = put(out, at, b"span\t");
    let b = put_hex(out, a, start, b'\t');
    let c = put_hex(out, b, end, b'\t');
    put_rights(out, c, rights, b'\n')
}

// `diff`, start, end, old, new, the count of bits that differ. Of start and end the low 32 bits are printed.
pub fn print_diff(
    out: &mut [u8],
    at: usize,
    start: u64,
    end: u64,
    old: u64,
    new: u64,
    count: u64,
) -> usize
    ensures next { result ≡ place_with out.old at (diff_line start end old new count) }
    ensures bytes { out.new ≡ bytes_with out.old at (diff_line start end old new count) }
{
    let digits = width(count);
    if out.len().saturating_sub(at) < digits + 58 {
        return at;
    }
    let a = put(out, at, b"diff\t");
    let b = put_hex(out, a, start, b'\t');
    let c = put_hex(out, b, end, b'\t');
    let d = put_rights(out, c, old, b'\t');
    let e = put_rights(out, d, new, b'\t');
    put_digits(out, e, count, digits, b'\n')
}

// The three lines of a label and a number: docs/PROMISES.md names each, so they stay beside `print_labelled`.

// `guard`, n.
pub fn print_guard(out: &mut [u8], at: usize, n: GuardNumber) -> usize
    ensures next { result ≡ place_with out.old at (guard_line n.0) }
    ensures bytes { out.new ≡ bytes_with out.old at (guard_line n.0) }
{
    print_labelled(out, at, b"guard\t", n.0 as u64)
}

// `end`, the count of spans.
pub fn print_end(out: &mut [u8], at: usize, count: u64) -> usize
    ensures next { result ≡ place_with out.old at (end_line count) }
    ensures bytes { out.new ≡ bytes_with out.old at (end_line count) }
{
    print_labelled(out, at, b"end\t", count)
}

// `bad`, the line's number.
pub fn print_bad(out: &mut [u8], at: usize, number: u64) -> usize
    ensures next { result ≡ place_with out.old at (bad_line number) }
    ensures bytes { out.new ≡ bytes_with out.old at (bad_line number) }
{
    print_labelled(out, at, b"bad\t", number)
}
