ghost use Rattle.std.specs.Prelude.{◌≡◌, ◌+◌, ◌≤◌, suc, length};
ghost use Rattle.script.specs.Places.{begins_at, ends_at, four_at};

// The most bytes of a line.
pub const LINE_MOST: usize = 64;

// The bytes that `four` takes.
const FOUR: usize = 4;

// Whether a field may end at that place.
pub(crate) fn ends(line: &[u8], place: usize) -> bool
    ensures { result ≡ ends_at line.now place }
{
    if place < line.len() {
        return line[place] == b'\t';
    }
    place == line.len()
}

// Four bytes as one number, the first the highest: the machine loads them at once.
pub(crate) fn four(line: &[u8], from: usize) -> u32
    requires { from + 4 ≤ length line.now }
    ensures { result ≡ four_at line.now from }
{
    0x100_0000 * (line[from] as u32)
        + 0x1_0000 * (line[from + 1] as u32)
        + 0x100 * (line[from + 2] as u32)
        + (line[from + 3] as u32)
}

// Whether the bytes from `from` on begin with a keyword, which has four bytes or more. Not `starts_with`: the must-fail edit `second`
// passes over a keyword's fifth byte here. Nor `==` of slices from `FOUR` on: that edit would cut a keyword of four bytes past its end.
pub(crate) fn begins(line: &[u8], from: usize, keyword: &[u8]) -> bool
    requires { (from ≤ suc (length line.now)) × (4 ≤ length keyword.now) × (length keyword.now ≤ 8) }
    ensures { result ≡ begins_at line.now from keyword.now }
{
    if line.len() < from + keyword.len() {
        return false;
    }
    if four(line, from) != four(keyword, 0) {
        return false;
    }
    for i in FOUR..keyword.len() {
        if line[from + i] != keyword[i] {
            return false;
        }
    }
    true
}
