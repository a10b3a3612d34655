// Maps of rights in lent memory. A row, or span, is three numbers: start, end, rights.
#![tactic(auto)]

ghost use Rattle.std.specs.Prelude.{◌≡◌};
ghost use Rattle.spans.specs.Lookup.{lookup_in, row_place};
ghost use Rattle.spans.specs.Passed.{Ended, Passed};
ghost use Rattle.spans.specs.Put.{put_count, put_in};
ghost use Rattle.spans.specs.Sweep.{nearer};

// A row's numbers, and which is which.
pub const ROW_NUMBERS: usize = 3;

pub const START: usize = 0;

pub const END: usize = 1;

pub const RIGHTS: usize = 2;

const FOUR_ROWS: usize = 4 * ROW_NUMBERS;

// The place of the first row from `from` on that does not end before the offset, or the map's length where there is none, which `row_place`
// hands on as its definition has it; of a map, whose rows rise, such a row encloses the offset. Four rows a turn, whose tests the compiler lays out in a row: a lookup in 67 spans
// takes 128 instructions, 0.83 of C's, and by `map.chunks_exact(ROW_NUMBERS)` 307, 1.99 of C's, where the bar is 1.0.
fn end_place(map: &[u64], from: usize, offset: u64) -> usize
    requires { Passed map.now offset from }
    ensures { Ended map.now offset from result }
{
    let mut i = from;
    while FOUR_ROWS <= map.len() - i {
        for k in 0..4 {
            let row = i + ROW_NUMBERS * k;
            if offset <= map[row + END] {
                return row;
            }
        }
        i += FOUR_ROWS;
    }
    while ROW_NUMBERS <= map.len() - i {
        if offset <= map[i + END] {
            return i;
        }
        i += ROW_NUMBERS;
    }
    map.len()
}

// Where in the map the first row whose start and end enclose the offset begins, or the map's length where there is none: its definition,
// which docs/PROMISES.md names, has no Option. Each turn goes on from where the one before found an end, so no `for` counts them.
pub fn row_place(map: &[u64], offset: u64) -> usize
    ensures { result ≡ row_place map.now offset }
{
    let mut i = end_place(map, 0, offset);
    while i < map.len() {
        if map[i] <= offset {
            return i;
        }
        i = end_place(map, i + ROW_NUMBERS, offset);
    }
    map.len()
}

// The first row whose start and end enclose the offset, as a part of the map, or an empty part: document 01 asks for that, not an Option.
pub fn lookup(map: &[u64], offset: u64) -> &[u64]
    ensures { result.now ≡ lookup_in map.now offset }
{
    let i = row_place(map, offset);
    if i < map.len() {
        let next = i + ROW_NUMBERS;
        return &map[i..next];
    }
    &map[..0]
}

// One more span behind the first count rows of lent memory (C's own: no Vec), and how many rows there then are. The last row goes on to the span's end
// where its rights are the same, else the span is a row of its own. Without room for a row more nothing changes.
pub fn put(lent: &mut [u64], count: usize, start: u64, end: u64, rights: u64) -> usize
    ensures value { result ≡ put_count lent.old count rights }
    ensures lent_after { lent.new ≡ put_in lent.old count start end rights }
{
    if lent.len() / ROW_NUMBERS <= count {
        return count;
    }
    let i = ROW_NUMBERS * count;
    if 0 < count {
        let last = i - ROW_NUMBERS;
        if lent[last + RIGHTS] == rights {
            lent[last + END] = end;
            return count;
        }
    }
    lent[i + START] = start;
    lent[i + END] = end;
    lent[i + RIGHTS] = rights;
    count + 1
}

// The boundary where it lies between at and nearest, else nearest.
pub fn near(at: u64, boundary: u64, nearest: u64) -> u64
    ensures { result ≡ nearer at boundary nearest }
{
    if at < boundary {
        return boundary.min(nearest);
    }
    nearest
}
