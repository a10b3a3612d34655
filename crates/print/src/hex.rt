// The hexadecimal digits of a number, eight at once in the bytes of a word.
ghost use Rattle.std.specs.Prelude.{◌≡◌};
ghost use Rattle.print.specs.Print.{hex_text};

// The lower digit of each of four bytes, 16 bits apart.
const LOW_DIGITS: u64 = 0x000f_000f_000f_000f;

// In each byte six, which makes a digit from ten on sixteen or more.
const SIXES: u64 = 0x0606_0606_0606_0606;

// In each byte that sixteen.
const SIXTEENS: u64 = 0x1010_1010_1010_1010;

// In each byte the character 0.
const ZEROS: u64 = 0x3030_3030_3030_3030;

// How far a stands behind the character that follows 9.
const LETTERS: u64 = 39;

// The last eight hexadecimal digits of n: its last four bytes are put 16 bits apart, the first lowest, each is parted into its two
// digits, and all digits become characters. The eight bytes of the last word are stored together.
// docs/PROMISES.md names it with the edit of its letters; digit by digit an answer's line took 35 instructions more, a map's row 45.
pub(crate) fn hex_digits(n: u64) -> [u8; 8]
    ensures { result ≡ hex_text 8 n }
{
    let first = n / 0x100_0000 % 256 + n / 0x1_0000 % 256 * 0x1_0000;
    let second = n / 0x100 % 256 + n % 256 * 0x1_0000;
    let bytes = first + second * 0x1_0000_0000;
    let low = bytes & LOW_DIGITS;
    let digits = (bytes - low) / 16 + low * 256;
    let letters = ((digits + SIXES) & SIXTEENS) / 16;
    let word = digits + ZEROS + LETTERS * letters;
    word.to_le_bytes()
}
