// The text of a line that the day program prints, three numbers in decimal digits, and what it prints at the script's end.
#![tactic(auto)]

ghost use Rattle.std.specs.Prelude.{◌≡◌, [], ◌∷◌, ◌++◌, ◌+◌, ◌≤◌, ◌<◌, length, take, drop};
ghost use Rattle.day_lines.specs.Counts.{IsPrefixLen};
ghost use Rattle.day_lines.specs.Digits.{last_digits, IsDigitCount};
ghost use Rattle.meaning.specs.Day.{decimal, text_of, texts, end_lines};

// The longest line has three numbers of 20 digits, two blanks and the line's end.
pub const LINE: usize = 64;

const BLANK: u8 = 32;

const LINE_END: u8 = 10;

// The digit 0.
const ZERO: u8 = 48;

// Writes a byte at `at`, and answers the place after it.
fn put_byte(line: &mut [u8], at: usize, byte: u8) -> usize
    requires { at < length line.old }
    ensures value { result ≡ at + 1 }
    ensures line_after { take result line.new ≡ take at line.old ++ (byte ∷ []) }
{
    line[at] = byte;
    at + 1
}

// Writes a number's digits at the front of `digits`, and answers how many there are: 0 has one.
// By hand: nothing is allocated here, and std says what `write!` writes of a `String` alone.
fn decimal(n: u64, digits: &mut [u8; 20]) -> usize
    ensures prefix_len { IsPrefixLen result digits.new }
    ensures fewest { IsDigitCount 10 1 n result }
    ensures spelled { take result digits.new ≡ last_digits 10 result n }
{
    if n < 10 {
        digits[0] = ZERO + n as u8;
        return 1;
    }
    let before = decimal(n / 10, digits);
    digits[before] = ZERO + (n % 10) as u8;
    before + 1
}

// Copies the bytes to the front of `to`, and answers how many there are.
fn copy(from: &[u8], to: &mut [u8]) -> usize
    requires { length from.now ≤ length to.old }
    ensures value { result ≡ length from.now }
    ensures after { to.new ≡ from.now ++ drop (length from.now) to.old }
{
    to[..from.len()].copy_from_slice(from);
    from.len()
}

// Writes a number's digits at `at`, and answers the place after them.
fn put_number(line: &mut [u8], at: usize, n: u64) -> usize
    requires { at + 20 ≤ length line.old }
    ensures upper_bound { result ≤ at + 20 }
    ensures line_after { take result line.new ≡ take at line.old ++ decimal n }
{
    let mut digits = [0u8; 20];
    let count = decimal(n, &mut digits);
    at + copy(&digits[..count], &mut line[at..])
}

// Writes a line's text at the front of `line`, and answers its length.
pub fn write_line(line: &mut [u8; LINE], number: u64, edition: u64, arrival: u64) -> usize
    ensures prefix_len { IsPrefixLen result line.new }
    ensures line_after { take result line.new ≡ text_of (record { number = number; edition = edition; arrival = arrival }) }
{
    let number_end = put_number(line, 0, number);
    let edition_start = put_byte(line, number_end, BLANK);
    let edition_end = put_number(line, edition_start, edition);
    let arrival_start = put_byte(line, edition_end, BLANK);
    let arrival_end = put_number(line, arrival_start, arrival);
    put_byte(line, arrival_end, LINE_END)
}

// Writes what is printed at the script's end: a line if the first turn finds it, as the script is empty then. Answers its length.
pub fn write_end(line: &mut [u8; LINE], first: bool) -> usize
    ensures prefix_len { IsPrefixLen result line.new }
    ensures line_after { take result line.new ≡ texts (end_lines first) }
{
    if first {
        return write_line(line, 0, 0, 0);
    }
    0
}
