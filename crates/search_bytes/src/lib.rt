// The board's bytes as words of bits, set where the byte is 0.
#![tactic(auto)]

ghost use Rattle.std.specs.Prelude.{◌≡◌, ◌+◌, ◌≤◌, ◌<◌, length, fold, bit_or};
ghost use Rattle.search_bytes.specs.Words.{free_bit, free_word, word_of_bytes, held_of, exchanged, turned_of};

fn free_bit(b: u8) -> u64
    ensures value { result ≡ free_bit b }
    ensures upper_bound { result ≤ 1 }
{
    u64::from(board_sorts::is_free_byte(b))
}

// The bytes as bits: set where the byte is 0.
fn free_bits(bytes: &[u8]) -> u64
    requires { length bytes.now ≤ 64 }
    ensures { result ≡ free_word bytes.now }
{
    let mut word: u64 = 0;
    for i in (0..bytes.len()).rev() {
        word = word * 2 + free_bit(bytes[i]);
    }
    word
}

// The union of 64 bytes: 0 only if each byte is 0. It reads all of them, with no early exit, so that the compiler takes many at once.
fn bytes_union(bytes: &[u8; 64]) -> u8
    ensures { result ≡ fold bit_or 0 bytes.now }
{
    bytes.iter().fold(0, |all, byte| all | byte)
}

// ---- 64 bytes at once, eight at a time

// The eight bytes from `p` on as one number, the first one lowest.
fn load_eight(bytes: &[u8; 64], p: usize) -> u64
    requires { p + 8 ≤ 64 }
    ensures { result ≡ word_of_bytes bytes.now p 8 }
{
    u64::from_le_bytes([
        bytes[p],
        bytes[p + 1],
        bytes[p + 2],
        bytes[p + 3],
        bytes[p + 4],
        bytes[p + 5],
        bytes[p + 6],
        bytes[p + 7],
    ])
}

// The highest bit of each byte of x that is not 0.
fn held_eight(x: u64) -> u64
    ensures { result ≡ held_of x }
{
    let low: u64 = 0x7f7f_7f7f_7f7f_7f7f;
    (((x & low) + low) | x) & 0x8080_8080_8080_8080
}

// Exchanges the bits of x that the mask has with those that stand k higher.
fn exchange(x: u64, k: u64, mask: u64) -> u64
    requires { k < 64 }
    ensures { result ≡ exchanged k mask x }
{
    let t = (x ^ (x >> k)) & mask;
    (x ^ t) ^ (t << k)
}

// Bit i of byte j becomes bit j of byte i.
fn turn(x: u64) -> u64
    ensures { result ≡ turned_of x }
{
    let y = exchange(x, 7, 0x00aa_00aa_00aa_00aa);
    let z = exchange(y, 14, 0x0000_cccc_0000_cccc);
    exchange(z, 28, 0xf0f0_f0f0)
}

// The same bits as `free_bits` gives.
fn free_all(bytes: &[u8; 64]) -> u64
    ensures { result ≡ free_word bytes.now }
{
    let mut x: u64 = 0;
    for j in 0..8 {
        x = (x >> 1) | held_eight(load_eight(bytes, 8 * j));
    }
    !turn(x)
}

// At most 64 bytes of the board as bits: set where the byte is 0. Most boards have many words of free ticks alone.
pub fn free_word(bytes: &[u8]) -> u64
    requires { length bytes.now ≤ 64 }
    ensures { result ≡ free_word bytes.now }
{
    let Some(all) = bytes.first_chunk::<64>() else {
        return free_bits(bytes);
    };
    if bytes_union(all) == 0 {
        return u64::MAX;
    }
    free_all(all)
}
