// The board as a whole: its length, the edition, who stands, and what is written.
#![tactic(auto)]

ghost use Rattle.std.specs.Prelude.{◌≡◌, cond, ◌&&◌, ◌+◌, ◌*◌, ◌<◌, ◌≤◌, eqb, length, replicate};
ghost use Rattle.meaning.specs.Limits.{horizon_limit, cell_limit, header, last_edition};
ghost use Rattle.meaning.specs.Board.{is_holder, edition, with_edition, next_edition, stands, clear};

// The bytes of the edition, which stand before those of the cells.
pub const HEADER: usize = 4;

// The edition after which no call changes the board.
pub const LAST_EDITION: u32 = u32::MAX;

// Does the byte carry the holder's number? A byte that sorts as free or unknown carries none.
fn carries(b: u8, h: u8) -> bool
    ensures { result ≡ (is_holder b && eqb b h) }
{
    board_sorts::is_holder(b) & (b == h)
}

// ---- the edition: four bytes, high byte first

pub fn read_edition(board: &[u8]) -> u32
    requires { header ≤ length board.now }
    ensures { result ≡ edition board.now }
{
    u32::from_be_bytes([board[0], board[1], board[2], board[3]])
}

fn write_edition(board: &mut [u8], n: u32)
    requires { header ≤ length board.old }
    ensures { board.new ≡ with_edition n board.old }
{
    board[..HEADER].copy_from_slice(&n.to_be_bytes());
}

// Adds 1 to the edition.
pub fn next_edition(board: &mut [u8])
    requires { (header ≤ length board.old) × (edition board.old < last_edition) }
    ensures { board.new ≡ next_edition board.old board.old }
{
    let n = read_edition(board);
    write_edition(board, n + 1);
}

// ---- the whole board

// The length of the board of a site with so many cells up to that horizon.
pub fn length_of(cells: usize, horizon: usize) -> usize
    requires { (cells ≤ cell_limit) × (horizon ≤ horizon_limit) }
    ensures { result ≡ header + cells * (horizon + 1) }
{
    HEADER + cells * (horizon + 1)
}

// Sets every byte to 0.
pub fn set_free(board: &mut [u8])
    ensures { board.new ≡ replicate (length board.old) 0 }
{
    board.fill(0);
}

// Does some byte after the edition carry the holder's number? Every byte is looked at: a loop that can stop early is not vectorized.
pub fn holder_stands(board: &[u8], h: u8) -> bool
    requires { header ≤ length board.now }
    ensures { result ≡ stands board.now h }
{
    let mut found = false;
    for b in &board[HEADER..] {
        found = found | carries(*b, h);
    }
    found
}

// A byte after the holder h is withdrawn: a value and no branch, so that the loop over the bytes is vectorized.
fn withdrawn(x: u8, h: u8) -> u8
    ensures { result ≡ cond (eqb x h) 0 x }
{
    if x == h { 0 } else { x }
}

// Sets every byte of the holder to 0; the edition's bytes are no holder's.
pub fn clear_holder(board: &mut [u8], h: u8)
    requires { header ≤ length board.old }
    ensures { board.new ≡ clear h board.old }
{
    for b in &mut board[HEADER..] {
        *b = withdrawn(*b, h);
    }
}
