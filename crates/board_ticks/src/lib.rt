// The ticks of a cell on the board: which are free, which a closure may take, and what is written over them.
#![tactic(auto)]

mod cell_ticks;

ghost use Rattle.std.specs.Prelude.{◌≡◌, ◌+◌, ◌≤◌, ◌<◌, min, not, eqb, length};
ghost use Rattle.std.specs.List.{list_all};
ghost use Rattle.meaning.specs.Site.{Site};
ghost use Rattle.meaning.specs.Board.{is_tug, free, closable, mark, run_to};
ghost use Rattle.meaning.specs.Plan.{free_from_to};
ghost use Rattle.board_ticks.specs.Runs.{OnBoard};
ghost use Rattle.board_ticks.specs.Ticks.{frees, closes, from_to};

pub use cell_ticks::CellTicks;

// The tick so many ticks after t, or the last one.
fn later(t: usize, margin: usize, horizon: usize) -> usize
    requires { t ≤ horizon }
    ensures { result ≡ min (t + margin) horizon }
{
    t.saturating_add(margin).min(horizon)
}

// ---- the bytes of a run of ticks

// So many bytes of a run are looked at together, with no early exit, so that the compiler takes them at once.
const PIECE: usize = 16;

// Is each of a few bytes 0? It stops at the first that is not.
fn few_free(bytes: &[u8]) -> bool
    ensures { result ≡ list_all (λ b. eqb b 0) bytes.now }
{
    bytes.iter().all(|b| board_sorts::is_free_byte(*b))
}

// Is each byte of a piece 0?
fn piece_free(bytes: &[u8]) -> bool
    ensures { result ≡ list_all (λ b. eqb b 0) bytes.now }
{
    bytes
        .iter()
        .fold(true, |all, b| all & board_sorts::is_free_byte(*b))
}

// Is each byte of a long run 0? Never inlined, so that what asks for short runs stays small.
#[inline(never)]
fn long_free(bytes: &[u8]) -> bool
    ensures { result ≡ list_all (λ b. eqb b 0) bytes.now }
{
    let (pieces, rest) = bytes.as_chunks::<PIECE>();
    pieces.iter().all(|piece| piece_free(piece)) & piece_free(rest)
}

// Is each byte of a run 0? Less than a piece is looked at byte by byte.
fn none_held(bytes: &[u8]) -> bool
    ensures { result ≡ list_all (λ b. eqb b 0) bytes.now }
{
    if bytes.len() < PIECE {
        few_free(bytes)
    } else {
        long_free(bytes)
    }
}

// Is no byte of a piece a tug's?
fn piece_tugless(bytes: &[u8]) -> bool
    ensures { result ≡ list_all (λ b. not (is_tug b)) bytes.now }
{
    bytes
        .iter()
        .fold(true, |all, b| all & !board_sorts::is_tug(*b))
}

// Is no byte of a run a tug's?
fn no_tug(bytes: &[u8]) -> bool
    ensures { result ≡ list_all (λ b. not (is_tug b)) bytes.now }
{
    let (pieces, rest) = bytes.as_chunks::<PIECE>();
    pieces.iter().all(|piece| piece_tugless(piece)) & piece_tugless(rest)
}

// ---- free, and what a closure may take

impl CellTicks<'_> {
    // Is the cell free from the tick first to the tick last, both included? Each byte from the margin before the first to the margin after
    // the last must be 0.
    pub fn run_free(&self, first: usize, last: usize) -> bool
        requires { last ≤ self.now.horizon }
        ensures value { result ≡ from_to (frees self.now) first last }
        ensures every_site { (site : Site) → site.horizon ≡ self.now.horizon → site.margin ≡ self.now.margin → self.now.cell < site.cells → result ≡ free_from_to (free site self.now.board.now) self.now.cell first last }
    {
        if last < first {
            return true;
        }
        let row = board::HEADER + self.cell * (self.horizon + 1);
        let low = first.saturating_sub(self.margin);
        let high = later(last, self.margin, self.horizon);
        none_held(&self.board[row + low..row + high + 1])
    }

    // Is the cell free at the tick?
    pub fn is_free(&self, t: usize) -> bool
        requires { t ≤ self.now.horizon }
        ensures value { result ≡ frees self.now t }
        ensures every_site { (site : Site) → site.horizon ≡ self.now.horizon → site.margin ≡ self.now.margin → self.now.cell < site.cells → result ≡ free site self.now.board.now self.now.cell t }
    {
        let row = board::HEADER + self.cell * (self.horizon + 1);
        let low = t.saturating_sub(self.margin);
        let high = later(t, self.margin, self.horizon);
        // Not by `run_free`: an interval call and the ends of the search ask for tick after tick, and this stops at the first byte held.
        few_free(&self.board[row + low..row + high + 1])
    }

    // May a closure take the cell from the tick first to the tick last, both included? Each of these bytes must be 0, and none from the
    // margin before the first to the margin after the last a tug's.
    pub fn run_closable(&self, first: usize, last: usize) -> bool
        requires { last ≤ self.now.horizon }
        ensures value { result ≡ from_to (closes self.now) first last }
        ensures every_site { (site : Site) → site.horizon ≡ self.now.horizon → site.margin ≡ self.now.margin → self.now.cell < site.cells → result ≡ free_from_to (closable site self.now.board.now) self.now.cell first last }
    {
        if last < first {
            return true;
        }
        let row = board::HEADER + self.cell * (self.horizon + 1);
        let low = first.saturating_sub(self.margin);
        let high = later(last, self.margin, self.horizon);
        none_held(&self.board[row + first..row + last + 1])
            && no_tug(&self.board[row + low..row + high + 1])
    }
}

// ---- writing

// Writes the holder's number over the cell's ticks first to last, both included.
pub fn mark_run(board: &mut [u8], horizon: usize, cell: usize, first: usize, last: usize, h: u8)
    requires { OnBoard (length board.old) horizon cell × (last ≤ horizon) }
    ensures { (site : Site) → site.horizon ≡ horizon → board.new ≡ mark site h (run_to cell first last) board.old }
{
    let row = board::HEADER + cell * (horizon + 1);
    // By number and not over a slice of the bytes: `last` may lie before `first`, where such a slice has no range.
    for tick in first..last + 1 {
        board[row + tick] = h;
    }
}
