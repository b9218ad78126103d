// How a byte of the board sorts: free, a tug's, a closure's or unknown.
#![tactic(auto)]

ghost use Rattle.std.specs.Prelude.{◌≡◌, eqb};
ghost use Rattle.meaning.specs.Board.{sort_of, is_tug, is_closure, is_holder};
ghost use Rattle.board_sorts.specs.Sorts.{sort_case};

// Who holds a byte's pair.
#[derive(Clone, Copy, PartialEq, Eq)]
pub enum Sort {
    Free,
    Tug,
    Closure,
    Unknown,
}

// How a byte of the board sorts.
pub fn sort_of(b: u8) -> Sort
    ensures { sort_case result ≡ sort_of b }
{
    match b {
        0 => Sort::Free,
        1..=199 => Sort::Tug,
        200..=254 => Sort::Closure,
        _ => Sort::Unknown,
    }
}

// A byte whose pair nobody holds.
pub fn is_free_byte(b: u8) -> bool
    ensures { result ≡ eqb b 0 }
{
    sort_of(b) == Sort::Free
}

// A tug's number, 1 to 199.
pub fn is_tug(h: u8) -> bool
    ensures { result ≡ is_tug h }
{
    sort_of(h) == Sort::Tug
}

// A closure's number, 200 to 254.
pub fn is_closure(h: u8) -> bool
    ensures { result ≡ is_closure h }
{
    sort_of(h) == Sort::Closure
}

// A number that may stand on the board, 1 to 254.
pub fn is_holder(h: u8) -> bool
    ensures { result ≡ is_holder h }
{
    matches!(sort_of(h), Sort::Tug | Sort::Closure)
}
