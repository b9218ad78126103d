// The sweeps of one motion in a site file: when runs of ticks meet, what sweeps use, and that they keep to the cells and the span.
#![tactic(auto)]

ghost use Rattle.std.specs.Prelude.{◌≡◌, true, ◌+◌, ◌*◌, ◌<◌, ◌≤◌, length};
ghost use Rattle.meaning.specs.Limits.{sweep_size};
ghost use Rattle.meaning.specs.Basics.{all};
ghost use Rattle.meaning.specs.Runs.{meets, Meet};
ghost use Rattle.meaning.specs.Site.{covers, uses, sweep_good};
ghost use Rattle.site_sweeps.specs.Places.{sweep_at, sweeps_at, sweeps_in, sweep_of, SweepIs};

// The bytes of a sweep in the file: its cell, its first and its last offset.
pub const SWEEP_SIZE: usize = 4;

// A sweep: its cell, and the first and the last offset at which it uses it.
#[derive(Clone, Copy)]
pub struct Sweep {
    pub cell: usize,
    pub first: u8,
    pub last: u8,
}

impl<'a> From<&'a [u8; SWEEP_SIZE]> for Sweep {
    ghost from_gives = { λ b r. SweepIs (sweep_at b.now 0) r };

    fn from(b: &'a [u8; SWEEP_SIZE]) -> Self {
        Sweep {
            cell: fields::number_at(b, 0),
            first: b[2],
            last: b[3],
        }
    }
}

// The sweep `i` of those from `at` on. By place and number, for the loops above (plan_steps, plan_mark, search_arrivals), which read a
// motion's sweeps out of the whole file.
pub fn read_sweep(file: &[u8], at: usize, i: usize) -> Sweep
    requires { at + sweep_size * i + 3 < length file.now }
    ensures { SweepIs (sweep_at file.now (at + sweep_size * i)) result }
{
    let p = at + SWEEP_SIZE * i;
    Sweep::from(&[file[p], file[p + 1], file[p + 2], file[p + 3]])
}

// The bytes of `count` sweeps from `at` on, sweep by sweep.
pub fn sweeps_at(file: &[u8], at: usize, count: usize) -> &[[u8; SWEEP_SIZE]]
    requires { at + sweep_size * count ≤ length file.now }
    ensures { sweeps_in result.now ≡ sweeps_at file.now at count }
{
    file[at..at + SWEEP_SIZE * count]
        .as_chunks::<SWEEP_SIZE>()
        .0
}

// Do the runs from `a` to `b` and from `c` to `d`, both ends included, meet? Yes exactly when some tick lies in both, for any ends: a run
// whose end lies before its start has no tick.
pub fn meets(a: u8, b: u8, c: u8, d: u8) -> bool
    ensures value { result ≡ meets a b c d }
    ensures meet { (result ≡ true → Meet a b c d) × (Meet a b c d → result ≡ true) }
{
    a.max(c) <= b.min(d)
}

// The sweep uses the cell at the offset `t`: its run meets the run of `t` alone.
fn covers(w: Sweep, cell: usize, t: u8) -> bool
    ensures { result ≡ covers cell t (sweep_of w) }
{
    w.cell == cell && meets(w.first, w.last, t, t)
}

// Some one of the sweeps uses the cell at the offset `t`.
pub fn used(sweeps: &[[u8; SWEEP_SIZE]], cell: usize, t: u8) -> bool
    ensures { result ≡ uses (sweeps_in sweeps.now) cell t }
{
    sweeps.iter().any(|s| covers(Sweep::from(s), cell, t))
}

// The sweep keeps to the cells and the span.
fn sweep_good(w: Sweep, cells: usize, span: u8) -> bool
    ensures { result ≡ sweep_good cells span (sweep_of w) }
{
    w.cell < cells && w.first <= w.last && w.last <= span
}

// Each of the sweeps does.
pub fn sweeps_good(sweeps: &[[u8; SWEEP_SIZE]], cells: usize, span: u8) -> bool
    ensures { result ≡ all (sweep_good cells span) (sweeps_in sweeps.now) }
{
    sweeps
        .iter()
        .all(|s| sweep_good(Sweep::from(s), cells, span))
}
