// Lists of the motions by the state that they start from, or by the one that they lead to.
#![tactic(auto)]

ghost use Rattle.std.specs.Prelude.{◌≡◌, ◌+◌, ◌≤◌, ◌<◌, length, get_or};
ghost use Rattle.search_site.specs.Arrays.{Motions, Leads};
ghost use Rattle.search_lists.specs.Lists.{end_number, end_at, Listed};

// An end of a motion: the state from which it leads, or the one to which it leads.
#[derive(Clone, Copy)]
pub enum End {
    From,
    To,
}

// The state at that end of motion m.
#[tactic(auto, unfolding(crate::specs::Lists::end_at))]
fn state_at(motions: &[u16], k: usize, m: usize, end: End) -> usize
    requires { Motions k motions.now × (m < k) }
    ensures { result ≡ end_at motions.now (end_number end) m }
{
    match end {
        End::From => search_site::from_of(motions, k, m),
        End::To => search_site::to_of(motions, k, m),
    }
}

// Lists of the motions of each state, in rising order: at m stands the motion after m; behind all k motions, at k + s, the first one of s;
// k ends a list.
pub fn fill_lists(motions: &[u16], k: usize, n: usize, end: End, lists: &mut [u16])
    requires motions { Motions k motions.now × Leads n k motions.now }
    requires n_in_bounds { k + n ≤ length lists.old }
    ensures listed { Listed (end_number end) k motions.now lists.new }
    ensures lists_len_unchanged { length lists.new ≡ length lists.old }
{
    lists[..k + n].fill(k as u16);
    for m in (0..k).rev() {
        let first = k + state_at(motions, k, m, end);
        lists[m] = lists[first];
        lists[first] = m as u16;
    }
}

// The number at place i of the lists.
pub fn listed_at(lists: &[u16], i: usize) -> usize
    requires { i < length lists.now }
    ensures { result ≡ get_or lists.now i 0 }
{
    usize::from(lists[i])
}
