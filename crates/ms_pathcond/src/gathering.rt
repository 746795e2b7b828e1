ghost use Rattle.std.specs.Prelude.{◌≡◌, ◌≤◌, length};
ghost use Rattle.ms_pathcond.specs.Gathered.{IsClosed, IsSound, is_met};

/// Whether a literal is one of the last, or shares a parameter with those gathered.
pub(crate) fn meets(place: usize, support: u8, first: usize, gathered: u8) -> bool
    ensures { result ≡ is_met place support first gathered }
{
    first <= place || support & gathered != 0
}

/// Gathers the parameters of each literal that is one of the last or shares one with those gathered so far.
fn gather(supports: &[u8], first: usize, gathered: u8) -> u8
    ensures grown { gathered ≤ result }
    ensures sound { IsSound supports.now first gathered → IsSound supports.now first result }
    ensures closed { result ≡ gathered → IsClosed supports.now first gathered (length supports.now) }
{
    let mut all = gathered;
    for place in 0..supports.len() {
        if meets(place, supports[place], first, all) {
            all |= supports[place];
        }
    }
    all
}

/// The parameters of all literals that share one, transitively, with the last, those from the first of them on.
/// Each round but the last gathers one more at least, so there are at most nine.
pub(crate) fn gather_all(supports: &[u8], first: usize) -> u8
    ensures sound { IsSound supports.now first result }
    ensures closed { IsClosed supports.now first result (length supports.now) }
{
    let mut gathered = 0;
    'rounds: loop {
        let more = gather(supports, first, gathered);
        if more == gathered {
            return gathered;
        }
        gathered = more;
    }
}
