// Which rule decided most often.
ghost use Rattle.std.specs.Prelude.{◌≡◌, ◌<◌, length};
ghost use Rattle.season_parts.specs.Ranked.{top};

// The number of the first of the largest counts.
pub fn top(counts: &[u64]) -> usize
    requires { 0 < length counts.now }
    ensures value { result ≡ top counts.now }
    ensures within { result < length counts.now }
{
    let mut best = 0;
    let mut most = 0;
    for (i, count) in counts.iter().enumerate() {
        if most < *count {
            best = i;
            most = *count;
        }
    }
    best
}
