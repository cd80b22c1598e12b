// A string as words of four bytes.
ghost use Rattle.std.specs.Prelude.{◌≡◌, ◌+◌, ◌*◌, ◌≤◌, ◌<◌, length, get_or};
ghost use Rattle.text_hash.specs.Mix.{word_at, words_in};

// How many words n bytes take.
pub fn count(n: usize) -> usize
    ensures { result ≡ words_in n }
{
    n.div_ceil(4)
}

// Byte number i; 0 past the end, as if the string went on with it.
fn byte(t: &[u8], i: usize) -> usize
    ensures { (result ≡ get_or t.now i 0) × (result < 256) }
{
    t.get(i).copied().unwrap_or(0) as usize
}

// The four bytes from i on.
fn whole(t: &[u8], i: usize) -> usize
    requires { i + 4 ≤ length t.now }
    ensures { (result ≡ word_at t.now i) × (result < 4294967296) }
{
    t[i] as usize
        + t[i + 1] as usize * 256
        + t[i + 2] as usize * 65536
        + t[i + 3] as usize * 16777216
}

// Word number k, which begins before the end; as if the string went on with 0.
pub fn at(t: &[u8], k: usize) -> usize
    requires { 4 * k < length t.now }
    ensures { (result ≡ word_at t.now (4 * k)) × (result < 4294967296) }
{
    let i = 4 * k;
    if 4 <= t.len() - i {
        return whole(t, i);
    }
    byte(t, i) + byte(t, i + 1) * 256 + byte(t, i + 2) * 65536
}
