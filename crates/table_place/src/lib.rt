#![tactic(auto)]

// Where the parts of checked path bytes end.
ghost use Rattle.std.specs.Prelude.{◌≡◌, ◌≤◌, length};
ghost use Rattle.table_place.specs.Place.{str_end, key_end, keys_end, elem_end};

// The string at `at`.
pub fn str_end(f: &[u8], at: usize) -> usize
    requires { str_end f.now at ≤ length f.now }
    ensures { result ≡ str_end f.now at }
{
    at + 1 + f[at] as usize
}

// The key at `at`.
pub fn key_end(f: &[u8], at: usize) -> usize
    requires { key_end f.now at ≤ length f.now }
    ensures { result ≡ key_end f.now at }
{
    str_end(f, str_end(f, at))
}

// The k keys from `at` on.
fn keys_end(f: &[u8], at: usize, k: usize) -> usize
    requires { keys_end k f.now at ≤ length f.now }
    ensures { result ≡ keys_end k f.now at }
{
    let mut q = at;
    for _ in 0..k {
        q = key_end(f, q);
    }
    q
}

// The element at `at`.
pub fn elem_end(f: &[u8], at: usize) -> usize
    requires { elem_end f.now at ≤ length f.now }
    ensures { result ≡ elem_end f.now at }
{
    let a = str_end(f, at);
    let k = f[a] as usize;
    keys_end(f, a + 1, k)
}
