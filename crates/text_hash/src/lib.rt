#![tactic(auto)]

// A hash of strings, with factors that its caller chooses.
pub mod factors;
pub mod word;

ghost use Rattle.std.specs.Prelude.{◌≡◌, ◌≤◌, ◌<◌};
ghost use Rattle.text_hash.specs.Mix.{Small, middle, mix, max_places, place_of};

// The factors, odd numbers. That they are small stands in the contracts: `factors` of table_rows/specs, a definition, makes a seed of two numbers alone.
#[derive(Clone, Copy)]
pub struct Seed {
    pub first: usize,
    pub second: usize,
}

// 32 bits from the middle of a product.
fn middle(p: usize) -> usize
    ensures { result ≡ middle p }
{
    p / 65536 % 4294967296
}

// The hash from h on.
pub fn mix(s: Seed, h: usize, t: &[u8]) -> usize
    requires { Small s × (h < 4294967296) }
    ensures { result ≡ mix s h t.now }
{
    let mut x = 0;
    let mut y = h;
    for k in 0..crate::word::count(t.len()) {
        let w = crate::word::at(t, k);
        x = middle((x + w) * s.first);
        y = middle((y + x) * s.second);
    }
    y
}

// The place of t, of `size` places: from the middle of its hash's square. The hash begins with a number that the factors give.
pub fn place(s: Seed, size: usize, t: &[u8]) -> usize
    requires { Small s × (size ≤ max_places) }
    ensures { result ≡ place_of s size t.now }
{
    let from = middle(s.first * s.second);
    let h = mix(s, from, t);
    middle(h * h) * size / 4294967296
}
