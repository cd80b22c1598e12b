// The factors for a text's strings.
ghost use Rattle.std.specs.Prelude.{◌<◌};
ghost use Rattle.text_hash.specs.Mix.{Small};

use crate::Seed;

// A factor from the middle of a product: odd, and of 31 bits, since small factors would leave many short strings in few places.
fn factor(x: usize) -> usize
    ensures { result < 2147483648 }
{
    x / 65536 % 536870912 * 2 + 1073741825
}

// The factors after two words at a time, the last few bytes left out.
pub fn absorb(s: Seed, f: &[u8]) -> Seed
    requires { Small s }
    ensures { Small result }
{
    let mut x = s.first;
    let mut y = s.second;
    for i in 0..f.len() / 8 {
        let u = factor((x + crate::word::at(f, 2 * i)) * y);
        let v = factor((y + crate::word::at(f, 2 * i + 1)) * x);
        x = u;
        y = v;
    }
    Seed {
        first: x,
        second: y,
    }
}

// Factors drawn from a text's own bytes, after those of `start`, in two passes, so that its author cannot simply choose names by their hashes, nor bytes
// that give certain factors. Nothing depends on what they are.
pub fn draw_after(start: Seed, f: &[u8]) -> Seed
    requires { Small start }
    ensures { Small result }
{
    let once = absorb(start, f);
    absorb(once, f)
}

// The factors to start with.
pub fn start() -> Seed
    ensures { Small result }
{
    Seed {
        first: 1640531527,
        second: 2146121005,
    }
}

// The same from the start.
pub fn draw(f: &[u8]) -> Seed
    ensures { Small result }
{
    draw_after(start(), f)
}
