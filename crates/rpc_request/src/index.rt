// The header lines by bucket, so that the lines of one name are found without a look at the others.
ghost use Rattle.std.specs.Prelude.{◌≡◌, false, ◌+◌, ◌≤◌, length};
ghost use Rattle.text.specs.Test.{absent};
ghost use Rattle.text.specs.Steps.{Wrote};
ghost use Rattle.text_hash.specs.Mix.{Small};
ghost use Rattle.rpc.specs.Request.{cut_at, line_of};
ghost use Rattle.rpc_request.specs.Steps.{line_value, Joined};
ghost use Rattle.rpc_request.specs.Index.{bucket_of, Blank, Indexed};

use std::marker::Model;
use text_hash::Seed;

// Any number of buckets would do.
pub const BUCKETS: usize = 256;

// How many links the index of the longest header lines needs: a line has three bytes or more, so no two lines have the same third of where they start.
pub const PLACES: usize = limits::MAX_HEADER_LINES / 3 + 1;

// The same for header lines of at most `FEW_BYTES` bytes, whose arrays are quicker to clear.
pub const FEW_BYTES: usize = limits::MAX_HEADER_LINES / 16;

pub const FEW_PLACES: usize = FEW_BYTES / 3 + 1;

// Stands for no line: no line starts there. The arrays lie on the stack, and an Option for each link would double them.
pub const NO_LINE: u16 = limits::MAX_HEADER_LINES as u16;

// How many bytes of a policy the factors are drawn from.
const SAMPLE: usize = 64;

// Factors drawn from the middle of a text.
fn sample(t: &[u8]) -> Seed
    ensures { Small result }
{
    let n = t.len();
    let start = text_hash::factors::start();
    if n <= SAMPLE {
        return text_hash::factors::absorb(start, t);
    }
    let from = (n - SAMPLE) / 2;
    let to = from + SAMPLE;
    text_hash::factors::absorb(start, &t[from..to])
}

// The factors of the buckets: from the policy, which the client does not write and may not know, and from all header lines.
pub fn factors(policy: &[u8], headers: &[u8]) -> Seed
    ensures { Small result }
{
    text_hash::factors::draw_after(sample(policy), headers)
}

// The bucket of a name. b is that of the line before, which often has the same name.
fn next_bucket(seed: Seed, name: &[u8], before: &[u8], b: usize) -> usize
    requires { Small seed × (b ≡ bucket_of seed before.now) }
    ensures { result ≡ bucket_of seed name.now }
{
    if text::string::is_same(name, before) {
        b
    } else {
        text_hash::place(seed, BUCKETS, name)
    }
}

// Stores the value of a line of this name, after a comma, so that it ends at `at`; and nothing for a line of another name. Answers where what is stored
// starts.
fn join_line(l: &[u8], key: &[u8], out: &mut [u8], at: usize) -> usize
    requires { (absent (line_of (cut_at 58 l.now)) ≡ false) × (length l.now ≤ at) × (at ≤ length out.old) }
    ensures { Wrote out.old result (line_value key.now l.now) out.new at
        × (at ≤ result + length l.now) }
{
    let c = crate::headers::byte_from(l, 0, b':');
    if !text::string::is_same(&l[0..c], key) {
        return at;
    }
    let n = l.len();
    let from = c + 1;
    let start = at - (n - from);
    text::fill::copy(&l[from..n], out, start);
    let comma = start - 1;
    out[comma] = b',';
    comma
}

// Good header lines with their index: the lines of a bucket are linked, the last first.
#[derive(Drop)]
pub struct HeaderIndex<'a> {
    lines: &'a [u8],
    seed: Seed,
    // Where the last line of each bucket starts.
    last: &'a [u16],
    // At a third of where a line starts, where the line of its bucket before it does.
    before: &'a [u16],
}

impl<'a> Model for HeaderIndex<'a> {
    ghost use Rattle.text.specs.String.{Str};

    ghost Value = { Str };

    ghost use Rattle.rpc_request.specs.Index.{Indexed};

    ghost view = { λ a. a.lines.now };

    ghost invariant = { λ a. Indexed a.seed a.lines.now a.last.now a.before.now };
}

impl<'a> HeaderIndex<'a> {
    // The index of good header lines. It is made in two arrays in which no line is yet.
    pub fn new(
        seed: Seed,
        lines: &'a [u8],
        last: &'a mut [u16],
        before: &'a mut [u16],
    ) -> HeaderIndex<'a>
        requires { Blank seed lines.now last.old before.old }
        ensures { result ≡ lines.now }
    {
        let mut name = &lines[..0];
        let mut b = text_hash::place(seed, BUCKETS, name);
        let mut i = 0;
        while i < lines.len() {
            let c = crate::headers::byte_from(lines, i, b':');
            b = next_bucket(seed, &lines[i..c], name, b);
            name = &lines[i..c];
            let e = crate::headers::byte_from(lines, c + 1, b'\n');
            before[i / 3] = last[b];
            last[b] = i as u16;
            i = e + 1;
        }
        HeaderIndex {
            lines,
            seed,
            last,
            before,
        }
    }

    // Stores the value of the header `key` at the end of `out`: the values of its lines, each after a comma. Answers where the value starts, past the first
    // comma.
    pub fn value(&self, key: &[u8], out: &mut [u8]) -> usize
        requires { length self.now ≤ length out.old }
        ensures { Joined key.now self.now out.new result }
    {
        let b = text_hash::place(self.seed, BUCKETS, key);
        let mut p = self.last[b] as usize;
        let mut at = out.len();
        while p < self.lines.len() {
            let e = crate::headers::byte_from(self.lines, p, b'\n');
            at = join_line(&self.lines[p..e], key, out, at);
            p = self.before[p / 3] as usize;
        }
        (at + 1).min(out.len())
    }
}
