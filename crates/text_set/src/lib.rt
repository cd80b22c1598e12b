#![tactic(auto)]

// A set of strings, each kept as a span of one text, in an array that the caller lends. A string has a place in it, which the caller takes
// from a hash: the first string with a place stands there, and those that find it taken are sorted. So most strings cost one look, and none
// more than a binary search, whatever the strings are.
pub mod nested;

ghost use Rattle.std.specs.Prelude.{◌≤◌, ◌<◌, ◌≡◌, length, get_or};
ghost use Rattle.text_sorted.specs.Spans.{span_of};
ghost use Rattle.text_set.specs.Set.{Ready, Met, added};

use text_sorted::Found;

// Whether x, whose place is p, is in the set, and where it belongs among the sorted.
pub fn find(f: &[u8], keys: &[u32], room: usize, p: usize, x: &[u8]) -> Found
    requires { Ready f.now keys.now room × (room < p) × (p < length keys.now) }
    ensures { Met f.now keys.now room p x.now result }
{
    let k = keys[p] as usize;
    if k == 0 {
        return Found {
            at: 0,
            again: false,
        };
    }
    let start = k / 65536;
    let end = k % 65536;
    if text::string::is_same(x, &f[start..end]) {
        return Found { at: 0, again: true };
    }
    let n = keys[room] as usize;
    text_sorted::find(f, keys, n, x)
}

// The span from `start` to `end` comes to place p, or where this is taken to `at` of the sorted.
pub fn add(keys: &mut [u32], room: usize, p: usize, at: usize, start: usize, end: usize)
    requires { (at ≤ get_or keys.old room 0) × (get_or keys.old room 0 < room) × (room < 65536) × (room < p) × (p < length keys.old) × (start < 65536)
        × (end < 65536) }
    ensures { keys.new ≡ added keys.old room p at (span_of start end) }
{
    if keys[p] == 0 {
        keys[p] = (start * 65536 + end) as u32;
    } else {
        let n = keys[room] as usize;
        text_sorted::insert(keys, n, at, start, end);
        keys[room] = (n + 1) as u32;
    }
}
