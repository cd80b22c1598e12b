// Path text to path bytes.
//
// Each function that reads a part of the format stores it as bytes, from `to` on in the buffer that is lent, since there is no heap; and its contract bounds
// them twice, `Room` before and `Stores` after: so many bytes at most (`limits` computes how many), and so many more than were read of the text.
ghost use Rattle.std.specs.Prelude.{◌≡◌, ℕ, false, [], ◌∷◌, ◌+◌, ◌≤◌, length, drop, get_or, position};
ghost use Rattle.std.proofs.Math.Option.{some};
ghost use Rattle.limits.specs.Limits.{max_string};
ghost use Rattle.limits.specs.Sizes.{max_string_bytes, max_key_bytes, max_keys_bytes, max_elem_bytes, max_path_bytes};
ghost use Rattle.text.specs.Byte.{is_name};
ghost use Rattle.text.specs.String.{bytes, same};
ghost use Rattle.text.specs.Frame.{string_bytes};
ghost use Rattle.path.specs.Walk.{no_name};
ghost use Rattle.path.specs.Bytes.{counted, key_bytes, elem_bytes};
ghost use Rattle.path_read.specs.TextReader.{value};
ghost use Rattle.path_read.specs.Calls.{bytes_for, filled_of};
ghost use Rattle.path_read.specs.Steps.{max_growth, name_run, item_of, Room, Stores, plainly, Transcribed, Delivers};
ghost use Rattle.path_read.specs.Steps.{good_name, good_value, good_key, good_keys, good_element, good_elements};

use refusal::Refusal;

// So many bytes more than its text a path can have: `max_growth` of the definitions.
const MAX_GROWTH: usize = 1 + limits::MAX_ELEMENTS;

// The array that short texts are read into, and the longest text whose bytes surely fit it. Clearing an array for the longest path costs more than
// reading most texts.
const SHORT_BYTES: usize = 256;

const SHORT_TEXT: usize = SHORT_BYTES - MAX_GROWTH;

// Where reading goes on in the text, and storing in the buffer. Each reader below gives none where the text is not of the format, or the path not good.
#[derive(Clone, Copy)]
pub struct Stored {
    pub next: usize,
    pub end: usize,
}

// The next byte of a value, or its ]: two outcomes beside the third, that neither stands there, so that no Option of the library tells them.
#[derive(Clone, Copy)]
pub enum Item {
    Byte { byte: u8, next: usize },
    End,
}

// The byte at `at`, and 0, which no part of the format has, past the end. Callers compare it with one byte: an Option would be compared by reference at each.
fn byte_at(s: &[u8], at: usize) -> u8
    ensures { result ≡ get_or s.now at 0 }
{
    s.get(at).copied().unwrap_or(0)
}

// Where the first byte stands that is none of a name.
fn first_other(s: &[u8]) -> Option<usize>
    ensures { result ≡ position no_name s.now }
{
    s.iter().position(|b| !path::check::is_name(*b))
}

// Where the name from `at` on ends.
fn name_end(text: &[u8], at: usize) -> usize
    requires { at ≤ length text.now }
    ensures { result ≡ at + name_run (drop at text.now) }
{
    match first_other(&text[at..]) {
        Some(n) => at + n,
        None => text.len(),
    }
}

// A good name with its length byte. a, b or nothing comes after it.
fn read_name(text: &[u8], at: usize, a: u8, b: u8, out: &mut [u8], to: usize) -> Option<Stored>
    requires { Room max_string_bytes 1 text.now at out.old to × (is_name a ≡ false) × (is_name b ≡ false) }
    ensures { Stores max_string_bytes 1 string_bytes (good_name a b) text.now at out.old to out.new result }
{
    let next = name_end(text, at);
    let c = byte_at(text, next);
    if (next < text.len()) & (c != a) & (c != b) {
        return None;
    }
    let n = next - at;
    if (n == 0) | (limits::MAX_STRING < n) {
        return None;
    }
    out[to] = n as u8;
    let start = to + 1;
    text::fill::copy(&text[at..next], out, start);
    Some(Stored {
        next,
        end: start + n,
    })
}

// The item at `at`.
fn read_item(text: &[u8], at: usize) -> Option<Item>
    ensures { result ≡ item_of text.now at }
{
    if text.len() <= at {
        return None;
    }
    let b = text[at];
    if b == b']' {
        return Some(Item::End);
    }
    if b != b'\\' {
        return Some(Item::Byte {
            byte: b,
            next: at + 1,
        });
    }
    let c = byte_at(text, at + 1);
    if (c == b']') | (c == b'\\') {
        return Some(Item::Byte {
            byte: c,
            next: at + 2,
        });
    }
    None
}

// The bytes of a value, up to its ].
fn read_plain(text: &[u8], at: usize, out: &mut [u8], to: usize) -> Option<Stored>
    requires { Room max_string 0 text.now at out.old to }
    ensures { Stores max_string 0 plainly (value max_string) text.now at out.old to out.new result }
{
    let mut p = at;
    let mut q = to;
    // `left` is the limit, and no index: the loop ends at the ], and a `for` to the limit would need a way out beside it
    let mut left = limits::MAX_STRING;
    loop {
        match read_item(text, p)? {
            Item::Byte { byte, next } => {
                if left == 0 {
                    return None;
                }
                out[q] = byte;
                q += 1;
                p = next;
                left -= 1;
            }
            Item::End => {
                return Some(Stored {
                    next: p + 1,
                    end: q,
                });
            }
        }
    }
}

// A value with its length byte.
pub fn read_value(text: &[u8], at: usize, out: &mut [u8], to: usize) -> Option<Stored>
    requires { Room max_string_bytes 1 text.now at out.old to }
    ensures { Stores max_string_bytes 1 string_bytes (value max_string) text.now at out.old to out.new result }
{
    let start = to + 1;
    let Stored { next, end } = read_plain(text, at, out, start)?;
    out[to] = (end - start) as u8;
    Some(Stored { next, end })
}

// A good value with its length byte.
fn read_good_value(text: &[u8], at: usize, out: &mut [u8], to: usize) -> Option<Stored>
    requires { Room max_string_bytes 1 text.now at out.old to }
    ensures { Stores max_string_bytes 1 string_bytes good_value text.now at out.old to out.new result }
{
    let Stored { next, end } = read_value(text, at, out, to)?;
    let start = to + 1;
    if path::check::value(&out[start..end]).is_err() {
        return None;
    }
    Some(Stored { next, end })
}

// name=value], after its [.
fn read_key(text: &[u8], at: usize, out: &mut [u8], to: usize) -> Option<Stored>
    requires { Room max_key_bytes 1 text.now at out.old to }
    ensures { Stores max_key_bytes 1 key_bytes good_key text.now at out.old to out.new result }
{
    let Stored { next, end } = read_name(text, at, b'=', b'=', out, to)?;
    if byte_at(text, next) != b'=' {
        return None;
    }
    read_good_value(text, next + 1, out, end)
}

// The keys of an element, each in brackets; their count is stored before them.
fn read_keys(text: &[u8], at: usize, out: &mut [u8], to: usize) -> Option<Stored>
    requires { Room max_keys_bytes 1 text.now at out.old to }
    ensures { Stores max_keys_bytes 1 (counted key_bytes) good_keys text.now at out.old to out.new result }
{
    let start = to + 1;
    let mut p = at;
    let mut q = start;
    // it ends at the limit or the first other byte, and how many turns it made is stored: a `for` would need a `break`, and count them beside its own number
    let mut left = limits::MAX_KEYS;
    while (0 < left) & (byte_at(text, p) == b'[') {
        let Stored { next, end } = read_key(text, p + 1, out, q)?;
        p = next;
        q = end;
        left -= 1;
    }
    let count = limits::MAX_KEYS - left;
    if path_frame::has_twice(&out[start..q], 0, count) {
        return None;
    }
    out[to] = count as u8;
    Some(Stored { next: p, end: q })
}

// An element, after its /.
fn read_element(text: &[u8], at: usize, out: &mut [u8], to: usize) -> Option<Stored>
    requires { Room max_elem_bytes 2 text.now at out.old to }
    ensures { Stores max_elem_bytes 2 elem_bytes good_element text.now at out.old to out.new result }
{
    let Stored { next, end } = read_name(text, at, b'/', b'[', out, to)?;
    if path::check::is_dots(&text[at..next]) {
        return None;
    }
    read_keys(text, next, out, end)
}

// The elements of a path; their count is stored before them.
fn read_elements(text: &[u8], out: &mut [u8]) -> Option<Stored>
    requires { Room max_path_bytes max_growth text.now 0 out.old 0 }
    ensures { Stores max_path_bytes max_growth (counted elem_bytes) good_elements text.now 0 out.old 0 out.new result }
{
    let mut p = 0;
    let mut q = 1;
    // as in `read_keys`
    let mut left = limits::MAX_ELEMENTS;
    while (0 < left) & (byte_at(text, p) == b'/') {
        let Stored { next, end } = read_element(text, p + 1, out, q)?;
        p = next;
        q = end;
        left -= 1;
    }
    let count = limits::MAX_ELEMENTS - left;
    out[0] = count as u8;
    Some(Stored { next: p, end: q })
}

// The bytes of the good path, not the root, whose text this is.
fn transcribe(text: &[u8], out: &mut [u8]) -> Option<usize>
    requires { Room max_path_bytes max_growth text.now 0 out.old 0 × (same text.now (bytes "/") ≡ false) }
    ensures { Transcribed (bytes_for text.now) out.old out.new result }
{
    if text.len() == 0 {
        return None;
    }
    let Stored { next, end } = read_elements(text, out)?;
    if next == text.len() { Some(end) } else { None }
}

// The bytes are made apart, in an array of N bytes with room for all that a text of this length can give, and copied where they fit.
fn read_apart<const N: usize>(text: &[u8], out: &mut [u8]) -> Result<usize, Refusal>
    requires small { N ≤ max_path_bytes }
    requires room { (n : ℕ) → n ≤ max_path_bytes → n ≤ length text.now + max_growth → n ≤ N }
    requires no_root { same text.now (bytes "/") ≡ false }
    ensures { Delivers out.old (bytes_for text.now) out.new (filled_of result) }
{
    let mut apart = [0u8; N];
    let Some(end) = transcribe(text, &mut apart) else {
        return Err(Refusal::BadPath);
    };
    if out.len() < end {
        return Err(Refusal::NoRoom);
    }
    text::fill::copy(&apart[..end], out, 0);
    Ok(end)
}

// The text `/`, whose bytes are the count 0.
fn read_root(out: &mut [u8]) -> Result<usize, Refusal>
    ensures { Delivers out.old (some (0 ∷ [])) out.new (filled_of result) }
{
    if out.len() == 0 {
        return Err(Refusal::NoRoom);
    }
    out[0] = 0;
    Ok(1)
}

// Path text to path bytes, at the start of out. Nothing is stored there before all is checked.
pub fn read_text(text: &[u8], out: &mut [u8]) -> Result<usize, Refusal>
    ensures { Delivers out.old (bytes_for text.now) out.new (filled_of result) }
{
    if path::check::is_byte(text, b'/') {
        return read_root(out);
    }
    if text.len() <= SHORT_TEXT {
        return read_apart::<SHORT_BYTES>(text, out);
    }
    read_apart::<{ limits::MAX_PATH_BYTES }>(text, out)
}
