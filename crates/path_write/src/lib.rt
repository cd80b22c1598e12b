#![tactic(auto)]

// Path bytes to path text. The functions below the call are for bytes that were checked: they read, and there is room for their text.
ghost use Rattle.std.specs.Prelude.{◌≡◌, true, ◌+◌, ◌≤◌, length};
ghost use Rattle.text.specs.String.{joined};
ghost use Rattle.text.specs.Frame.{times};
ghost use Rattle.text.specs.Steps.{Wrote};
ghost use Rattle.path.specs.Bytes.{key, element, path};
ghost use Rattle.path.specs.Walk.{is_path};
ghost use Rattle.path_read.specs.Text.{escaped, key_text, elem_text, path_text};
ghost use Rattle.path_read.specs.Calls.{text_for, filled_of};
ghost use Rattle.path_read.specs.Steps.{Delivers};
ghost use Rattle.path_write.specs.Steps.{written, Fits, Writes};

use refusal::Refusal;

// Where reading goes on in the bytes, and storing in the text.
#[derive(Clone, Copy)]
pub struct Place {
    pub from: usize,
    pub to: usize,
}

// A byte of a value, escaped where it has to be.
fn write_byte(b: u8, out: &mut [u8], at: usize) -> usize
    requires { at + length (escaped b) ≤ length out.old }
    ensures { Wrote out.old at (escaped b) out.new result }
{
    if (b == b']') | (b == b'\\') {
        out[at] = b'\\';
        out[at + 1] = b;
        return at + 2;
    }
    out[at] = b;
    at + 1
}

// A value without its brackets, escaped.
pub fn write_value(v: &[u8], out: &mut [u8], at: usize) -> usize
    requires { at + length (joined escaped v.now) ≤ length out.old }
    ensures { Wrote out.old at (joined escaped v.now) out.new result }
{
    let mut p = at;
    for b in v {
        p = write_byte(*b, out, p);
    }
    p
}

// [name=value]
fn write_key(name: &[u8], value: &[u8], out: &mut [u8], at: usize) -> usize
    requires { at + length (key_text (record { name = name.now; value = value.now })) ≤ length out.old }
    ensures { Wrote out.old at (key_text (record { name = name.now; value = value.now })) out.new result }
{
    out[at] = b'[';
    text::fill::copy(name, out, at + 1);
    let equals = at + 1 + name.len();
    out[equals] = b'=';
    let close = write_value(value, out, equals + 1);
    out[close] = b']';
    close + 1
}

// The text of the `count` keys from `from` on.
fn write_keys(f: &[u8], from: usize, count: usize, out: &mut [u8], to: usize) -> Place
    requires { Fits (joined key_text) (times count key f.now from) out.old to }
    ensures { Writes (joined key_text) (times count key f.now from) out.old to out.new result }
{
    let mut place = Place { from, to };
    for _ in 0..count {
        let Some(key) = path_frame::read_key(f, place.from) else {
            return place;
        };
        place = Place {
            from: key.next,
            to: write_key(key.name, key.value, out, place.to),
        };
    }
    place
}

// The text of the element at `from`.
fn write_element(f: &[u8], from: usize, out: &mut [u8], to: usize) -> Place
    requires { Fits elem_text (element f.now from) out.old to }
    ensures { Writes elem_text (element f.now from) out.old to out.new result }
{
    let Some(middle) = text::frame::string_end(f, from) else {
        return Place { from, to };
    };
    if f.len() <= middle {
        return Place { from, to };
    }
    let count = f[middle] as usize;
    let start = from + 1;
    let name = &f[start..middle];
    out[to] = b'/';
    text::fill::copy(name, out, to + 1);
    write_keys(f, middle + 1, count, out, to + 1 + name.len())
}

// The text of the `count` elements from `from` on.
fn write_elements(f: &[u8], from: usize, count: usize, out: &mut [u8], to: usize) -> Place
    requires { Fits (joined elem_text) (times count element f.now from) out.old to }
    ensures { Writes (joined elem_text) (times count element f.now from) out.old to out.new result }
{
    let mut place = Place { from, to };
    for _ in 0..count {
        place = write_element(f, place.from, out, place.to);
    }
    place
}

// The text of the path at the start of f.
fn write_path(f: &[u8], out: &mut [u8]) -> usize
    requires { Fits path_text (path f.now 0) out.old 0 }
    ensures { Wrote out.old 0 (written path_text (path f.now 0)) out.new result }
{
    if f.len() == 0 {
        return 0;
    }
    let count = f[0] as usize;
    if count == 0 {
        out[0] = b'/';
        return 1;
    }
    write_elements(f, 1, count, out, 0).to
}

// The text of a good path, made apart, and copied where it fits.
fn write_apart(f: &[u8], out: &mut [u8]) -> Result<usize, Refusal>
    requires { true ≡ is_path f.now }
    ensures { Delivers out.old (text_for f.now) out.new (filled_of result) }
{
    let mut text = [0u8; limits::MAX_PATH_TEXT];
    let n = write_path(f, &mut text);
    if out.len() < n {
        return Err(Refusal::NoRoom);
    }
    text::fill::copy(&text[..n], out, 0);
    Ok(n)
}

// Path bytes to path text, at the start of out. Nothing is stored there before all is checked.
pub fn write_text(f: &[u8], out: &mut [u8]) -> Result<usize, Refusal>
    ensures { Delivers out.old (text_for f.now) out.new (filled_of result) }
{
    if !path_frame::is_path(f) {
        return Err(Refusal::BadPath);
    }
    // no text is more than twice as long as its bytes
    if f.len() <= out.len() / 2 {
        let n = write_path(f, out);
        return Ok(n);
    }
    write_apart(f, out)
}
