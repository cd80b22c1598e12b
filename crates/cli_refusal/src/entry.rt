// Looking up a line of a text by how it begins.
ghost use Rattle.std.specs.Prelude.{◌≡◌, true, ◌≤◌, ◌<◌, length};
ghost use Rattle.cli_refusal.specs.Entry.{entry};
ghost use Rattle.cli_refusal.specs.Steps.{Next, EntryAt};

// Where the line after the one at `at` begins.
pub fn next(text: &[u8], at: usize) -> usize
    requires { at < length text.now }
    ensures { Next text.now at result }
{
    let end = text_search::find(text, at, b'\n');
    if end < text.len() { end + 1 } else { end }
}

// Where that begins which follows `key` in the first line that begins with it; the end of the text where none does.
fn find_entry(text: &[u8], key: &[u8]) -> usize
    ensures { EntryAt text.now key.now result }
{
    let mut at = 0;
    while at < text.len() {
        if text_affix::starts_with(key, &text[at..]) {
            return at + key.len();
        }
        at = next(text, at);
    }
    at
}

// What follows `key` in the first line that begins with it; nothing where none does.
pub fn find<'a>(text: &'a [u8], key: &[u8]) -> &'a [u8]
    ensures value { result.now ≡ entry true key.now text.now }
    ensures short { length result.now ≤ length text.now }
{
    let from = find_entry(text, key);
    let end = text_search::find(text, from, b'\n');
    &text[from..end]
}
