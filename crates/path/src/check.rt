// What the strings of a path may not hold: refusal numbers 5 to 8, the smallest first.
ghost use Rattle.std.specs.Prelude.{◌≡◌, [], ◌∷◌};
ghost use Rattle.text.specs.Byte.{is_name, is_star};
ghost use Rattle.text.specs.Test.{all, any};
ghost use Rattle.text.specs.String.{bytes, same};
ghost use Rattle.refusal.specs.Refusal.{code};
ghost use Rattle.path.specs.Refusal.{outside_name, half_wild};
ghost use Rattle.path.specs.Walk.{name_refusal, elem_name_refusal, value_refusal};

use refusal::Refusal;

// The smallest number whose flag is set.
#[tactic(auto, using(text::proofs::Choices::choices), unfolding(crate::specs::Walk::least_refusal))]
pub fn least(five: bool, six: bool, seven: bool, eight: bool) -> Result<(), Refusal>
    ensures { code result ≡ Rattle.path.specs.Walk.least_refusal five six seven eight }
{
    if five {
        Err(Refusal::LimitPassed)
    } else if six {
        Err(Refusal::StrayByte)
    } else if seven {
        Err(Refusal::MisplacedWildcard)
    } else if eight {
        Err(Refusal::Repeated)
    } else {
        Ok(())
    }
}

// A length that no name or value may have.
fn is_unsized(n: usize) -> bool
    ensures { result ≡ Rattle.path.specs.Walk.unsized_by n }
{
    n == 0 || limits::MAX_STRING < n
}

// The same as `text::byte::is_name`. Most bytes of names are small letters, which one test tells.
pub fn is_name(b: u8) -> bool
    ensures { result ≡ is_name b }
{
    b.is_ascii_lowercase() || text::byte::is_name(b)
}

// No byte is outside a name's set, and none is a *. Most names are such, and need no other look.
fn is_plain(s: &[u8]) -> bool
    ensures { result ≡ all is_name s.now }
{
    s.iter().all(|b| is_name(*b))
}

// A byte is outside a name's set; * has a number of its own.
fn has_outside(s: &[u8]) -> bool
    ensures { result ≡ any outside_name s.now }
{
    s.iter().any(|b| !(text::byte::is_name(*b) || *b == b'*'))
}

fn has_star(s: &[u8]) -> bool
    ensures { result ≡ any is_star s.now }
{
    s.iter().any(|b| *b == b'*')
}

// The string is the byte b, and nothing more.
#[tactic(auto, using(text::proofs::Library::same_is))]
pub fn is_byte(s: &[u8], b: u8) -> bool
    ensures { result ≡ same s.now (b ∷ []) }
{
    s == [b].as_slice()
}

// The string is `...`.
pub fn is_dots(s: &[u8]) -> bool
    ensures { result ≡ same s.now (bytes "...") }
{
    s == b"...".as_slice()
}

// It holds a *, and is not the wildcard.
#[tactic(auto, using(text::proofs::Choices::choices), unfolding(crate::specs::Refusal::half_wild))]
fn is_half_wild(s: &[u8]) -> bool
    ensures { result ≡ half_wild s.now }
{
    has_star(s) && !is_byte(s, b'*')
}

// A key's name.
#[tactic(auto, using(crate::proofs::Classes::name_plain, crate::proofs::Classes::name_open))]
pub fn name(s: &[u8]) -> Result<(), Refusal>
    ensures { code result ≡ name_refusal s.now }
{
    let five = is_unsized(s.len());
    if is_plain(s) {
        return least(five, false, false, false);
    }
    least(five, has_outside(s), has_star(s), false)
}

// An element's name.
#[tactic(auto, using(crate::proofs::Classes::elem_name_plain, crate::proofs::Classes::elem_name_open, text::proofs::Choices::choices))]
pub fn elem_name(s: &[u8]) -> Result<(), Refusal>
    ensures { code result ≡ elem_name_refusal s.now }
{
    let five = is_unsized(s.len());
    if is_plain(s) {
        return least(five, false, is_dots(s), false);
    }
    least(five, has_outside(s), has_star(s) || is_dots(s), false)
}

// A value.
#[tactic(auto, using(crate::proofs::Classes::value_open))]
pub fn value(s: &[u8]) -> Result<(), Refusal>
    ensures { code result ≡ value_refusal s.now }
{
    least(
        is_unsized(s.len()),
        !text::string::all_print(s),
        is_half_wild(s),
        false,
    )
}
