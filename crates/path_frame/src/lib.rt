#![tactic(auto)]

// A path inside a frame: where it ends, and the smallest refusal number that it gets. Limits are judged, not assumed: any count byte reads.
ghost use Rattle.std.specs.Prelude.{◌≡◌, false};
ghost use Rattle.text.specs.Frame.{times};
ghost use Rattle.refusal.specs.Refusal.{code};
ghost use Rattle.path.specs.Bytes.{key, element, path};
ghost use Rattle.path.specs.Walk.{keys_refusal, elem_refusal, elems_refusal, has_name, twice_in, is_path_in, is_path, path_refusal};
ghost use Rattle.path_frame.specs.Walked.{walked, walk_said, key_said};

use refusal::Refusal;

// A key of an element, and where reading goes on.
#[derive(Clone, Copy)]
pub struct Key<'a> {
    pub name: &'a [u8],
    pub value: &'a [u8],
    pub next: usize,
}

// What was read is refused with the smallest of 5 to 8, or not at all, and where reading goes on.
#[derive(Clone, Copy)]
pub struct Walked {
    pub refusal: Result<(), Refusal>,
    pub next: usize,
}

// The key at `at`. None: the frame is too short.
#[tactic(auto, using(crate::proofs::Keys::reading), unfolding(crate::specs::Walked::key_said))]
pub fn read_key(f: &[u8], at: usize) -> Option<Key>
    ensures { key_said result ≡ key f.now at }
{
    let middle = text::frame::string_end(f, at)?;
    let next = text::frame::string_end(f, middle)?;
    Some(Key {
        name: &f[at + 1..middle],
        value: &f[middle + 1..next],
        next,
    })
}

// The frame, where the keys or elements start and how many they are travel together: they are the arguments of `times`, which the contracts name.

// One of the `count` keys from `at` on has the name. (False where they do not read.)
#[tactic(auto, using(crate::proofs::Walks::having), unfolding(crate::specs::Walked::key_said))]
fn has_key(f: &[u8], at: usize, count: usize, name: &[u8]) -> bool
    ensures { result ≡ has_name false name.now (times count key f.now at) }
{
    let mut found = false;
    let mut p = at;
    for _ in 0..count {
        let Some(k) = read_key(f, p) else {
            return false;
        };
        found |= text::string::is_same(name, k.name);
        p = k.next;
    }
    found
}

// Two of the `count` keys from `at` on have the same name. (False where they do not read.)
#[tactic(auto, using(crate::proofs::Walks::twices, text::proofs::Choices::choices), unfolding(crate::specs::Walked::key_said))]
pub fn has_twice(f: &[u8], at: usize, count: usize) -> bool
    ensures { result ≡ twice_in (times count key f.now at) }
{
    let mut p = at;
    for later in (1..count).rev() {
        let Some(k) = read_key(f, p) else {
            return false;
        };
        if has_key(f, k.next, later, k.name) {
            return true;
        }
        p = k.next;
    }
    false
}

// `again`: a later key of the element has the same name.
#[tactic(auto, using(path::proofs::Refusals::key_refusal_lem))]
fn check_key(name: &[u8], value: &[u8], again: bool) -> Result<(), Refusal>
    ensures { code result ≡ Rattle.path.specs.Walk.key_refusal name.now value.now again }
{
    let parts = refusal::smaller(path::check::name(name), path::check::value(value));
    refusal::smaller(parts, path::check::least(false, false, false, again))
}

// The `count` keys from `at` on.
#[tactic(auto, using(crate::proofs::Walks::keys), unfolding(crate::specs::Walked::key_said, crate::specs::Walked::walk_said))]
fn read_keys(f: &[u8], at: usize, count: usize) -> Option<Walked>
    ensures { walk_said result ≡ walked keys_refusal (times count key f.now at) }
{
    let mut refusal = Ok(());
    let mut next = at;
    for later in (0..count).rev() {
        let k = read_key(f, next)?;
        let again = has_key(f, k.next, later, k.name);
        refusal = refusal::smaller(refusal, check_key(k.name, k.value, again));
        next = k.next;
    }
    Some(Walked { refusal, next })
}

// The element at `at`.
#[tactic(auto, using(crate::proofs::Walks::of_element), unfolding(crate::specs::Walked::walk_said))]
fn read_element(f: &[u8], at: usize) -> Option<Walked>
    ensures { walk_said result ≡ walked elem_refusal (element f.now at) }
{
    let middle = text::frame::string_end(f, at)?;
    let count = *f.get(middle)? as usize;
    let keys = read_keys(f, middle + 1, count)?;
    let own = refusal::smaller(
        path::check::elem_name(&f[at + 1..middle]),
        path::check::least(limits::MAX_KEYS < count, false, false, false),
    );
    Some(Walked {
        refusal: refusal::smaller(own, keys.refusal),
        ..keys
    })
}

// The `count` elements from `at` on.
#[tactic(auto, using(crate::proofs::Walks::elements), unfolding(crate::specs::Walked::walk_said))]
fn read_elements(f: &[u8], at: usize, count: usize) -> Option<Walked>
    ensures { walk_said result ≡ walked elems_refusal (times count element f.now at) }
{
    let mut refusal = Ok(());
    let mut next = at;
    for _ in 0..count {
        let e = read_element(f, next)?;
        refusal = refusal::smaller(refusal, e.refusal);
        next = e.next;
    }
    Some(Walked { refusal, next })
}

// The path at `at` of a longer frame.
#[tactic(auto, using(crate::proofs::Walks::of_path), unfolding(crate::specs::Walked::walk_said))]
pub fn read_path(f: &[u8], at: usize) -> Option<Walked>
    ensures { walk_said result ≡ walked path_refusal (path f.now at) }
{
    let count = *f.get(at)? as usize;
    let elements = read_elements(f, at + 1, count)?;
    let own = path::check::least(limits::MAX_ELEMENTS < count, false, false, false);
    Some(Walked {
        refusal: refusal::smaller(own, elements.refusal),
        ..elements
    })
}

// The bytes from `at` on are those of one good path, and nothing more.
#[tactic(auto, using(crate::proofs::Walks::no_path), unfolding(crate::specs::Walked::walk_said))]
pub fn is_path_from(f: &[u8], at: usize) -> bool
    ensures { result ≡ is_path_in f.now (path f.now at) }
{
    match read_path(f, at) {
        Some(w) => w.next == f.len() && w.refusal.is_ok(),
        None => false,
    }
}

// All the bytes are.
#[tactic(auto, unfolding(path::specs::Walk::is_path))]
pub fn is_path(f: &[u8]) -> bool
    ensures { result ≡ is_path f.now }
{
    is_path_from(f, 0)
}
