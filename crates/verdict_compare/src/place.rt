// Keys, elements and paths where they stand in checked path bytes: a place carries the proof that it can be read.
ghost use Rattle.std.specs.Prelude.{◌≤◌, length};
ghost use Rattle.table_place.specs.Place.{key_end, keys_end, elem_end, elems_end};

// A key.
#[derive(Clone, Copy)]
pub struct Key<'a> {
    pub bytes: &'a [u8],
    pub at: usize,
    ghost inside: { key_end bytes.now at ≤ length bytes.now },
}

// Keys, one after another.
#[derive(Clone, Copy)]
pub struct Keys<'a> {
    pub bytes: &'a [u8],
    pub at: usize,
    pub count: usize,
    ghost inside: { keys_end count bytes.now at ≤ length bytes.now },
}

// An element.
#[derive(Clone, Copy)]
pub struct Element<'a> {
    pub bytes: &'a [u8],
    pub at: usize,
    ghost inside: { elem_end bytes.now at ≤ length bytes.now },
}

// Elements, one after another: a path, or what is left of it.
#[derive(Clone, Copy)]
pub struct Elements<'a> {
    pub bytes: &'a [u8],
    pub at: usize,
    pub count: usize,
    ghost inside: { elems_end count bytes.now at ≤ length bytes.now },
}
