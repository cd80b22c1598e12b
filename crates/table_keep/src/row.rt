// A row that is judged.
ghost use Rattle.std.specs.Prelude.{◌+◌, ◌≤◌, length};
ghost use Rattle.limits.specs.Sizes.{max_table_bytes};

// The decoded frames before it, its own frame, which follows them, and the kind of the frame before.
#[derive(Clone, Copy)]
pub struct Row<'a> {
    pub old: &'a [u8],
    pub frame: &'a [u8],
    pub last: u8,
    ghost room: { length old.now + length frame.now ≤ max_table_bytes },
}
