// Storing into lent buffers.
ghost use Rattle.std.specs.Prelude.{◌≡◌, ◌+◌, ◌≤◌, length};
ghost use Rattle.text.specs.Fill.{put};

// Stores s into out, from `at` on.
pub fn copy(s: &[u8], out: &mut [u8], at: usize)
    requires { at + length s.now ≤ length out.old }
    ensures { out.new ≡ put out.old at s.now }
{
    // `copy_from_slice` is compiled to a call of memmove, which the library does not take
    for i in 0..s.len() {
        out[at + i] = s[i];
    }
}
