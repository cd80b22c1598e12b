// Bytes as hex digits. The theorems on readable texts speak of `hex_text`; a library's hex would need a lemma that it means the same, and is no shorter here.
ghost use Rattle.std.specs.Prelude.{◌≡◌, ◌+◌, ◌≤◌, ◌<◌, length};
ghost use Rattle.text.specs.Steps.{Wrote};
ghost use Rattle.readable_parts.specs.Parts.{hex_digit, hex_text};

fn hex_digit(n: u8) -> u8
    requires { n < 16 }
    ensures { result ≡ hex_digit n }
{
    if n < 10 { b'0' + n } else { b'a' - 10 + n }
}

// Stores the digits of f into out, from `at` on.
pub fn write_hex(f: &[u8], out: &mut [u8], at: usize) -> usize
    requires { at + length (hex_text f.now) ≤ length out.old }
    ensures { Wrote out.old at (hex_text f.now) out.new result }
{
    let mut p = at;
    for b in f {
        out[p] = hex_digit(*b / 16);
        out[p + 1] = hex_digit(*b % 16);
        p += 2;
    }
    p
}
