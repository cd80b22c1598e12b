// Classes of bytes, and hex digits.
ghost use Rattle.std.specs.Prelude.{◌≡◌};
ghost use Rattle.text.specs.Byte.{hex_value, is_name, is_print};
ghost use Rattle.text.specs.HexTable.{HexTable};

// The value of a hex digit, and 16 for any other byte: the definition that the clause names, and the table below, have it so, and the function cannot fail.
pub fn hex_value(b: u8) -> u8
    ensures { result ≡ hex_value b }
{
    let digit = std::num::wrapping_sub_u8(b, b'0');
    if digit < 10 {
        return digit;
    }
    let letter = std::num::wrapping_sub_u8(b, b'a');
    if letter < 6 {
        return letter + 10;
    }
    16
}

// The values of all bytes, to look many digits up in: made in two dozen instructions, since only the sixteen digits are stored one by one.
pub fn hex_table() -> [u8; 256]
    ensures { HexTable result }
{
    let mut table = [16u8; 256];
    for b in b'0'..=b'9' {
        table[b as usize] = hex_value(b);
    }
    for b in b'a'..=b'f' {
        table[b as usize] = hex_value(b);
    }
    table
}

// A letter, a digit or one of -_.: (setting bit 32 makes a capital letter small, and no other byte a letter; the digits and : stand side by side, as - and .
// do).
pub fn is_name(b: u8) -> bool
    ensures { result ≡ is_name b }
{
    let small = b | 32;
    ((b'a' <= small) & (small <= b'z'))
        | ((b'0' <= b) & (b <= b':'))
        | ((b'-' <= b) & (b <= b'.'))
        | (b == b'_')
}

// The bytes 0x20 to 0x7E.
pub fn is_print(b: u8) -> bool
    ensures { result ≡ is_print b }
{
    (b' ' <= b) & (b <= b'~')
}
