// Vectors that are too long to write out.
use cli_show::console::Console;

// The digit 0, as often as a table text may have bytes; once more where n is odd.
pub fn table(console: &mut Console, n: u8) {
    let zeros = [b'0'; limits::MAX_TABLE_TEXT + 1];
    crate::tables::check(
        console,
        &zeros[0..limits::MAX_TABLE_TEXT + (n % 2) as usize],
    );
}

// The policy that permits nobody, with blanks after it, as long as a policy text may be; a byte longer where n is odd.
pub fn policy(console: &mut Console, n: u8) {
    let mut padded = [b' '; limits::MAX_POLICY_TEXT + 1];
    text::fill::copy(b"{\"name\":\"p\",\"allow_rules\":[]}", &mut padded, 0);
    crate::policies::check(
        console,
        &padded[0..limits::MAX_POLICY_TEXT + (n % 2) as usize],
    );
}
