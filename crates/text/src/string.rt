// Strings: bytes that are the same, and their order.
ghost use Rattle.std.specs.Prelude.{◌≡◌};
ghost use Rattle.text.specs.Byte.{is_print};
ghost use Rattle.text.specs.Test.{all};
ghost use Rattle.text.specs.String.{same, before};

// Every byte is printable.
pub fn all_print(s: &[u8]) -> bool
    ensures { result ≡ all is_print s.now }
{
    s.iter().all(|b| crate::byte::is_print(*b))
}

// The two strings are equal. Lengths are compared first. Most strings are short, and the loops of these two are compiled into their callers; the library's `==`
// and `<` are calls.
pub fn is_same(a: &[u8], b: &[u8]) -> bool
    ensures { result ≡ same a.now b.now }
{
    if a.len() != b.len() {
        return false;
    }
    for i in 0..a.len() {
        if a[i] != b[i] {
            return false;
        }
    }
    true
}

// The string a comes before b in byte order, where a proper prefix is smaller.
pub fn is_before(a: &[u8], b: &[u8]) -> bool
    ensures { result ≡ before a.now b.now }
{
    for i in 0..a.len().min(b.len()) {
        if a[i] != b[i] {
            return a[i] < b[i];
        }
    }
    a.len() < b.len()
}
