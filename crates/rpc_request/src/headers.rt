// Header lines: `name`, `:`, `value`, LF.
ghost use Rattle.std.specs.Prelude.{◌≡◌, not, ◌+◌, ◌≤◌, ◌<◌, length};
ghost use Rattle.text.specs.Test.{absent};
ghost use Rattle.rpc.specs.Request.{headers_of, bad_headers};
ghost use Rattle.rpc_request.specs.Steps.{Cut, LineEnd};

// Where the first byte b from `at` on stands; the end where there is none.
pub fn byte_from(h: &[u8], at: usize, b: u8) -> usize
    requires { at ≤ length h.now }
    ensures { Cut b h.now at result }
{
    text_search::find(h, at, b)
}

// Where the LF of the line at i stands, where that is well formed. The colon is searched first, and the LF is the first byte behind it that does not print.
fn line_end(h: &[u8], i: usize) -> Option<usize>
    requires { i < length h.now }
    ensures { LineEnd h.now i result }
{
    let c = byte_from(h, i, b':');
    if c == h.len() || c == i || !policy::string::all_header_bytes(&h[i..c]) {
        return None;
    }
    let e = text_search::print_end(h, c + 1);
    if e < h.len() && h[e] == b'\n' {
        Some(e)
    } else {
        None
    }
}

// Whether h is lines, each with its LF.
fn are_lines(h: &[u8]) -> bool
    ensures { result ≡ not (absent (headers_of h.now)) }
{
    let mut i = 0;
    while i < h.len() {
        let Some(e) = line_end(h, i) else {
            return false;
        };
        i = e + 1;
    }
    true
}

// 41: header lines ill-formed or too long.
#[tactic(auto, using(crate::proofs::Lines::bad_long, crate::proofs::Lines::bad_lines))]
pub fn is_bad_headers(h: &[u8]) -> bool
    ensures { result ≡ bad_headers h.now }
{
    limits::MAX_HEADER_LINES < h.len() || !are_lines(h)
}
