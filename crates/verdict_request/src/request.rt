// What refuses a request, apart from its path text.
ghost use Rattle.std.specs.Prelude.{◌≡◌};
ghost use Rattle.refusal.specs.Refusal.{code};
ghost use Rattle.text.specs.Refusal.{clear};
ghost use Rattle.verdict_request.specs.Calls.{bad_mode, bad_origin, refusal_or};

use refusal::Refusal;

fn is_bad_mode(mode: u32) -> bool
    ensures { result ≡ bad_mode mode }
{
    mode != 1 && mode != 2
}

fn is_bad_origin(origin: &[u8]) -> bool
    ensures { result ≡ bad_origin origin.now }
{
    origin.len() > limits::MAX_SHORT_STRING || !text::string::all_print(origin)
}

// The user or the mode, else the origin.
pub fn check(user: &[u8], mode: u32, origin: &[u8]) -> Result<(), Refusal>
    ensures { code result ≡ refusal_or clear user.now mode origin.now }
{
    if table::is_bad_user(user) || is_bad_mode(mode) {
        return Err(Refusal::BadUserOrMode);
    }
    if is_bad_origin(origin) {
        return Err(Refusal::BadOrigin);
    }
    Ok(())
}
