#![tactic(auto)]

// The request of a log line, in the bytes of its frame: its heading (mode, user, origin); `path_frame` reads the path after it.
ghost use Rattle.std.specs.Prelude.{◌≡◌};
ghost use Rattle.request_log.specs.Heading.{heading, headed, told};

use refusal::Refusal;

#[derive(Clone, Copy)]
pub struct Heading {
    // 20 or 21.
    pub refusal: Result<(), Refusal>,
    // Where the origin stands, and where the path.
    pub origin: usize,
    pub path: usize,
}

// Reads mode, user and origin. None: the frame is too short.
pub fn read_heading(f: &[u8]) -> Option<Heading>
    ensures { told result ≡ headed (heading f.now 0) }
{
    let mode = *f.first()?;
    let origin = text::frame::string_end(f, 1)?;
    let path = text::frame::string_end(f, origin)?;
    let user = &f[2..origin];
    let refusal = verdict_request::request::check(user, mode as u32, &f[origin + 1..path]);
    Some(Heading {
        refusal,
        origin,
        path,
    })
}
