// Reading a frame by position.
ghost use Rattle.std.specs.Prelude.{◌≡◌};
ghost use Rattle.text.specs.Frame.{string};
ghost use Rattle.text.specs.Steps.{end_of};

// Where the string ends whose length byte stands at `at`, which is where reading goes on; its bytes start at at + 1. None: the frame is too short.
#[tactic(auto, using(crate::proofs::Frames::ends_at, crate::proofs::Frames::ends_past, crate::proofs::Frames::ends_none))]
pub fn string_end(f: &[u8], at: usize) -> Option<usize>
    ensures { result ≡ end_of (string f.now at) }
{
    let n = *f.get(at)? as usize;
    let start = at + 1;
    if n <= f.len() - start {
        Some(start + n)
    } else {
        None
    }
}
