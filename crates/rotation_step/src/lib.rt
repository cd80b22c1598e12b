#![tactic(auto)]

// Start, finalize and close as steps by value, on a record and a store of n bytes: the next record, or the fault, which leaves the record as it is.
ghost use Rattle.std.specs.Prelude.{◌≡◌};
ghost use Rattle.refusal.specs.Refusal.{code};
ghost use Rattle.rotation.specs.Calls.{step_of, off_refusal, start, finalize, close};

use refusal::{Fault, Refusal};
use rotation::Record;

// Of upload, finalize and close: 11, 15 or 13.
pub fn check_on(r: Record, n: usize) -> Result<(), Refusal>
    ensures { code result ≡ off_refusal r n }
{
    r.check(n)?;
    if !r.is_on() {
        return Err(Refusal::RotationOff);
    }
    Ok(())
}

// A rotation begins; 11, 15 or 12.
pub fn start(r: Record, n: usize) -> Result<Record, Fault>
    ensures { step_of r result ≡ start r n }
{
    r.check(n)?;
    if r.is_on() {
        return Err(Fault::from(Refusal::RotationOn));
    }
    Ok(Record {
        rotating: 1,
        candidate_len: rotation::NO_LENGTH,
        ..r
    })
}

// The candidate becomes the live text; 11, 15, 13 or 14.
pub fn finalize(r: Record, n: usize) -> Result<Record, Fault>
    ensures { step_of r result ≡ finalize r n }
{
    check_on(r, n)?;
    let Some(len) = r.candidate() else {
        return Err(Fault::from(Refusal::NoCandidate));
    };
    Ok(r.at_rest(r.candidate_slot(), len))
}

// The candidate is dropped; 11, 15 or 13.
pub fn close(r: Record, n: usize) -> Result<Record, Fault>
    ensures { step_of r result ≡ close r n }
{
    check_on(r, n)?;
    Ok(r.at_rest(r.live_slot, r.live_len))
}
