// The C boundary of the rotation record: thin functions on a record lent by `&mut`, each above a step by value.
ghost use Rattle.std.specs.Prelude.{◌≡◌};
ghost use Rattle.rotation.specs.Calls.{step_of};
ghost use Rattle.burgee.specs.Word.{checked_word};
ghost use Rattle.burgee.specs.Calls.{Start, Upload, Finalize, Close, held, word, after};

use refusal::Fault;
use rotation::Record;

// The word of a step's answer; the record becomes the next one, and a refusal leaves it as it is.
fn settle(rec: &mut Record, step: Result<Record, Fault>) -> u64
    ensures word { result ≡ checked_word (step_of rec.old step).answer }
    ensures next { rec.new ≡ (step_of rec.old step).next }
{
    match step {
        Ok(next) => {
            *rec = next;
            0
        }
        Err(fault) => crate::word::of_refusal(fault.refusal.number(), fault.line),
    }
}

// A rotation begins.
pub fn burgee_start(rec: &mut Record, store: &[u8]) -> u64
    ensures { (result ≡ word (Start rec.old store.now))
        × (held rec.new store.now ≡ after (Start rec.old store.now)) }
{
    let step = rotation_step::start(*rec, store.len());
    settle(rec, step)
}

// A text is tried: the one call that stores to the slots.
pub fn burgee_upload(rec: &mut Record, store: &mut [u8], text: &[u8]) -> u64
    ensures { (result ≡ word (Upload rec.old store.old text.now))
        × (held rec.new store.new ≡ after (Upload rec.old store.old text.now)) }
{
    let step = rotation_upload::upload(*rec, store, text);
    settle(rec, step)
}

// The candidate becomes the live text.
pub fn burgee_finalize(rec: &mut Record, store: &[u8]) -> u64
    ensures { (result ≡ word (Finalize rec.old store.now))
        × (held rec.new store.now ≡ after (Finalize rec.old store.now)) }
{
    let step = rotation_step::finalize(*rec, store.len());
    settle(rec, step)
}

// The candidate is dropped.
pub fn burgee_close(rec: &mut Record, store: &[u8]) -> u64
    ensures { (result ≡ word (Close rec.old store.now))
        × (held rec.new store.now ≡ after (Close rec.old store.now)) }
{
    let step = rotation_step::close(*rec, store.len());
    settle(rec, step)
}
