#![tactic(auto)]

// An upload, as a step by value: the whole text is checked before a byte of it is stored.
ghost use Rattle.std.specs.Prelude.{◌≡◌, ◌+◌, ◌≤◌, length};
ghost use Rattle.limits.specs.Limits.{slot_length};
ghost use Rattle.text.specs.Fill.{put};
ghost use Rattle.rotation.specs.Calls.{upload_answer, upload, upload_store, step_of};
ghost use Rattle.table.specs.Checked.{checked_as};
ghost use Rattle.rotation_upload.specs.Offered.{offered_check};

use refusal::Fault;
use rotation::Record;

// The check of a text offered to a record of that kind. A policy's refusal carries no line.
fn check_offered(kind: u32, text: &[u8]) -> Result<(), Fault>
    ensures { checked_as result ≡ offered_check kind text.now }
{
    if kind == 1 {
        policy_check::check::check_policy(text)?;
        return Ok(());
    }
    table_check::check_table(text)
}

// What an upload to a store of n bytes answers: 11, 15 or 13, else the check of the text.
fn answer(r: Record, n: usize, text: &[u8]) -> Result<(), Fault>
    ensures { checked_as result ≡ upload_answer offered_check r n text.now }
{
    rotation_step::check_on(r, n)?;
    check_offered(r.kind, text)
}

// The text goes to the start of a slot.
fn store_at(start: usize, text: &[u8], store: &mut [u8])
    requires { (start + slot_length ≤ length store.old) × (length text.now ≤ slot_length) }
    ensures { store.new ≡ put store.old start text.now }
{
    text::fill::copy(text, store, start);
}

// The whole text is checked, then stored to the slot that is not live.
pub fn upload(r: Record, store: &mut [u8], text: &[u8]) -> Result<Record, Fault>
    ensures { (step_of r result ≡ upload offered_check r (length store.old) text.now)
        × (store.new ≡ upload_store offered_check r store.old text.now) }
{
    answer(r, store.len(), text)?;
    store_at(rotation::slot_start(r.candidate_slot()), text, store);
    let next = Record {
        candidate_len: text.len() as u32,
        ..r
    };
    Ok(next)
}
