// The C boundary of the rotation record, which is lent by `&mut`.
ghost use Rattle.std.specs.Prelude.{◌≡◌};
ghost use Rattle.burgee.specs.Calls.{Start, Upload, Finalize, Close, held, word, after};

use rotation::Record;

// A rotation begins.
#[unsafe(no_mangle)]
pub extern "C" fn burgee_start(rec: &mut Record, store: &[u8]) -> u64
    ensures { (result ≡ word (Start rec.old store.now))
        × (held rec.new store.now ≡ after (Start rec.old store.now)) }
{
    burgee::records::burgee_start(rec, store)
}

// A text is tried: the one call that stores to the slots.
#[unsafe(no_mangle)]
pub extern "C" fn burgee_upload(rec: &mut Record, store: &mut [u8], text: &[u8]) -> u64
    ensures { (result ≡ word (Upload rec.old store.old text.now))
        × (held rec.new store.new ≡ after (Upload rec.old store.old text.now)) }
{
    burgee::records::burgee_upload(rec, store, text)
}

// The candidate becomes the live text.
#[unsafe(no_mangle)]
pub extern "C" fn burgee_finalize(rec: &mut Record, store: &[u8]) -> u64
    ensures { (result ≡ word (Finalize rec.old store.now))
        × (held rec.new store.now ≡ after (Finalize rec.old store.now)) }
{
    burgee::records::burgee_finalize(rec, store)
}

// The candidate is dropped.
#[unsafe(no_mangle)]
pub extern "C" fn burgee_close(rec: &mut Record, store: &[u8]) -> u64
    ensures { (result ≡ word (Close rec.old store.now))
        × (held rec.new store.now ≡ after (Close rec.old store.now)) }
{
    burgee::records::burgee_close(rec, store)
}
