// Where the text in force lies, once record and store are judged.
ghost use Rattle.std.specs.Prelude.{◌≡◌};
ghost use Rattle.rotation.specs.State.{kind_number};
ghost use Rattle.rotation_probe.specs.Source.{source_of, source_as};

use refusal::Refusal;
use rotation::{Kind, Record};

// A part of the store. It is copied, as a Range is not.
#[derive(Clone, Copy)]
pub struct Part {
    pub start: usize,
    pub end: usize,
}

// The part that holds the text in force, if there is one. For a probe of records of that kind, and a store of n bytes.
pub fn find_source(r: Record, n: usize, kind: Kind) -> Result<Option<Part>, Refusal>
    ensures { source_as result ≡ source_of (kind_number kind) r n }
{
    r.check_kind(n, kind)?;
    let Some(text) = r.in_force() else {
        return Ok(None);
    };
    let start = rotation::slot_start(text.slot);
    Ok(Some(Part {
        start,
        end: start + text.len as usize,
    }))
}
