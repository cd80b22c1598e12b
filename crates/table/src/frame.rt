// The frames of a rule table: where their strings end, and what refuses them.
ghost use Rattle.std.specs.Prelude.{◌≡◌};
ghost use Rattle.std.proofs.Math.Option.{some};
ghost use Rattle.text.specs.String.{Str};
ghost use Rattle.text.specs.Refusal.{clear};
ghost use Rattle.refusal.specs.Refusal.{code};
ghost use Rattle.table.specs.Layout.{kind_version, kind_rule};
ghost use Rattle.table.specs.Frame.{version, entry_of};
ghost use Rattle.table.specs.Refusal.{Earlier, framed, out_of_order, refusal};
ghost use Rattle.table.specs.Walk.{OfKind, merged, unsized_by, RuleRead};

use refusal::Refusal;

// The order of kinds is broken: `last` is the kind of the line before, 0 on the first line. Kinds stay the bytes of the frames: they are compared
// as numbers ("kinds never fall"), and so an enum would be turned into them again.
pub fn is_out_of_order(last: u8, kind: u8) -> bool
    ensures { result ≡ out_of_order last kind }
{
    if last == 0 {
        return kind != crate::KIND_VERSION;
    }
    (kind == crate::KIND_VERSION) | (kind < last)
}

// The first refusal from 5 on whose flag is set; 7 is of paths alone, and joins by `refusal::smaller`.
pub fn number(five: bool, six: bool, eight: bool, nine: bool) -> Result<(), Refusal>
    ensures { code result ≡ merged clear five six eight nine }
{
    if five {
        return Err(Refusal::LimitPassed);
    }
    if six {
        return Err(Refusal::StrayByte);
    }
    if eight {
        return Err(Refusal::Repeated);
    }
    if nine {
        return Err(Refusal::UnlistedGroup);
    }
    Ok(())
}

// The length of a string that may not be empty is 0 or over the limit.
pub fn is_unsized(limit: usize, n: usize) -> bool
    ensures { result ≡ unsized_by limit n }
{
    (n == 0) | (limit < n)
}

// What refuses a version's frame; `last` is the kind of the line before.
pub fn version_number(f: &[u8], last: u8) -> Result<(), Refusal>
    requires { OfKind kind_version f.now }
    ensures value { (b : Earlier) → b.kind ≡ last → code result ≡ refusal b (framed (entry_of f.now)) }
    ensures f_value { code result ≡ clear → (v : Str) × (t : Str) × (entry_of f.now ≡ some (version v t)) }
{
    let Some(end) = text::frame::string_end(f, crate::AFTER_KIND) else {
        return Err(Refusal::BadFrame);
    };
    if f.len() - end != 8 {
        return Err(Refusal::BadFrame);
    }
    if is_out_of_order(last, crate::KIND_VERSION) {
        return Err(Refusal::OutOfOrder);
    }
    let start = crate::FIRST_NAME;
    let version = &f[start..end];
    let five = is_unsized(limits::MAX_SHORT_STRING, version.len());
    let six = !text::string::all_print(version);
    number(five, six, false, false)
}

// Where the strings of a rule end, and what refuses its path.
#[derive(Clone, Copy)]
pub struct RuleFrame {
    pub subject: usize,
    pub id: usize,
    pub origin: usize,
    pub fault: Result<(), Refusal>,
}

// Reads the frame of a rule, if it is one.
pub fn read_rule(f: &[u8]) -> Option<RuleFrame>
    requires { OfKind kind_rule f.now }
    ensures { RuleRead f.now result }
{
    if f.len() < crate::FRAME_SUBJECT {
        return None;
    }
    let action = f[crate::FRAME_ACTION];
    let mode = f[crate::FRAME_MODE];
    let kind = f[crate::FRAME_SUBJECT_KIND];
    let known = ((action == crate::ACTION_DENY) | (action == crate::ACTION_PERMIT))
        & ((mode == crate::MODE_READ) | (mode == crate::MODE_WRITE))
        & ((kind == crate::SUBJECT_USER) | (kind == crate::SUBJECT_GROUP));
    if !known {
        return None;
    }
    let subject = text::frame::string_end(f, crate::FRAME_SUBJECT)?;
    let id = text::frame::string_end(f, subject)?;
    let origin = text::frame::string_end(f, id)?;
    let Some(path) = path_frame::read_path(f, origin) else {
        return None;
    };
    if path.next != f.len() {
        return None;
    }
    Some(RuleFrame {
        subject,
        id,
        origin,
        fault: path.refusal,
    })
}
