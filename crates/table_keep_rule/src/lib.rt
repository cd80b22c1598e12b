#![tactic(auto)]

// A rule of the table, judged against the rows before it, and kept: its places are stored where it is not refused. n are the rules before it.
ghost use Rattle.std.specs.Prelude.{◌≡◌, ◌<◌, set};
ghost use Rattle.limits.specs.Limits.{max_rules};
ghost use Rattle.text.specs.Test.{whether◌then◌else◌};
ghost use Rattle.text.specs.Refusal.{clear};
ghost use Rattle.refusal.specs.Refusal.{code};
ghost use Rattle.table_rows.specs.Strings.{strings_in, place};
ghost use Rattle.table.specs.Frame.{entry_of};
ghost use Rattle.table.specs.Refusal.{Earlier, framed, refusal};
ghost use Rattle.table_keep_rule.specs.Kept.{ids_of, Ids, RuleReady, RuleKept};

use refusal::Refusal;
use table::{GroupNumber, RuleNumber};
use table_keep::{Lookup, Row};

// The set of ids: sorted keys, their count, and a place for each hash.
const ID_PLACES: usize = 8 * limits::MAX_RULES;

const FIRST_ID_PLACE: usize = limits::MAX_RULES + 1;

pub const ID_KEYS: usize = FIRST_ID_PLACE + ID_PLACES;

// The number of the subject among the groups. A user has none: 0 fills its place among the holders, where only rules of groups are looked up.
fn holder_of(groups: Lookup, by_group: bool, subject: &[u8]) -> GroupNumber
    ensures { result.0 ≡ (whether by_group
        then place subject.now (strings_in groups.entry.bytes.now groups.entry.starts.now groups.entry.count 0) else 0) }
{
    if by_group {
        return groups.number_of(subject);
    }
    GroupNumber(0)
}

// The rule's content stands at `start`, and group g holds it.
fn store(
    starts: &mut [u16; limits::MAX_RULES],
    holders: &mut [u8; limits::MAX_RULES],
    rule: RuleNumber,
    start: usize,
    g: GroupNumber,
)
    requires { (rule.0 < max_rules) × (start < 65536) }
    ensures starts_after { starts.new ≡ set starts.old rule.0 start }
    ensures holders_after { holders.new ≡ set holders.old rule.0 g.0 }
{
    let k = rule.0 as usize;
    starts[k] = start as u16;
    holders[k] = g.0;
}

// What refuses a rule's frame. Where nothing does, the rule is kept.
pub fn take_rule(
    row: Row,
    groups: Lookup,
    starts: &mut [u16; limits::MAX_RULES],
    holders: &mut [u8; limits::MAX_RULES],
    n: usize,
    keys: &mut [u32; ID_KEYS],
) -> Result<(), Refusal>
    requires of_row { row.old.now ≡ groups.bytes.now }
    requires ready { RuleReady row.old.now row.frame.now keys.old n }
    ensures value { (b : Earlier) → b.kind ≡ row.entry.last
        → b.groups ≡ strings_in row.entry.old.now groups.entry.starts.now groups.entry.count 0
        → Ids row.entry.old.now keys.old n (ids_of b.rules)
        → code result ≡ refusal b (framed (entry_of row.entry.frame.now)) }
    ensures rule_kept { code result ≡ clear
        → RuleKept (strings_in row.entry.old.now groups.entry.starts.now groups.entry.count 0) row.entry.old.now row.entry.frame.now
        starts.old holders.old keys.old n starts.new holders.new keys.new }
{
    let Row {
        old,
        frame: f,
        last,
    } = row;
    let Some(r) = table::frame::read_rule(f) else {
        return Err(Refusal::BadFrame);
    };
    if table::frame::is_out_of_order(last, table::KIND_RULE) {
        return Err(Refusal::OutOfOrder);
    }
    let start = table::FRAME_SUBJECT_NAME;
    let from = r.subject + 1;
    let then = r.id + 1;
    let subject = &f[start..r.subject];
    let id = &f[from..r.id];
    let origin = &f[then..r.origin];
    let by_group = f[table::FRAME_SUBJECT_KIND] == table::SUBJECT_GROUP;
    let g = holder_of(groups, by_group, subject);
    let p = FIRST_ID_PLACE + table_rows::hash(id) % ID_PLACES;
    let t = text_set::find(old, keys, limits::MAX_RULES, p, id);
    let five = (table::frame::is_unsized(limits::MAX_STRING, subject.len())
        | table::frame::is_unsized(limits::MAX_SHORT_STRING, id.len()))
        | ((limits::MAX_SHORT_STRING < origin.len()) | (limits::MAX_RULES <= n));
    let six = !text::string::all_print(subject)
        | (!text::string::all_print(id) | !text::string::all_print(origin));
    let nine = by_group & (g.0 as usize == groups.count);
    refusal::smaller(r.fault, table::frame::number(five, six, t.again, nine))?;
    store(
        starts,
        holders,
        RuleNumber(n as u16),
        old.len() + table::AFTER_KIND,
        g,
    );
    let begin = old.len() + from;
    let to = old.len() + r.id;
    text_set::add(keys, limits::MAX_RULES, p, t.at, begin, to);
    Ok(())
}
