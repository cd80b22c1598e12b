#![tactic(auto)]

// A group or a member of the table, judged against the rows before it, and kept: its place is stored where it is not refused. n are the rows of
// its kind before it.
ghost use Rattle.std.specs.Prelude.{◌≡◌};
ghost use Rattle.text.specs.Refusal.{clear};
ghost use Rattle.refusal.specs.Refusal.{code};
ghost use Rattle.table_rows.specs.Strings.{strings_in};
ghost use Rattle.table.specs.Frame.{entry_of};
ghost use Rattle.table.specs.Refusal.{Earlier, framed, refusal};
ghost use Rattle.table_keep.specs.Held.{members_in, GroupReady, MemberReady, GroupKept, MemberKept};

use refusal::Refusal;

pub mod lookup;
pub mod row;

pub use lookup::{GroupNames, HINT_PLACES, Lookup};
pub use row::Row;

// The set of members: sorted keys, their count, and a place for each hash.
const MEMBER_PLACES: usize = 8 * limits::MAX_MEMBERS;

const FIRST_MEMBER_PLACE: usize = limits::MAX_MEMBERS + 1;

pub const MEMBER_KEYS: usize = FIRST_MEMBER_PLACE + MEMBER_PLACES;

// What refuses a group's frame. Where nothing does, the group is kept, and so is its name.
pub fn take_group(
    row: Row,
    starts: &mut [u16; limits::MAX_GROUPS],
    n: usize,
    names: &mut GroupNames,
) -> Result<(), Refusal>
    requires { GroupReady row.old.now row.frame.now starts.old names.old.sorted n }
    ensures value { (b : Earlier) → b.kind ≡ row.entry.last
        → b.groups ≡ strings_in row.entry.old.now starts.old n 0
        → code result ≡ refusal b (framed (entry_of row.entry.frame.now)) }
    ensures group_kept { code result ≡ clear
        → GroupKept row.entry.old.now row.entry.frame.now starts.old n starts.new names.new.sorted }
{
    let Row {
        old,
        frame: f,
        last,
    } = row;
    let Some(end) = text::frame::string_end(f, table::AFTER_KIND) else {
        return Err(Refusal::BadFrame);
    };
    if end != f.len() {
        return Err(Refusal::BadFrame);
    }
    if table::frame::is_out_of_order(last, table::KIND_GROUP) {
        return Err(Refusal::OutOfOrder);
    }
    let start = table::FIRST_NAME;
    let name = &f[start..end];
    let five = table::frame::is_unsized(limits::MAX_STRING, name.len()) | (limits::MAX_GROUPS <= n);
    let six = !text::string::all_print(name);
    let s = text_sorted::find(old, &names.sorted, n, name);
    table::frame::number(five, six, s.again, false)?;
    let from = old.len() + start;
    let to = old.len() + end;
    text_sorted::insert(&mut names.sorted, n, s.at, from, to);
    starts[n] = (old.len() + table::AFTER_KIND) as u16;
    let h = table_rows::hash(name) % HINT_PLACES;
    names.hints[h] = n as u8;
    Ok(())
}

// What refuses a member's frame. Where nothing does, the member is kept.
pub fn take_member(
    row: Row,
    groups: Lookup,
    users: &mut [u16; limits::MAX_MEMBERS],
    owners: &mut [u8; limits::MAX_MEMBERS],
    n: usize,
    keys: &mut [u32; MEMBER_KEYS],
) -> Result<(), Refusal>
    requires of_row { row.old.now ≡ groups.bytes.now }
    requires ready { MemberReady row.old.now row.frame.now groups.starts.now groups.count users.old owners.old keys.old n }
    ensures value { (b : Earlier) → b.kind ≡ row.entry.last
        → b.groups ≡ strings_in row.entry.old.now groups.entry.starts.now groups.entry.count 0
        → b.members ≡ members_in b.groups owners.old row.entry.old.now users.old n
        → code result ≡ refusal b (framed (entry_of row.entry.frame.now)) }
    ensures member_kept { code result ≡ clear
        → MemberKept (strings_in row.entry.old.now groups.entry.starts.now groups.entry.count 0) row.entry.old.now row.entry.frame.now
        users.old owners.old n users.new owners.new keys.new }
{
    let Row {
        old,
        frame: f,
        last,
    } = row;
    let Some(middle) = text::frame::string_end(f, table::AFTER_KIND) else {
        return Err(Refusal::BadFrame);
    };
    let Some(end) = text::frame::string_end(f, middle) else {
        return Err(Refusal::BadFrame);
    };
    if end != f.len() {
        return Err(Refusal::BadFrame);
    }
    if table::frame::is_out_of_order(last, table::KIND_MEMBER) {
        return Err(Refusal::OutOfOrder);
    }
    let start = table::FIRST_NAME;
    let from = middle + 1;
    let group = &f[start..middle];
    let user = &f[from..end];
    let after = table::AFTER_KIND;
    let key = &f[after..end];
    let g = groups.number_of(group);
    let p = FIRST_MEMBER_PLACE + table_rows::hash(key) % MEMBER_PLACES;
    let s = text_set::find(old, keys, limits::MAX_MEMBERS, p, key);
    let five = table::frame::is_unsized(limits::MAX_STRING, group.len())
        | table::frame::is_unsized(limits::MAX_STRING, user.len())
        | (limits::MAX_MEMBERS <= n);
    let six = !text::string::all_print(group) | !text::string::all_print(user);
    table::frame::number(five, six, s.again, g.0 as usize == groups.count)?;
    users[n] = (old.len() + middle) as u16;
    owners[n] = g.0;
    let begin = old.len() + after;
    let to = old.len() + end;
    text_set::add(keys, limits::MAX_MEMBERS, p, s.at, begin, to);
    Ok(())
}
