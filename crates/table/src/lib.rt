#![tactic(auto)]

// Rule tables: the answers of the calls on a table text, and its frames.
ghost use Rattle.std.specs.Prelude.{◌≡◌};
ghost use Rattle.table.specs.Group.{bad_user};

pub mod frame;

// The kind bytes of frames.
pub const KIND_VERSION: u8 = 1;

pub const KIND_GROUP: u8 = 2;

pub const KIND_MEMBER: u8 = 3;

pub const KIND_RULE: u8 = 4;

// Where a frame goes on after its kind byte.
pub const AFTER_KIND: usize = 1;

// The first byte of the string there: that of a version, of a group's name, of a member's group.
pub const FIRST_NAME: usize = AFTER_KIND + 1;

// The parts of a rule, from there on: its action, its mode, whether its subject is a group, and the length byte of its subject's name.
pub const RULE_ACTION: usize = 0;

pub const RULE_MODE: usize = 1;

pub const RULE_SUBJECT_KIND: usize = 2;

pub const RULE_SUBJECT: usize = 3;

// The same in the frame of a rule, and the first byte of its subject's name.
pub const FRAME_ACTION: usize = AFTER_KIND + RULE_ACTION;

pub const FRAME_MODE: usize = AFTER_KIND + RULE_MODE;

pub const FRAME_SUBJECT_KIND: usize = AFTER_KIND + RULE_SUBJECT_KIND;

pub const FRAME_SUBJECT: usize = AFTER_KIND + RULE_SUBJECT;

pub const FRAME_SUBJECT_NAME: usize = FRAME_SUBJECT + 1;

// The code bytes of a rule.
pub const ACTION_DENY: u8 = 0;

pub const ACTION_PERMIT: u8 = 1;

pub const MODE_READ: u8 = 1;

pub const MODE_WRITE: u8 = 2;

pub const SUBJECT_USER: u8 = 0;

pub const SUBJECT_GROUP: u8 = 1;

// The user is not as a table allows (20).
pub fn is_bad_user(user: &[u8]) -> bool
    ensures { result ≡ bad_user user.now }
{
    if frame::is_unsized(limits::MAX_STRING, user.len()) {
        return true;
    }
    !text::string::all_print(user)
}

// Groups and rules are numbered from 0 in text order. The two kinds of number never stand for each other.
#[derive(Clone, Copy)]
pub struct GroupNumber(pub u8);

#[derive(Clone, Copy)]
pub struct RuleNumber(pub u16);

// How many groups a user has, at least one, and the first of them.
#[derive(Clone, Copy)]
pub struct Groups {
    pub count: u8,
    pub first: GroupNumber,
}
