#![tactic(auto)]

// Every limit of the rules, once for the programs, and the sizes that follow from them. `specs/Limits` has the sentences, `specs/Sizes` the sizes;
// `constants` is proved to agree with both.
ghost use Rattle.std.specs.Prelude.{◌≡◌};
ghost use Rattle.limits.specs.Sizes.{all};

// Rule table text.
pub const MAX_TABLE_TEXT: usize = 32768;

pub const MAX_GROUPS: usize = 64;

pub const MAX_MEMBERS: usize = 512;

pub const MAX_RULES: usize = 256;

pub const MAX_ELEMENTS: usize = 16;

pub const MAX_KEYS: usize = 4;

pub const MAX_SHORT_STRING: usize = 32;

pub const MAX_STRING: usize = 64;

// Policy text.
pub const MAX_POLICY_TEXT: usize = 16384;

pub const MAX_DEPTH: usize = 16;

pub const MAX_LIST_RULES: usize = 64;

pub const MAX_ENTRIES: usize = 32;

pub const MAX_POLICY_STRING: usize = 256;

// RPC requests.
pub const MAX_REQUEST_STRING: usize = 256;

pub const MAX_HEADER_LINES: usize = 8192;

// Rotation.
pub const SLOT_LENGTH: usize = 32768;

pub const STORE_LENGTH: usize = 2 * SLOT_LENGTH;

// Logs.
pub const MAX_LOG_LINES: usize = 1000000;

// The sizes that follow from them: the lines of a table decoded.
pub const MAX_TABLE_BYTES: usize = MAX_TABLE_TEXT / 2;

// Path bytes.
pub const MAX_STRING_BYTES: usize = 1 + MAX_STRING;

pub const MAX_KEY_BYTES: usize = 2 * MAX_STRING_BYTES;

pub const MAX_KEYS_BYTES: usize = 1 + MAX_KEYS * MAX_KEY_BYTES;

pub const MAX_ELEM_BYTES: usize = MAX_STRING_BYTES + MAX_KEYS_BYTES;

pub const MAX_PATH_BYTES: usize = 1 + MAX_ELEMENTS * MAX_ELEM_BYTES;

// Path text.
pub const MAX_VALUE_TEXT: usize = 2 * MAX_STRING;

pub const MAX_KEY_TEXT: usize = 3 + MAX_STRING + MAX_VALUE_TEXT;

pub const MAX_ELEM_TEXT: usize = 1 + MAX_STRING + MAX_KEYS * MAX_KEY_TEXT;

pub const MAX_PATH_TEXT: usize = MAX_ELEMENTS * MAX_ELEM_TEXT;

// The readable form of a table.
pub const MAX_QUOTED: usize = 2 + MAX_VALUE_TEXT;

pub const MAX_READABLE_LINE: usize = MAX_PATH_TEXT + 480;

pub const MAX_READABLE_TEXT: usize = MAX_TABLE_TEXT
    + 12
    + 4 * MAX_GROUPS
    + 6 * MAX_MEMBERS
    + 29 * MAX_RULES;

// Logs: the frame of a good line, the line, and the report over them.
pub const MAX_HEADING: usize = 1 + MAX_STRING_BYTES + 1 + MAX_SHORT_STRING;

pub const MAX_LOG_FRAME: usize = MAX_HEADING + MAX_PATH_BYTES;

pub const MAX_LOG_LINE: usize = 2 * MAX_LOG_FRAME + 1;

pub const REPORT_LINES: usize = MAX_RULES + 6;

pub const MAX_REPORT: usize = REPORT_LINES * 8;

// No refusal number: `clear` of the definitions, which the functions that answer a number give where nothing is to be refused.
pub const CLEAR: u8 = 255;

// Every limit and every size, in the order of the definitions.
pub fn constants() -> [usize; 36]
    ensures { result ≡ all }
{
    [
        MAX_TABLE_TEXT,
        MAX_GROUPS,
        MAX_MEMBERS,
        MAX_RULES,
        MAX_ELEMENTS,
        MAX_KEYS,
        MAX_SHORT_STRING,
        MAX_STRING,
        MAX_POLICY_TEXT,
        MAX_DEPTH,
        MAX_LIST_RULES,
        MAX_ENTRIES,
        MAX_POLICY_STRING,
        MAX_REQUEST_STRING,
        MAX_HEADER_LINES,
        SLOT_LENGTH,
        STORE_LENGTH,
        MAX_LOG_LINES,
        MAX_TABLE_BYTES,
        MAX_STRING_BYTES,
        MAX_KEY_BYTES,
        MAX_KEYS_BYTES,
        MAX_ELEM_BYTES,
        MAX_PATH_BYTES,
        MAX_VALUE_TEXT,
        MAX_KEY_TEXT,
        MAX_ELEM_TEXT,
        MAX_PATH_TEXT,
        MAX_QUOTED,
        MAX_READABLE_LINE,
        MAX_READABLE_TEXT,
        MAX_HEADING,
        MAX_LOG_FRAME,
        MAX_LOG_LINE,
        REPORT_LINES,
        MAX_REPORT,
    ]
}
