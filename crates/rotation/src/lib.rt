#![tactic(auto)]

// The rotation record.
mod state;

pub use state::slot_start;

// What a record's texts are.
#[derive(Clone, Copy)]
pub enum Kind {
    Policy,
    Table,
}

// Stands for no length in C's layout of a record; `Record::live` and `Record::candidate` read it as an `Option`.
pub const NO_LENGTH: u32 = u32::MAX;

// As the host lends it: five numbers in C's layout.
#[repr(C)]
#[derive(Clone, Copy)]
pub struct Record {
    // 1 policy, 2 table: `Record::kind_of` reads it as a `Kind`.
    pub kind: u32,
    // 0 or 1; it counts only where there is a live text.
    pub live_slot: u32,
    // The length of the live text.
    pub live_len: u32,
    // 0 off, any other number on.
    pub rotating: u32,
    // The length of the candidate, which stands in the slot that is not live.
    pub candidate_len: u32,
}

// The text of a slot.
#[derive(Clone, Copy)]
pub struct SlotText {
    pub slot: u32,
    pub len: u32,
}
