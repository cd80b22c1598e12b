// What a record says.
ghost use Rattle.std.specs.Prelude.{◌≡◌};
ghost use Rattle.text.specs.Refusal.{clear};
ghost use Rattle.refusal.specs.Refusal.{code};
ghost use Rattle.text.specs.Test.{◌and◌};
ghost use Rattle.rotation.specs.State.{given, length_of, kind_number, kind_of, bad_kind, bad_slot, bad_length, bad_record, off, on, record_refusal};
ghost use Rattle.rotation.specs.State.{slot_start, candidate_slot, in_force, force_of, at_rest};
ghost use Rattle.rotation.specs.Calls.{probe_refusal};

use crate::{Kind, Record, SlotText};
use refusal::Refusal;

// A length, or none.
#[tactic(auto, using(text::proofs::Choices::choices), unfolding(crate::specs::State::given, crate::specs::State::length_of))]
fn given(len: u32) -> Option<u32>
    ensures { result ≡ length_of len }
{
    if len == crate::NO_LENGTH {
        None
    } else {
        Some(len)
    }
}

#[tactic(auto, using(text::proofs::Choices::choices), unfolding(crate::specs::State::given, crate::specs::State::length_of, crate::specs::State::bad_length))]
fn is_bad_length(len: u32) -> bool
    ensures { result ≡ bad_length len }
{
    given(len).is_some_and(|n| limits::SLOT_LENGTH < n as usize)
}

// Where a slot starts in the store.
pub fn slot_start(slot: u32) -> usize
    ensures { result ≡ slot_start slot }
{
    slot as usize * limits::SLOT_LENGTH
}

impl Kind {
    // As a record has it.
    pub fn number(self) -> u32
        ensures { result ≡ kind_number self }
    {
        match self {
            Kind::Policy => 1,
            Kind::Table => 2,
        }
    }
}

impl Record {
    #[tactic(auto, using(text::proofs::Choices::choices), unfolding(crate::specs::State::kind_of))]
    pub fn kind_of(self) -> Option<Kind>
        ensures { result ≡ kind_of self.kind }
    {
        match self.kind {
            1 => Some(Kind::Policy),
            2 => Some(Kind::Table),
            _ => None,
        }
    }

    // The length of the live text.
    pub fn live(self) -> Option<u32>
        ensures { result ≡ length_of self.live_len }
    {
        given(self.live_len)
    }

    // The length of the candidate.
    pub fn candidate(self) -> Option<u32>
        ensures { result ≡ length_of self.candidate_len }
    {
        given(self.candidate_len)
    }

    // A rotation is on.
    #[tactic(auto, unfolding(crate::specs::State::on, crate::specs::State::off))]
    pub fn is_on(self) -> bool
        ensures { result ≡ on self }
    {
        self.rotating != 0
    }

    #[tactic(auto, using(text::proofs::Choices::choices), unfolding(crate::specs::State::kind_of, crate::specs::State::bad_kind))]
    fn is_bad_kind(self) -> bool
        ensures { result ≡ bad_kind self }
    {
        self.kind_of().is_none()
    }

    #[tactic(auto, using(text::proofs::Choices::choices), unfolding(crate::specs::State::length_of, crate::specs::State::bad_slot))]
    fn is_bad_slot(self) -> bool
        ensures { result ≡ bad_slot self }
    {
        self.live().is_some() && 1 < self.live_slot
    }

    // A candidate while no rotation is on.
    #[tactic(auto, using(text::proofs::Choices::choices), unfolding(crate::specs::State::length_of, crate::specs::State::on))]
    fn is_stray(self) -> bool
        ensures { result ≡ (off self and given self.candidate_len) }
    {
        !self.is_on() && self.candidate().is_some()
    }

    #[tactic(auto, using(text::proofs::Choices::choices), unfolding(crate::specs::State::bad_record))]
    fn is_bad(self) -> bool
        ensures { result ≡ bad_record self }
    {
        self.is_bad_kind()
            || self.is_bad_slot()
            || is_bad_length(self.live_len)
            || is_bad_length(self.candidate_len)
            || self.is_stray()
    }

    // With a store of n bytes: 11 or 15.
    #[tactic(auto, using(text::proofs::Choices::choices), unfolding(crate::specs::State::record_refusal, crate::specs::State::short_store))]
    pub fn check(self, n: usize) -> Result<(), Refusal>
        ensures { code result ≡ record_refusal self n clear }
    {
        if n < limits::STORE_LENGTH {
            return Err(Refusal::ShortStore);
        }
        if self.is_bad() {
            return Err(Refusal::BadRecord);
        }
        Ok(())
    }

    // For a probe of records of that kind: 11, 15 or 16.
    #[tactic(auto, using(crate::proofs::Tests::refused))]
    pub fn check_kind(self, n: usize, kind: Kind) -> Result<(), Refusal>
        ensures { code result ≡ probe_refusal (kind_number kind) self n }
    {
        self.check(n)?;
        if self.kind != kind.number() {
            return Err(Refusal::OtherKind);
        }
        Ok(())
    }

    // The slot that is not live.
    #[tactic(auto, using(text::proofs::Choices::choices), unfolding(crate::specs::State::length_of, crate::specs::State::candidate_slot))]
    pub fn candidate_slot(self) -> u32
        ensures { result ≡ candidate_slot self }
    {
        if self.live().is_some() && self.live_slot == 0 {
            1
        } else {
            0
        }
    }

    // That slot and length live, no candidate, rotation off.
    pub fn at_rest(self, live_slot: u32, live_len: u32) -> Record
        ensures { result ≡ at_rest self live_slot live_len }
    {
        Record {
            live_slot,
            live_len,
            rotating: 0,
            candidate_len: crate::NO_LENGTH,
            ..self
        }
    }

    // The candidate, else the live text, else none.
    #[tactic(auto, using(text::proofs::Choices::choices), unfolding(crate::specs::State::length_of, crate::specs::State::in_force))]
    pub fn in_force(self) -> Option<SlotText>
        ensures { force_of result ≡ in_force self }
    {
        if let Some(len) = self.candidate() {
            return Some(SlotText {
                slot: self.candidate_slot(),
                len,
            });
        }
        let len = self.live()?;
        Some(SlotText {
            slot: self.live_slot,
            len,
        })
    }
}
