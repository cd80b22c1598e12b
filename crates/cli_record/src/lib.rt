#![tactic(auto)]

// The record in its file: five numbers of four bytes, the low byte first, as C lays them out here.
pub mod lines;

ghost use Rattle.std.specs.Prelude.{◌≡◌, ◌<◌};
ghost use Rattle.cli_record.specs.Bytes.{byte_of, record_bytes, of_four_bytes, number_at, record_in};
ghost use Rattle.rotation.specs.State.{kind_number};
ghost use Rattle.cli_record.specs.Factory.{factory_record};

use cli_show::console::Console;
use rotation::{Kind, Record};

// How many bytes of a file are its record.
pub const LENGTH: usize = 20;

fn word(a: u8, b: u8, c: u8, d: u8) -> u32
    ensures { result ≡ of_four_bytes a b c d }
{
    a as u32 + b as u32 * 256 + c as u32 * 65536 + d as u32 * 16777216
}

fn word_at(b: &[u8; LENGTH], at: usize) -> u32
    requires { at < 17 }
    ensures { result ≡ number_at b.now at }
{
    word(b[at], b[at + 1], b[at + 2], b[at + 3])
}

pub fn of_bytes(b: &[u8; LENGTH]) -> Record
    ensures { result ≡ record_in b.now }
{
    Record {
        kind: word_at(b, 0),
        live_slot: word_at(b, 4),
        live_len: word_at(b, 8),
        rotating: word_at(b, 12),
        candidate_len: word_at(b, 16),
    }
}

fn byte_of(n: u32, unit: u32) -> u8
    requires { 0 < unit }
    ensures { result ≡ byte_of n unit }
{
    (n / unit % 256) as u8
}

pub fn to_bytes(r: Record) -> [u8; LENGTH]
    ensures { result ≡ record_bytes r }
{
    [
        byte_of(r.kind, 1),
        byte_of(r.kind, 256),
        byte_of(r.kind, 65536),
        byte_of(r.kind, 16777216),
        byte_of(r.live_slot, 1),
        byte_of(r.live_slot, 256),
        byte_of(r.live_slot, 65536),
        byte_of(r.live_slot, 16777216),
        byte_of(r.live_len, 1),
        byte_of(r.live_len, 256),
        byte_of(r.live_len, 65536),
        byte_of(r.live_len, 16777216),
        byte_of(r.rotating, 1),
        byte_of(r.rotating, 256),
        byte_of(r.rotating, 65536),
        byte_of(r.rotating, 16777216),
        byte_of(r.candidate_len, 1),
        byte_of(r.candidate_len, 256),
        byte_of(r.candidate_len, 65536),
        byte_of(r.candidate_len, 16777216),
    ]
}

// No live text, no rotation, no candidate.
pub fn factory(kind: Kind) -> Record
    ensures { result ≡ factory_record (kind_number kind) }
{
    Record {
        kind: kind.number(),
        live_slot: 0,
        live_len: rotation::NO_LENGTH,
        rotating: 0,
        candidate_len: rotation::NO_LENGTH,
    }
}

// Prints what a record says, unless it or its store of n bytes is refused.
pub fn tell(console: &mut Console, r: Record, n: usize) {
    match r.check(n) {
        Ok(()) => print(console, r),
        Err(refusal) => cli_console::refused::at(console, refusal.number(), 0),
    }
}

// Prints what a record says.
pub fn print(console: &mut Console, r: Record) {
    cli_show::word(console, lines::record(r).as_bytes());
}
