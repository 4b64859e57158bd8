// Outcomes as eight numbers, in one layout for every call.
ghost use Rattle.std.specs.Prelude.{◌≡◌};
ghost use Rattle.outcome.specs.Outcome.{outcome_of, stop_of, accepted, kind_of, address_of};
ghost use Rattle.plan.specs.Code as reader;
ghost use Rattle.plan.specs.Code.Packer as packer;
ghost use Rattle.scp.specs.Code.{reply_of};
ghost use Rattle.flood_fill.specs.Answer.{answer_is};
ghost use Rattle.aplx_check.specs.Code.{checked_is};
ghost use Rattle.outcome.specs.Refusal.{number_of};
ghost use Rattle.outcome_numbers.specs.Numbers.{event_number, numbers, refused_parts, needed, run_parts, count_parts, load_parts, reply_parts, read_parts, packed_parts, message_parts, checked_parts};

use flood_fill::receiver::Progress;
use outcome::answer::{Entry, Load, Stop};
use outcome::refusal::{Cause, Refusal};
use plan::read::Pieces;
use scp::answer::Reply;

// What happened, as its number.
#[derive(Clone, Copy, Debug, PartialEq, Eq)]
pub enum Event {
    Refused = 0,
    End = 1,
    Unknown = 2,
    Run = 3,
    Start = 4,
    Response = 5,
    Silent = 6,
    Read = 7,
    Packed = 8,
    Accepted = 9,
    Ignored = 10,
    Missing = 11,
    Done = 12,
    SameRun = 13,
    OtherRun = 14,
    Checked = 15,
}

impl Event {
    pub fn number(self) -> u64
        ensures { result ≡ event_number self }
    {
        self as u64
    }
}

// The output that a packet is answered in.
const SCP_OUTPUT: u64 = 272;

// The parts of an outcome, in the order of the numbers. What a case does not name is 0.
#[derive(Clone, Copy, Debug, PartialEq, Eq)]
pub struct Parts {
    pub refusal: u32,
    pub place: u64,
    pub event: u64,
    pub kind: u64,
    pub address: u64,
    pub resume: u64,
    pub items: u64,
    pub bytes: u64,
}

// Writes the numbers; returns that of the refusal, or 0.
pub fn put(outcome: &mut [u64; 8], parts: Parts) -> u32
    ensures { (result ≡ parts.refusal) × (outcome.new ≡ numbers parts) }
{
    *outcome = [
        parts.refusal as u64,
        parts.place,
        parts.event,
        parts.kind,
        parts.address,
        parts.resume,
        parts.items,
        parts.bytes,
    ];
    parts.refusal
}

// An event with a count of items or of bytes, or with neither.
pub(crate) fn count(event: Event, items: u64, bytes: u64) -> Parts
    ensures { result ≡ count_parts (event_number event) items bytes }
{
    Parts {
        refusal: 0,
        place: 0,
        event: event.number(),
        kind: 0,
        address: 0,
        resume: 0,
        items,
        bytes,
    }
}

pub(crate) fn refused(refusal: Refusal, bytes: u64) -> Parts
    ensures { result ≡ refused_parts (number_of refusal.cause) refusal.place bytes }
{
    Parts {
        refusal: refusal.cause.number(),
        place: refusal.place as u64,
        ..count(Event::Refused, 0, bytes)
    }
}

// The bytes that a refusal tells of an output that had to hold so many.
pub(crate) fn needed(cause: Cause, bytes: u64) -> u64
    ensures { result ≡ needed (number_of cause) bytes }
{
    if cause == Cause::OutputTooSmall {
        bytes
    } else {
        0
    }
}

// A run: its kind, 1 for ARM and 2 for Thumb, and its address.
fn run(event: Event, entry: Entry, resume: u32, items: u64, bytes: u64) -> Parts
    ensures { result ≡ run_parts (event_number event) (kind_of entry) (address_of entry) resume items bytes }
{
    let (kind, address) = match entry {
        Entry::Arm(address) => (1, address),
        Entry::Thumb(address) => (2, address),
    };
    Parts {
        kind,
        address: address as u64,
        resume: resume as u64,
        ..count(event, items, bytes)
    }
}

fn stop_parts(stop: Stop, taken: u64, stored: u64) -> Parts
    ensures { result ≡ load_parts (accepted (stop_of stop) taken stored) }
{
    match stop {
        Stop::End { place } => Parts {
            place: place as u64,
            ..count(Event::End, taken, stored)
        },
        Stop::Unknown { command, place } => Parts {
            place: place as u64,
            address: command as u64,
            ..count(Event::Unknown, taken, stored)
        },
        Stop::Run { entry, resume } => run(Event::Run, entry, resume, taken, stored),
    }
}

// A load.
pub fn load_parts(answer: Result<Load, Refusal>) -> Parts
    ensures { result ≡ load_parts (outcome_of answer) }
{
    match answer {
        Ok(load) => stop_parts(load.stop, load.taken as u64, load.stored),
        Err(refusal) => refused(refusal, 0),
    }
}

// A packet's reply.
pub fn reply_parts(answer: Result<Reply, Refusal>) -> Parts
    ensures { result ≡ reply_parts (reply_of answer) }
{
    match answer {
        Ok(Reply::Silent) => count(Event::Silent, 0, 0),
        Ok(Reply::Response { size }) => count(Event::Response, 0, size as u64),
        Ok(Reply::Run { entry }) => run(Event::Start, entry, 0, 0, 0),
        Ok(Reply::Load { entry, resume }) => run(Event::Run, entry, resume, 0, 0),
        Err(refusal) => refused(refusal, needed(refusal.cause, SCP_OUTPUT)),
    }
}

// A plan that was read.
pub fn read_parts(answer: Result<Pieces, Refusal>) -> Parts
    ensures { result ≡ read_parts (reader.outcome_is answer) }
{
    match answer {
        Ok(pieces) => count(Event::Read, pieces.count as u64, 0),
        Err(refusal) => refused(refusal, 0),
    }
}

// A plan that was packed, whose image has so many bytes.
pub fn packed_parts(answer: Result<usize, Refusal>, image: u64) -> Parts
    ensures { result ≡ packed_parts image (packer.outcome_is answer) }
{
    match answer {
        Ok(size) => count(Event::Packed, 0, size as u64),
        Err(refusal) => refused(refusal, needed(refusal.cause, image)),
    }
}

// A flood-fill message.
pub fn message_parts(answer: Result<Progress, Refusal>) -> Parts
    ensures { result ≡ message_parts (answer_is answer) }
{
    match answer {
        Ok(Progress::Accepted) => count(Event::Accepted, 0, 0),
        Ok(Progress::Ignored) => count(Event::Ignored, 0, 0),
        Ok(Progress::Missing { number, lowest }) => Parts {
            place: lowest as u64,
            ..count(Event::Missing, number as u64, 0)
        },
        Ok(Progress::Done) => count(Event::Done, 0, 0),
        Err(refusal) => refused(refusal, 0),
    }
}

// An image that was checked against a plan.
pub fn checked_parts(answer: Result<(), Refusal>) -> Parts
    ensures { result ≡ checked_parts (checked_is answer) }
{
    match answer {
        Ok(()) => count(Event::Checked, 0, 0),
        Err(refusal) => refused(refusal, 0),
    }
}
