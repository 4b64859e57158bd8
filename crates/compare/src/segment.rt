// Where the last byte at an address comes from, and up to which address all come from there.
ghost use Rattle.std.specs.Prelude.{◌≡◌, ◌+◌, ◌%◌, min, length, get_or};
ghost use Rattle.words.specs.Bytes.{little_endian};
ghost use Rattle.plan.specs.Packed.{plan_pieces};
ghost use Rattle.plan.specs.Meaning.{stretch};
ghost use Rattle.compare.specs.LastByte.Segment.{nothing, source_byte, covering, border};
ghost use Rattle.compare.specs.Code.Segment.{Short, span_in, source_from, source_is, narrowed, Reaches};

use crate::compare::NOT_STORED;
use crate::run::FirstStretch;
use plan::piece::{Piece, Target, accepted_at};

// The addresses of a piece: the first, and the first behind it. A run has none.
#[derive(Clone, Copy, Debug, PartialEq, Eq)]
pub(crate) struct Span {
    pub first: u64,
    pub past: u64,
}

fn span_of(piece: Piece) -> Span
    requires { Short piece }
    ensures { result ≡ span_in piece }
{
    match piece {
        Piece::Put {
            address,
            length,
            ..
        }
        | Piece::Fill {
            address,
            length,
            ..
        } => Span {
            first: address as u64,
            past: address as u64 + length as u64,
        },
        Piece::Run { address } => Span {
            first: address as u64,
            past: address as u64,
        },
    }
}

// The put or the fill that stores a byte last, if any does. A put's data stands in the plan, from an offset on.
#[derive(Clone, Copy, Debug, PartialEq, Eq)]
pub(crate) enum Source {
    Nothing,
    Put {
        address: u32,
        from: usize,
        length: usize,
    },
    Fill {
        address: u32,
        length: usize,
        word: u32,
    },
}

// One source for all addresses up to an end.
#[derive(Clone, Copy, Debug, PartialEq, Eq)]
pub(crate) struct Segment {
    pub source: Source,
    pub end: u64,
}

fn source_of(piece: Piece) -> Source
    ensures { result ≡ source_from piece }
{
    match piece {
        Piece::Put {
            address,
            from,
            length,
        } => Source::Put {
            address,
            from,
            length,
        },
        Piece::Fill {
            address,
            length,
            word,
        } => Source::Fill {
            address,
            length,
            word,
        },
        Piece::Run { .. } => Source::Nothing,
    }
}

// The segment from an address on, with one piece more.
fn narrow(segment: Segment, piece: Piece, at: u64) -> Segment
    requires { Short piece }
    ensures { result ≡ narrowed piece at segment }
{
    let span = span_of(piece);
    if at < span.first {
        return Segment {
            source: segment.source,
            end: segment.end.min(span.first),
        };
    }
    if at < span.past {
        return Segment {
            source: source_of(piece),
            end: segment.end.min(span.past),
        };
    }
    segment
}

// The segment from an address on, of the pieces of a stretch; it ends at `limit` at most.
pub(crate) fn segment_at(first: FirstStretch, at: u64, limit: u64) -> Segment
    ensures source_value { source_is first.entry.plan.now result.source ≡ covering (stretch (plan_pieces 1 first.entry.plan.now)) at nothing }
    ensures end_value { result.end ≡ border (stretch (plan_pieces 1 first.entry.plan.now)) at limit }
    ensures reaches { Reaches first.entry.plan.now result.source at result.end }
{
    let mut segment = Segment {
        source: Source::Nothing,
        end: limit,
    };
    for i in 0..first.count {
        segment = narrow(segment, accepted_at(first.plan, Target::Any, i), at);
    }
    segment
}

// Byte i of a word that is repeated.
pub(crate) fn fill_byte(word: u32, i: u64) -> u8
    ensures { result ≡ get_or (little_endian 4 word) (i % 4) 0 }
{
    word.to_le_bytes()[(i % 4) as usize]
}

// The last byte at an address that the source reaches.
pub(crate) fn byte_at(plan: &[u8], source: Source, at: u64) -> u32
    requires { Reaches plan.now source at (at + 1) }
    ensures { result ≡ source_byte (source_is plan.now source) at }
{
    match source {
        Source::Nothing => NOT_STORED,
        Source::Put { address, from, .. } => {
            let i = from + (at - address as u64) as usize;
            plan[i] as u32
        }
        Source::Fill { address, word, .. } => fill_byte(word, at - address as u64) as u32,
    }
}
