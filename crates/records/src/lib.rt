// Records: kinds, limits, and a record with the fields of every kind, as the writer takes it and the reader gives it.
#![tactic(auto)]

pub mod loops;
pub mod work;

ghost use Rattle.std.specs.Prelude.{◌≡◌};
ghost use Rattle.meaning.specs.Record.{kind_number, kind_of, body_length};
ghost use Rattle.records.specs.View.{meant, meant_kind, is_kind, is_loop, blank_record, decoded, length_of_kind};

use crate::loops::Loop;
use crate::work::Work;

// What a record can be.
#[derive(Clone, Copy, PartialEq, Eq)]
pub enum Kind {
    Work = 1,
    Loop = 2,
    End = 3,
    Choice = 4,
    NextArm = 5,
    // A loop with a skip of its own.
    SkipLoop = 6,
}

impl Kind {
    // The kind with this number: an Option, as the meaning's `kind_of`, so no TryFrom, here and where other numbers are told apart (docs/DECISIONS.md).
    #[tactic(auto, unfolding(meaning::specs::Record::kind_of))]
    pub fn of(number: u8) -> Option<Kind>
        ensures { meant result ≡ kind_of number }
    {
        match number {
            1 => Some(Kind::Work),
            2 => Some(Kind::Loop),
            3 => Some(Kind::End),
            4 => Some(Kind::Choice),
            5 => Some(Kind::NextArm),
            6 => Some(Kind::SkipLoop),
            _ => None,
        }
    }

    // The number of the kind.
    #[tactic(auto, unfolding(meaning::specs::Record::kind_number))]
    pub fn number(self) -> u8
        ensures { result ≡ kind_number (meant_kind self) }
    {
        self as u8
    }

    // The length of a body of this kind.
    #[tactic(auto, unfolding(meaning::specs::Record::body_length))]
    pub fn body_length(self) -> usize
        ensures { result ≡ body_length (meant_kind self) }
    {
        match self {
            Kind::Work => Work::BODY_LENGTH,
            Kind::Loop => Loop::BODY_LENGTH,
            Kind::SkipLoop => Loop::SKIP_BODY_LENGTH,
            Kind::End | Kind::Choice | Kind::NextArm => 0,
        }
    }
}

pub const MAX_RECORDS: usize = 128;

pub const MAX_OPEN: usize = 8;

// The longest record is a loop with a skip: its kind and its body.
pub const MAX_RECORD_LENGTH: usize = 1 + Loop::SKIP_BODY_LENGTH;

pub const MAX_SHEET_LENGTH: usize = MAX_RECORDS * MAX_RECORD_LENGTH;

#[derive(Clone, Copy, PartialEq, Eq)]
pub struct Record {
    // Stays a number, since the writer refuses 2 for a record with one that no kind has.
    pub kind: u8,
    pub work: Work,
    pub looping: Loop,
}

// As many records as a sheet may have.
pub type Records = [Record; MAX_RECORDS];

impl Record {
    // A record of a kind, all fields 0. Blank values have a function of this name and no Default, since this one takes the kind.
    pub fn blank(kind: u8) -> Record
        ensures { result ≡ blank_record kind }
    {
        Record {
            kind,
            work: Work::blank(),
            looping: Loop::blank(),
        }
    }

    // The record of a kind with this body.
    pub fn decode(kind: u8, body: &[u8]) -> Record
        ensures { result ≡ decoded kind body.now }
    {
        let blank = Record::blank(kind);
        match Kind::of(kind) {
            Some(Kind::Work) => Record {
                work: Work::decode(body),
                ..blank
            },
            Some(Kind::Loop) => Record {
                looping: Loop::decode(body, false),
                ..blank
            },
            Some(Kind::SkipLoop) => Record {
                looping: Loop::decode(body, true),
                ..blank
            },
            Some(Kind::End | Kind::Choice | Kind::NextArm) | None => blank,
        }
    }
}

// Whether a number is that of a kind. It stays a number, here and below, since a reader is defined over the kinds that a byte may name (docs/DECISIONS.md).
#[tactic(auto, unfolding(crate::specs::View::is_some_kind))]
pub fn is_kind(number: u8) -> bool
    ensures { result ≡ is_kind number }
{
    Kind::of(number).is_some()
}

// Whether a kind is one of the two kinds of loops. By the number, since of a `match` over all kinds the compiler makes a table of jumps, and a reader asks it of
// each record (docs/DESIGN-PASS.md).
pub fn is_loop(kind: u8) -> bool
    ensures { result ≡ is_loop kind }
{
    kind == Kind::Loop.number() || kind == Kind::SkipLoop.number()
}

// The length of a kind's body; 0 for a number that is no kind.
#[tactic(auto, unfolding(crate::specs::View::length_of_kind, crate::specs::View::length_of))]
pub fn body_length(kind: u8) -> usize
    ensures { result ≡ length_of_kind kind }
{
    Kind::of(kind).map_or(0, Kind::body_length)
}
