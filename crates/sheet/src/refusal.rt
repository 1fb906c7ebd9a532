// A refusal of document 01: what is refused, and the offset of the record that it falls on.
ghost use Rattle.std.specs.Prelude.{◌≡◌};
ghost use Rattle.sheet.specs.Refusals.{refusal_number};

// In the order of their numbers, from 1 on.
#[derive(Clone, Copy, PartialEq, Eq)]
pub enum RefusalKind {
    CutShort = 1,
    UnknownKind = 2,
    FieldOutOfRange = 3,
    TooManyRecords = 4,
    Misplaced = 5,
    OverCeiling = 6,
    BadBudget = 7,
    TooManyVisits = 8,
    ShortBuffer = 9,
    LosesSkip = 10,
    BadRange = 11,
    ShortText = 12,
}

impl RefusalKind {
    pub fn number(self) -> u32
        ensures { result ≡ refusal_number self }
    {
        self as u32
    }
}

#[derive(Clone, Copy, PartialEq, Eq)]
pub struct Refusal {
    pub kind: RefusalKind,
    pub offset: usize,
}
