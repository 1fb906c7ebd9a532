// What is open where a record stands, and refusals 3 and 5 of a record there.
ghost use Rattle.std.specs.Prelude.{◌≡◌, List, [], length, if◌then◌else◌};
ghost use Rattle.std.proofs.Math.Option.{some};
ghost use Rattle.meaning.specs.Record as M;
ghost use Rattle.meaning.specs.Record.{kind_of, body_length, decode_record, Open, loop_depth};
ghost use Rattle.meaning.specs.Reader.{accept};
ghost use Rattle.sheet.specs.Nestings.{nesting_of, fields_pass, open_after_kind, extended_nesting, closed_nesting, nesting_after, may_stand_in};
ghost use Rattle.sheet.specs.Answers.{refusable, accepted_of, accept_in};

use crate::refusal::{Refusal, RefusalKind};
use form::MAX_DEPTH;
use records::loops::Loop;
use records::work::Work;
use records::{Kind, MAX_OPEN, is_loop};

// How many records are open, how many of these are loops, and which: bit 0 of `loops` is 1 where the innermost is a loop, and so on outward.
// Stays three numbers with no invariant, since docs/PROOFS.md has `accept_record` and `Nesting::after` promise for any three.
#[derive(Clone, Copy, PartialEq, Eq)]
pub struct Nesting {
    pub size: usize,
    pub depth: usize,
    pub loops: u64,
}

// Where another record may open, at most seven are open: their digits are below this.
const DIGITS: u64 = 1 << (MAX_OPEN - 1);

// A record that is in its place: its length, and what is open after it.
#[derive(Clone, Copy, PartialEq, Eq)]
pub struct AcceptedRecord {
    pub length: usize,
    pub after: Nesting,
}

// 3: whether the fields of a record are in their ranges, `depth` loops being around it. A work and a loop are told by their numbers, and a loop is in `allows`,
// before any `match`: of one over all kinds the compiler makes a table of jumps, and a sheet of works is read in 1.6 times the instructions (docs/LOOK-BACK.md).
#[tactic(auto, unfolding(crate::specs::Nestings::fields_pass, crate::specs::Nestings::fields_pass_as, meaning::specs::Record::fields_in_range, meaning::specs::Record::decode_record))]
fn fields_in_range(kind: u8, body: &[u8], depth: usize) -> bool
    ensures { (os : List Open) → loop_depth os ≡ depth → result ≡ fields_pass os kind body.now }
{
    if kind == Kind::Work.number() {
        return Work::in_range(body);
    }
    if is_loop(kind) {
        return Loop::in_range(body, kind == Kind::SkipLoop.number(), depth);
    }
    true
}

impl Nesting {
    pub fn nothing() -> Nesting
        ensures { result ≡ nesting_of [] }
    {
        Nesting {
            size: 0,
            depth: 0,
            loops: 0,
        }
    }

    // 5: whether a record of this kind may stand here.
    #[tactic(auto, unfolding(crate::specs::Nestings::may_stand_in, crate::specs::Nestings::may_stand_in_as, records::specs::View::is_loop_kind))]
    fn allows(self, kind: u8) -> bool
        ensures { result ≡ may_stand_in self kind }
    {
        if is_loop(kind) {
            return self.depth < MAX_DEPTH && self.size < MAX_OPEN;
        }
        match Kind::of(kind) {
            Some(Kind::Choice) => self.size < MAX_OPEN,
            Some(Kind::End) => self.size != 0,
            Some(Kind::NextArm) => self.size != 0 && self.loops % 2 == 0,
            Some(Kind::Work | Kind::Loop | Kind::SkipLoop) | None => true,
        }
    }

    // What is open after a record; `open`: after one that may stand here, where the three numbers are those of a list of open records.
    #[tactic(auto, unfolding(crate::specs::Nestings::nesting_after, crate::specs::Nestings::nesting_after_as))]
    pub fn after(self, kind: u8) -> Nesting
        ensures numbers { result ≡ nesting_after self kind }
        ensures open { (os us : List Open) → self ≡ nesting_of os → open_after_kind os kind ≡ some us → result ≡ nesting_of us }
    {
        match Kind::of(kind) {
            Some(Kind::Loop | Kind::SkipLoop) => self.extended(true),
            Some(Kind::Choice) => self.extended(false),
            Some(Kind::End) => self.closed(),
            Some(Kind::Work | Kind::NextArm) | None => self,
        }
    }

    // One more open record: a loop's digit is 1, a choice's 0. Where another may open, the remainder loses no digit.
    fn extended(self, is_loop: bool) -> Nesting
        ensures { result ≡ extended_nesting self (if is_loop then 1 else 0) }
    {
        if MAX_OPEN <= self.size || MAX_OPEN <= self.depth {
            return self;
        }
        Nesting {
            size: self.size + 1,
            depth: self.depth + usize::from(is_loop),
            loops: self.loops % DIGITS * 2 + u64::from(is_loop),
        }
    }

    // The innermost open record closed; where nothing is open, the same.
    fn closed(self) -> Nesting
        ensures { result ≡ closed_nesting self }
    {
        let digit = (self.loops % 2) as usize;
        if self.size == 0 || self.depth < digit {
            return self;
        }
        Nesting {
            size: self.size - 1,
            depth: self.depth - digit,
            loops: self.loops / 2,
        }
    }
}

// Refusals 3 and 5, in this order, of a record that would stand at an offset where `here` is open.
// `records`: as the meaning accepts it, where the three numbers are those of a list of open records.
// Stays a number in `kind`, since its clause `numbers` and that of `Nesting::after` speak of any number.
pub fn accept_record(
    at: usize,
    here: Nesting,
    kind: u8,
    body: &[u8],
) -> Result<AcceptedRecord, Refusal>
    ensures numbers { refusable result ≡ accept_in at here kind body.now }
    ensures records { (os : List Open) (k : M.Kind) → here ≡ nesting_of os → kind_of kind ≡ some k → length body.now ≡ body_length k →
        refusable result ≡ accepted_of (accept at os (decode_record k body.now)) }
{
    if !fields_in_range(kind, body, here.depth) {
        return Err(Refusal {
            kind: RefusalKind::FieldOutOfRange,
            offset: at,
        });
    }
    if !here.allows(kind) {
        return Err(Refusal {
            kind: RefusalKind::Misplaced,
            offset: at,
        });
    }
    Ok(AcceptedRecord {
        length: 1 + body.len(),
        after: here.after(kind),
    })
}
