// The two kinds of loops: their fields, and their ranges and the largest ceiling as named constants.
ghost use Rattle.std.specs.Prelude.{◌≡◌, List, [], ◌∷◌, false, ◌||◌, ◌+◌, ◌<◌, ◌^◌, pos, nat_abs, drop};
ghost use Rattle.std.specs.Int.Signed.{lt_z};
ghost use Rattle.meaning.specs.Number.{signed8, unsigned16};
ghost use Rattle.meaning.specs.Form.{is_zero, all_zero, form_at};
ghost use Rattle.meaning.specs.Record.{loop_kind, skip_where, skip_or, decode_record, Open, loop_depth, fields_in_range};
ghost use Rattle.meaning.specs.Record as M;
ghost use Rattle.form.specs.Packed.{form_of};
ghost use Rattle.records.specs.View.{blank_loop, loop_of, skip_in};

use encoding::number::{byte_at, signed8_at, signed16_at, unsigned16_at};
use form::packed::{INDEX_FACTORS, PackedForm};

// A negative stride counts down.
#[derive(Clone, Copy, PartialEq, Eq)]
pub struct Loop {
    pub start: u16,
    pub step: u16,
    pub stride: i16,
    pub lower: PackedForm,
    pub upper: PackedForm,
    // 0 of kind 2, which has no skip of its own. Stays a number, since the writer refuses 3 for a loop of kind 2 over any other (`foreign_fields_zero`).
    pub skip: u16,
}

// Where the stride, the two forms and the skip stand in a body, and the factors of the forms' indexes.
const STRIDE: usize = 4;

const LOWER: usize = 6;

const UPPER: usize = 15;

const SKIP: usize = 24;

const LOWER_FACTORS: usize = LOWER + 2;

const UPPER_FACTORS: usize = UPPER + 2;

// The form in the nine bytes from an offset of a loop's body.
fn form_at(body: &[u8], at: usize) -> PackedForm
    requires { at + 8 < 2 ^ 64 }
    ensures { form_of result ≡ form_at body.now at }
{
    PackedForm {
        constant: signed16_at(body, at),
        index: [
            signed8_at(body, at + 2),
            signed8_at(body, at + 3),
            signed8_at(body, at + 4),
        ],
        parameter: [
            signed8_at(body, at + 5),
            signed8_at(body, at + 6),
            signed8_at(body, at + 7),
            signed8_at(body, at + 8),
        ],
    }
}

// Whether the factors of depths that do not enclose the loop are 0: three bytes from an offset of its body.
fn factors_enclosed(body: &[u8], at: usize, depth: usize) -> bool
    requires { at + 2 < 2 ^ 64 }
    ensures { result ≡ all_zero (drop depth
        (signed8 body.now at ∷ signed8 body.now (at + 1) ∷ signed8 body.now (at + 2) ∷ [])) }
{
    (depth..INDEX_FACTORS).all(|i| byte_at(body, at + i) == 0)
}

// The skip in a body that has one, or another number.
#[tactic(auto, unfolding(meaning::specs::Record::skip_where, meaning::specs::Record::skip_or))]
fn skip_or(body: &[u8], skips: bool, other: u16) -> u16
    ensures { result ≡ skip_or (skip_where skips (unsigned16 body.now 24)) other }
{
    if skips {
        unsigned16_at(body, SKIP)
    } else {
        other
    }
}

impl Loop {
    pub const MAX_COST: u16 = 4095;

    // Of a stride's size: it is from -1,000 to 1,000, and not 0.
    pub const MIN_STRIDE: u16 = 1;

    pub const MAX_STRIDE: u16 = 1000;

    pub const MAX_CEILING: u64 = 2048;

    pub const BODY_LENGTH: usize = 24;

    pub const SKIP_BODY_LENGTH: usize = 26;

    pub fn blank() -> Loop
        ensures { result ≡ blank_loop }
    {
        Loop {
            start: 0,
            step: 0,
            stride: 0,
            lower: PackedForm::blank(),
            upper: PackedForm::blank(),
            skip: 0,
        }
    }

    // The fields of a body, which has a skip or has none.
    // Stays a flag, since docs/landings/C-12.md promises that `decode` and `in_range` take whether there is a skip.
    pub fn decode(body: &[u8], skips: bool) -> Loop
        ensures fields { M.loop_record (loop_of skips result) ≡ decode_record (loop_kind skips) body.now }
        ensures blank { skips ≡ false → result.skip ≡ 0 }
    {
        Loop {
            start: unsigned16_at(body, 0),
            step: unsigned16_at(body, 2),
            stride: signed16_at(body, STRIDE),
            lower: form_at(body, LOWER),
            upper: form_at(body, UPPER),
            skip: skip_or(body, skips, 0),
        }
    }

    // A stride without its sign. Stays beside std's method, since docs/DECISIONS.md names it.
    pub fn stride_size(stride: i16) -> u16
        ensures { result ≡ nat_abs stride }
    {
        stride.unsigned_abs()
    }

    // Whether a loop with this stride counts down. Stays beside std's `is_negative`, since docs/DECISIONS.md names it.
    pub fn counts_down(stride: i16) -> bool
        ensures { result ≡ lt_z stride (pos 0) }
    {
        stride < 0
    }

    // What the loop costs where it makes no trip: its skip, or its start where it has none.
    pub fn skip_cycles(body: &[u8], skips: bool) -> u16
        ensures { result ≡ skip_in skips body.now }
    {
        skip_or(body, skips, unsigned16_at(body, 0))
    }

    // 3: whether the fields in a body are in their ranges, `depth` loops being around it.
    pub fn in_range(body: &[u8], skips: bool, depth: usize) -> bool
        ensures { (os : List Open) → loop_depth os ≡ depth → result ≡ fields_in_range os (decode_record (loop_kind skips) body.now) }
    {
        let start = unsigned16_at(body, 0);
        let step = unsigned16_at(body, 2);
        if Loop::MAX_COST < start || Loop::MAX_COST < step {
            return false;
        }
        let skip = Loop::skip_cycles(body, skips);
        if Loop::MAX_COST < skip {
            return false;
        }
        let size = Loop::stride_size(signed16_at(body, STRIDE));
        if size < Loop::MIN_STRIDE || Loop::MAX_STRIDE < size {
            return false;
        }
        factors_enclosed(body, LOWER_FACTORS, depth) && factors_enclosed(body, UPPER_FACTORS, depth)
    }
}
