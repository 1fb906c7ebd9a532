// What the parameters make of one loop: its words, its ceiling, and the ranges, starts and pushes inside it.
ghost use Rattle.std.specs.Prelude.{◌≡◌, List, not, cond, ◌-◌, ◌/◌, ◌%◌, ◌<◌, eqb, get_or};
ghost use Rattle.meaning.specs.Limits.{depth_limit};
ghost use Rattle.meaning.specs.Record as M;
ghost use Rattle.meaning.specs.Record.{Open, decode_record, loop_kind, skip_cycles};
ghost use Rattle.meaning.specs.Reader.{body_at};
ghost use Rattle.meaning.specs.Range.{range_up, range_down};
ghost use Rattle.meaning.specs.Time.{difference_up, difference_down, trip_count};
ghost use Rattle.meaning.specs.Closed.{asked_difference};
ghost use Rattle.form.specs.Forms.{wide_form, range_of};
ghost use Rattle.form.specs.Packed.{form_of};
ghost use Rattle.sheet.specs.Nestings.{nesting_of};
ghost use Rattle.records.specs.View.{loop_of};
ghost use Rattle.loops.specs.Forms.{FormsOf};
ghost use Rattle.loops.specs.Reckoned.{barred_by, push_word, loop_words, ceiling_within, enough_within, around_with, row_with, pushes_with};

use encoding::number::byte_at;
use form::packed::{INDEX_FACTORS, PackedForm};
use form::{Form, MAX_DEPTH, Parameters, PerLoop, Range};
use layout::differences::DIFFERENCE_WIDTH;
use records::Kind;
use records::loops::Loop;
use sheet::head::body_at;
use sheet::nesting::Nesting;

// The indexes of the open loops, an entry for each depth: from lo to hi, and where every counter is 0. Stays two arrays in place of one of ranges, since
// `Form::range` takes the two (docs/PROOFS.md, row `form::Form`).
#[derive(Clone, Copy)]
pub struct Around {
    pub lo: PerLoop,
    pub hi: PerLoop,
    pub starts: PerLoop,
}

// The size of a loop's stride, the stride, the smallest D that closing asks of it, its forms with the parameters' shares in their
// constants, and whether it counts down.
#[derive(Clone, Copy)]
pub struct Forms {
    pub size: u64,
    pub stride: i64,
    pub asked: i64,
    pub lower: Form,
    pub upper: Form,
    pub difference: Form,
    pub down: bool,
}

// How many of the loops around a loop the innermost choice around it keeps from being closed: those around the choice; and how many from being ranked.
#[derive(Clone, Copy)]
pub struct Barred {
    pub choice: usize,
    pub rank: usize,
}

// A loop's ceiling, and whether its smallest D is as large as closing asks.
#[derive(Clone, Copy)]
pub struct Extent {
    pub ceiling: u64,
    pub enough: bool,
}

// max(0, floor(most ÷ stride) + 1)
fn trips_over(most: i64, stride: u64) -> u64
    requires { 0 < stride }
    ensures { result ≡ trip_count most stride }
{
    if most < 0 {
        return 0;
    }
    most.unsigned_abs() / stride + 1
}

// How many of the open loops are barred by the innermost open choice; 0 where none is open. Inside it stand the loops whose digits are the lowest ones; of
// the loops around it the one that it stands directly in, if it does, is not barred from being ranked.
pub(crate) fn barred_by(here: Nesting) -> Barred
    ensures { (os : List Open) → here ≡ nesting_of os → result ≡ barred_by os }
{
    let inside = here.loops.trailing_ones();
    let choice = here.depth.saturating_sub(inside as usize);
    let beyond = here.loops.checked_shr(inside + 1).unwrap_or(0);
    Barred {
        choice,
        rank: choice.saturating_sub((beyond % 2) as usize),
    }
}

// Whether a loop has a skip that differs from its start. Stays a flag beside the loop, since `Loop`'s field is a number where there is none (there, why).
fn skip_differs(source: Loop, skips: bool) -> bool
    ensures { result ≡ not (eqb (skip_cycles (loop_of skips source)) source.start) }
{
    skips && source.skip != source.start
}

// The smallest D that closing a loop around it asks.
fn asked_difference(source: Loop, skips: bool) -> i64
    ensures { result ≡ asked_difference (loop_of skips source) }
{
    if skip_differs(source, skips) {
        return 0;
    }
    -i64::from(Loop::stride_size(source.stride))
}

// D: upper minus lower form, or lower minus upper form where the loop counts down.
fn difference_of(lower: PackedForm, upper: PackedForm, down: bool) -> Form
    ensures { wide_form result ≡ cond down (difference_down (form_of lower) (form_of upper)) (difference_up (form_of lower) (form_of upper)) }
{
    if down {
        Form::subtract(lower, upper)
    } else {
        Form::subtract(upper, lower)
    }
}

fn forms_of(source: Loop, skips: bool, parameters: Parameters) -> Forms
    ensures { FormsOf (loop_of skips source) parameters result }
{
    let stride = source.stride;
    let down = Loop::counts_down(stride);
    let apart = difference_of(source.lower, source.upper, down);
    Forms {
        size: u64::from(Loop::stride_size(stride)),
        stride: i64::from(stride),
        asked: asked_difference(source, skips),
        lower: Form::from(source.lower).fold(parameters),
        upper: Form::from(source.upper).fold(parameters),
        difference: apart.fold(parameters),
        down,
    }
}

// Of the loop whose record stands at an offset.
pub(crate) fn forms_at(sheet: &[u8], at: usize, parameters: Parameters) -> Forms
    ensures { (l : M.Loop) → decode_record (loop_kind (eqb (get_or sheet.now at 0) 6)) (body_at sheet.now at) ≡ M.loop_record l →
        FormsOf l parameters result }
{
    let skips = Kind::of(byte_at(sheet, at)) == Some(Kind::SkipLoop);
    let source = Loop::decode(body_at(sheet, at), skips);
    forms_of(source, skips, parameters)
}

// The push on D of the loop with m loops around it; 0 where none is there.
fn push_word(difference: Form, pushes: [PerLoop; MAX_DEPTH], depth: usize, m: usize) -> u64
    ensures { result ≡ push_word (wide_form difference) pushes depth m }
{
    if depth <= m {
        return 0;
    }
    difference.push(pushes, m).cast_unsigned()
}

// The words of a loop with `depth` loops around it.
pub(crate) fn loop_words(
    difference: Form,
    stride: u64,
    depth: usize,
    starts: PerLoop,
    pushes: [PerLoop; MAX_DEPTH],
) -> [u64; DIFFERENCE_WIDTH]
    ensures { result ≡ loop_words (wide_form difference) stride depth starts pushes }
{
    [
        stride,
        difference.at(starts).cast_unsigned(),
        push_word(difference, pushes, depth, 0),
        push_word(difference, pushes, depth, 1),
        push_word(difference, pushes, depth, 2),
    ]
}

// How far D reaches: the ceiling, and whether the smallest D is as large as asked.
pub(crate) fn reach(difference: Form, stride: u64, asked: i64, around: Around) -> Extent
    requires { 0 < stride }
    ensures { (result.ceiling ≡ ceiling_within (wide_form difference) stride around) × (result.enough ≡ enough_within (wide_form difference) asked around) }
{
    let d = difference.range(around.lo, around.hi);
    Extent {
        ceiling: trips_over(d.hi, stride),
        enough: asked <= d.lo,
    }
}

// The pushes of loop m, with that on the index of a loop at this depth.
fn row_with(lower: Form, pushes: [PerLoop; MAX_DEPTH], depth: usize, m: usize) -> PerLoop
    requires { (depth < depth_limit) × (m < depth_limit) }
    ensures { result ≡ row_with (wide_form lower) pushes depth m }
{
    let mut row = pushes[m];
    row[depth] = lower.push(pushes, m);
    row
}

// All pushes, with those on the index of a loop at this depth and its own.
pub(crate) fn pushes_with(
    forms: Forms,
    depth: usize,
    pushes: [PerLoop; MAX_DEPTH],
) -> [PerLoop; MAX_DEPTH]
    requires { depth < depth_limit }
    ensures { result ≡ pushes_with (wide_form forms.lower) forms.stride depth pushes }
{
    let mut own: PerLoop = [0; MAX_DEPTH];
    own[depth] = forms.stride;
    let mut next = pushes;
    for m in 0..INDEX_FACTORS {
        next[m] = row_with(forms.lower, pushes, depth, m);
    }
    next[depth] = own;
    next
}

// Where a loop's index lies, by the ranges of its forms and whether it counts down.
fn index_range(lower: Range, upper: Range, down: bool) -> Range
    ensures { range_of result ≡ cond down range_down range_up (range_of lower) (range_of upper) }
{
    if down {
        Range {
            lo: upper.lo.min(lower.hi),
            hi: lower.hi,
        }
    } else {
        Range {
            lo: lower.lo,
            hi: lower.lo.max(upper.hi),
        }
    }
}

// The indexes inside a loop at this depth.
pub(crate) fn around_with(forms: Forms, depth: usize, around: Around) -> Around
    requires { depth < depth_limit }
    ensures { result ≡ around_with forms.down (wide_form forms.lower) (wide_form forms.upper) depth around }
{
    let low = forms.lower.range(around.lo, around.hi);
    let up = forms.upper.range(around.lo, around.hi);
    let index = index_range(low, up, forms.down);
    let mut inside = around;
    inside.lo[depth] = index.lo;
    inside.hi[depth] = index.hi;
    inside.starts[depth] = forms.lower.at(around.starts);
    inside
}
