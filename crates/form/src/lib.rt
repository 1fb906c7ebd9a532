// Forms as the reckoning takes them: subtract, range, push, and the value at given indexes.
#![tactic(auto)]

pub mod packed;

ghost use Rattle.std.specs.Prelude.{◌≡◌, [], ◌∷◌, ℕ, map, cond, ◌*◌, ◌^◌, ◌<◌, ◌≤◌, pos, nat_abs, ◌-ℤ◌, ◌*ℤ◌, get_or};
ghost use Rattle.std.specs.Int.Signed.{lt_z};
ghost use Rattle.whole.specs.Integer as Z;
ghost use Rattle.meaning.specs.Limits.{index_factors};
ghost use Rattle.meaning.specs.Form as M;
ghost use Rattle.meaning.specs.Range.{dot_range};
ghost use Rattle.form.specs.Packed.{form_of};
ghost use Rattle.form.specs.Forms.{wide_form, range_of, bounded, folded, ranges_between, range_within, value_at, push_of};

use crate::packed::{INDEX_FACTORS, PARAMETER_FACTORS, PackedForm};
// The most loops that stand in one another.
pub const MAX_DEPTH: usize = 4;

// A number for each loop that may be open, the outermost first.
pub type PerLoop = [i64; MAX_DEPTH];

// The values of the parameters.
pub type Parameters = [i16; PARAMETER_FACTORS];

// A factor has 16 bits, which is room for the difference of two factors of a sheet.
#[derive(Clone, Copy, PartialEq, Eq)]
pub struct Form {
    pub constant: i64,
    pub index: [i16; INDEX_FACTORS],
    pub parameter: [i16; PARAMETER_FACTORS],
}

// The smallest value and the largest.
#[derive(Clone, Copy, PartialEq, Eq)]
pub struct Range {
    pub lo: i64,
    pub hi: i64,
}

// 2^46. No accepted sheet has a larger index, push or constant; up to it, no product or sum here leaves 64 bits.
const LIMIT: u64 = 0x4000_0000_0000;

// 2^15, the largest size of a parameter's value.
const PARAMETER_LIMIT: u64 = 0x8000;

// A number beyond the limit counts as 0.
fn limited(x: i64) -> i64
    ensures { result ≡ bounded x }
{
    if x.unsigned_abs() <= LIMIT { x } else { 0 }
}

// The differences of the factors of two forms.
// Stays a loop over an index, as `sum_of_products` does: tried with `from_fn`, which is not proved, since no contract is inferred for its closure over an
// array whose length is a parameter.
fn differences<const N: usize>(x: [i8; N], y: [i8; N]) -> [i16; N]
    ensures { result ≡ Z.subtract_lists x.entry y.entry }
{
    let mut differences = [0; N];
    for k in 0..N {
        differences[k] = i16::from(x[k]) - i16::from(y[k]);
    }
    differences
}

// The sum of the products of a form's factors and as many numbers, each of at most this size.
fn sum_of_products<const N: usize, const LARGEST: u64>(factors: [i16; N], numbers: [i64; N]) -> i64
    requires small { (k : ℕ) → nat_abs (get_or numbers k (pos 0)) ≤ LARGEST }
    requires room { N * (2 ^ 15 * LARGEST) < 2 ^ 63 }
    ensures value { result ≡ Z.dot factors.entry numbers.entry }
    ensures size { nat_abs result ≤ N * (2 ^ 15 * LARGEST) }
{
    let mut sum = 0;
    for k in 0..N {
        sum += i64::from(factors[k]) * numbers[k];
    }
    sum
}

// The sum of the products of a form's three factors and the numbers of three indexes.
fn dot(index: [i16; INDEX_FACTORS], numbers: [i64; INDEX_FACTORS]) -> i64
    ensures { (result ≡ Z.dot index (map bounded numbers)) × (nat_abs result ≤ index_factors * 2 ^ 61) }
{
    sum_of_products::<INDEX_FACTORS, LIMIT>(index, numbers.map(limited))
}

// All four parameters' shares of a form's value.
fn shares(factors: [i16; PARAMETER_FACTORS], parameters: Parameters) -> i64
    ensures { (result ≡ Z.dot factors parameters) × (nat_abs result ≤ 2 ^ 32) }
{
    sum_of_products::<PARAMETER_FACTORS, PARAMETER_LIMIT>(factors, parameters.map(i64::from))
}

// The end of an index's range at which the product with its factor is smallest.
fn end(factor: i16, lo: i64, hi: i64) -> i64
    ensures { result ≡ cond (lt_z factor (pos 0)) hi lo }
{
    if factor < 0 { hi } else { lo }
}

// The smallest that the indexes add to a form's value, where each lies between its lo and its hi; where the ends are exchanged, the largest.
// Stays over two arrays, since the largest is asked by exchanging them.
fn smallest(index: [i16; INDEX_FACTORS], lo: PerLoop, hi: PerLoop) -> i64
    ensures { (result ≡ (dot_range index (ranges_between (map bounded lo) (map bounded hi))).lo) × (nat_abs result ≤ index_factors * 2 ^ 61) }
{
    let x = end(index[0], lo[0], hi[0]);
    let y = end(index[1], lo[1], hi[1]);
    let z = end(index[2], lo[2], hi[2]);
    dot(index, [x, y, z])
}

impl Form {
    // The first form less the second.
    pub fn subtract(upper: PackedForm, lower: PackedForm) -> Form
        ensures { wide_form result ≡ M.subtract (form_of upper) (form_of lower) }
    {
        Form {
            constant: i64::from(upper.constant) - i64::from(lower.constant),
            index: differences(upper.index, lower.index),
            parameter: differences(upper.parameter, lower.parameter),
        }
    }

    // The form with the parameters' shares in its constant, and no factors of parameters left.
    pub fn fold(self, parameters: Parameters) -> Form
        ensures { wide_form result ≡ folded parameters (wide_form self) }
    {
        let index = self.index;
        Form {
            constant: limited(self.constant) + shares(self.parameter, parameters),
            index,
            parameter: [0; PARAMETER_FACTORS],
        }
    }

    // The smallest value and the largest, where each index lies between its lo and its hi.
    pub fn range(self, lo: PerLoop, hi: PerLoop) -> Range
        ensures { range_of result ≡ range_within (wide_form self) lo hi }
    {
        let within = limited(self.constant);
        Range {
            lo: within + smallest(self.index, lo, hi),
            hi: within + smallest(self.index, hi, lo),
        }
    }

    // The value at these indexes.
    pub fn at(self, indexes: PerLoop) -> i64
        ensures { result ≡ value_at (wide_form self) indexes }
    {
        let [x, y, z, _] = indexes;
        limited(self.constant) + dot(self.index, [x, y, z])
    }

    // What the next trip of loop m adds to the value: its pushes on the indexes are row m.
    pub fn push(self, pushes: [PerLoop; MAX_DEPTH], m: usize) -> i64
        ensures { result ≡ push_of (wide_form self) (get_or pushes m []) }
    {
        let Some(&[x, y, z, _]) = pushes.get(m) else {
            return 0;
        };
        dot(self.index, [x, y, z])
    }
}

// The same form at 64 bits: less one of zeros.
impl From<PackedForm> for Form {
    fn from(form: PackedForm) -> Form
        ensures { wide_form result ≡ form_of form }
    {
        Form::subtract(form, PackedForm::blank())
    }
}
