// The values of a range of one parameter.
ghost use Rattle.std.specs.Prelude.{◌≡◌, ◌≤◌, ◌<◌};
ghost use Rattle.meaning.specs.Limits.{parameter_factors};
ghost use Rattle.ranges.specs.ParameterRange.{value_count, value_at, parameters_at, range_allowed};
ghost use Rattle.sweep.specs.Values.{range_of};

use form::Parameters;
use form::packed::PARAMETER_FACTORS;

// The values first, first + 1, .., last of parameter 1, 2, 3 or 4.
#[derive(Clone, Copy, PartialEq, Eq)]
pub struct ParameterRange {
    pub number: u32,
    pub first: i16,
    pub last: i16,
}

// The most values of a range.
pub const MAX_VALUES: usize = 256;

// How many values there are; 0 where the first is above the last.
pub fn value_count(range: ParameterRange) -> u32
    ensures { result ≡ value_count (range_of range) }
{
    (i64::from(range.last) - i64::from(range.first) + 1).max(0) as u32
}

// Value number k.
pub(crate) fn value_at(range: ParameterRange, k: u32) -> i16
    requires { k < value_count (range_of range) }
    ensures { result ≡ value_at (range_of range) k }
{
    (i64::from(range.first) + i64::from(k)) as i16
}

// The parameters at value number k.
pub(crate) fn parameters_at(parameters: Parameters, range: ParameterRange, k: u32) -> Parameters
    requires { (1 ≤ range.number) × ((range.number ≤ parameter_factors) × (k < value_count (range_of range))) }
    ensures { result ≡ parameters_at (range_of range) parameters k }
{
    let mut all = parameters;
    let place = (range.number - 1) as usize;
    all[place] = value_at(range, k);
    all
}

// Whether the range is not refused 11.
pub(crate) fn is_allowed(range: ParameterRange) -> bool
    ensures { result ≡ range_allowed (range_of range) }
{
    let count = value_count(range);
    0 < range.number
        && range.number <= PARAMETER_FACTORS as u32
        && 0 < count
        && count <= MAX_VALUES as u32
}
