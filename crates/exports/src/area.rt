// What the exported calls store in an answer area, numbers of 8 bytes with the low byte first; what follows them stays.
ghost use Rattle.std.specs.Prelude.{◌≡◌, ◌++◌, ◌+◌, ◌≤◌, length, drop};
ghost use Rattle.meaning.specs.Limits.{area_length, length_size, range_area_length};
ghost use Rattle.meaning.specs.Number.{little_endian};
ghost use Rattle.meaning.specs.CCall.{area_bytes};
ghost use Rattle.ranges.specs.RangeCall.{value_bytes, extremes_bytes};
ghost use Rattle.encoding.specs.Append.{Appended};
ghost use Rattle.figures.specs.Answers.{figures_of};
ghost use Rattle.sweep.specs.Ranges.{extremes_is};

use encoding::put::put;
use figures::Figures;
use sweep::extremes::{Extreme, Extremes};

// How many bytes the figures take.
pub(crate) const AREA_LENGTH: usize = 24;

// How many bytes the answer over a range takes.
pub(crate) const RANGE_AREA_LENGTH: usize = 40;

// How many bytes the length of a text or a sheet takes.
pub(crate) const LENGTH_SIZE: usize = 8;

// Least, most, visits.
pub(crate) fn put_figures(area: &mut [u8], f: Figures)
    requires { area_length ≤ length area.old }
    ensures { area.new ≡ area_bytes (figures_of f) ++ drop area_length area.old }
{
    let at = put(area, 0, &f.least.to_le_bytes());
    let at = put(area, at, &f.most.to_le_bytes());
    put(area, at, &f.visits.to_le_bytes());
}

// The length of a text or a sheet.
pub(crate) fn put_length(area: &mut [u8], count: usize)
    requires { length_size ≤ length area.old }
    ensures { area.new ≡ little_endian length_size count ++ drop length_size area.old }
{
    put(area, 0, &(count as u64).to_le_bytes());
}

// Cycles, and the value that gives them in two's complement.
fn put_extreme(area: &mut [u8], at: usize, e: Extreme) -> usize
    requires { at + 16 ≤ length area.old }
    ensures { Appended area.old at (little_endian 8 e.cycles ++ value_bytes e.value) area.new result }
{
    let at = put(area, at, &e.cycles.to_le_bytes());
    let value = i64::from(e.value).cast_unsigned();
    put(area, at, &value.to_le_bytes())
}

// Least and most over a range, each with its value, and the visits.
pub(crate) fn put_extremes(area: &mut [u8], e: Extremes)
    requires { range_area_length ≤ length area.old }
    ensures { area.new ≡ extremes_bytes (extremes_is e) ++ drop range_area_length area.old }
{
    let at = put_extreme(area, 0, e.least);
    let at = put_extreme(area, at, e.most);
    put(area, at, &e.visits.to_le_bytes());
}
