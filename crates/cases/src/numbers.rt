// What the bytes after a case's sheet begin with.
// `parameters_in` and `budget_in` stay beside `parameters_of` and `budget_of` of crate text, since taking those would be no plainer: for them
// this crate, which rests on four, would rest on text and all that is below it.
ghost use Rattle.std.specs.Prelude.{◌≡◌};
ghost use Rattle.meaning.specs.Program.{input_budget, input_parameters};

use encoding::number::{signed16_at, unsigned32_at};
use form::Parameters;

// How many bytes the four parameters take, which come first.
pub const PARAMETERS: usize = 8;

pub fn parameters_in(given: &[u8]) -> Parameters
    ensures { result ≡ input_parameters given.now }
{
    let p1 = signed16_at(given, 0);
    let p2 = signed16_at(given, 2);
    let p3 = signed16_at(given, 4);
    let p4 = signed16_at(given, 6);
    [p1, p2, p3, p4]
}

// The budget, which comes after the parameters.
pub fn budget_in(given: &[u8]) -> u32
    ensures { result ≡ input_budget given.now }
{
    unsigned32_at(given, PARAMETERS)
}
