// The calls as C has them: each is the call of crate exports with the same contract, under its name for C. The clauses stand here again, since a crate is a library
// or a static library (docs/DECISIONS.md).
#![tactic(auto)]

ghost use Rattle.std.specs.Prelude.{◌≡◌, [], ◌∷◌, true, false};
ghost use Rattle.meaning.specs.CCall.{c_call};
ghost use Rattle.meaning.specs.Answer as Library;
ghost use Rattle.meaning.specs.Converter.{add_skips, drop_skips, convert, with_skips, without_skips};
ghost use Rattle.meaning.specs.ConverterCall.{with_skips_call, without_skips_call};
ghost use Rattle.meaning.specs.Moved.{SameSheet, Turned};
ghost use Rattle.meaning.specs.EarlierReaders.{short_read, UnlessTooLong};
ghost use Rattle.meaning.specs.EarlierVisits.{earlier_answer, OnlyVisitsFall};
ghost use Rattle.meaning.specs.Program.{input_parameters, input_sheet, program_text, program_text_by};
ghost use Rattle.meaning.specs.Reader.{and_then, read};
ghost use Rattle.meaning.specs.ReasonsTold.{ReasonsTold};
ghost use Rattle.meaning.specs.TextCall.{text_call};
ghost use Rattle.meaning.specs.Lent.{lent_in};
ghost use Rattle.ranges.specs.ParameterRange.{parameter_range};
ghost use Rattle.ranges.specs.RangeCall.{range_call, RangeStored};
ghost use Rattle.exports.specs.Demand.{Stored};

// The C call: what the library call answers, in the area that the caller lends.
#[unsafe(no_mangle)]
pub extern "C" fn pumdalin_figures(
    sheet: &[u8],
    p1: i16,
    p2: i16,
    p3: i16,
    p4: i16,
    budget: u32,
    answer: &mut [u8],
) -> u32
    ensures number { result ≡ (c_call sheet.now (p1 ∷ p2 ∷ p3 ∷ p4 ∷ []) budget answer.old).number }
    ensures bytes { answer.new ≡ (c_call sheet.now (p1 ∷ p2 ∷ p3 ∷ p4 ∷ []) budget answer.old).area }
    ensures demand3 { Stored sheet.now (p1 ∷ p2 ∷ p3 ∷ p4 ∷ []) result answer.new }
    ensures before { UnlessTooLong sheet.now
        (Library.answer sheet.now (p1 ∷ p2 ∷ p3 ∷ p4 ∷ []) budget ≡ Library.answer_by short_read sheet.now (p1 ∷ p2 ∷ p3 ∷ p4 ∷ []) budget) }
    ensures fewer { OnlyVisitsFall (earlier_answer sheet.now (p1 ∷ p2 ∷ p3 ∷ p4 ∷ []) budget)
        (Library.answer sheet.now (p1 ∷ p2 ∷ p3 ∷ p4 ∷ []) budget) }
{
    exports::pumdalin_figures(sheet, p1, p2, p3, p4, budget, answer)
}

// The C call over a range of one parameter: what the library call over a range answers, in the area that the caller lends.
#[unsafe(no_mangle)]
pub extern "C" fn pumdalin_range(
    sheet: &[u8],
    p1: i16,
    p2: i16,
    p3: i16,
    p4: i16,
    budget: u32,
    number: u32,
    first: i16,
    last: i16,
    answer: &mut [u8],
) -> u32
    ensures number { result ≡
        (range_call sheet.now (p1 ∷ p2 ∷ p3 ∷ p4 ∷ []) budget (parameter_range number first last) answer.old).number }
    ensures bytes { answer.new ≡
        (range_call sheet.now (p1 ∷ p2 ∷ p3 ∷ p4 ∷ []) budget (parameter_range number first last) answer.old).area }
    ensures promise { RangeStored sheet.now (p1 ∷ p2 ∷ p3 ∷ p4 ∷ []) budget (parameter_range number first last) result answer.new }
{
    exports::pumdalin_range(sheet, p1, p2, p3, p4, budget, number, first, last, answer)
}

// The text call: what `bound` prints for this input, in the buffer that the caller lends, and its length in the area.
#[unsafe(no_mangle)]
pub extern "C" fn pumdalin_text(input: &[u8], text: &mut [u8], answer: &mut [u8]) -> u32
    ensures number { result ≡ (text_call input.now text.old answer.old).number }
    ensures text { text.new ≡ (text_call input.now text.old answer.old).buffer }
    ensures area { answer.new ≡ (text_call input.now text.old answer.old).area }
    ensures reads { result ≡ 0 → lent_in text.new answer.new ≡ program_text input.now }
    ensures reasons { ReasonsTold (input_parameters input.now) (read (input_sheet input.now)) }
    ensures before { UnlessTooLong (input_sheet input.now) (program_text input.now ≡ program_text_by short_read input.now) }
{
    exports::pumdalin_text(input, text, answer)
}

// The sheet with every kind 2 turned into kind 6, in the buffer that the caller lends, and its length in the area.
#[unsafe(no_mangle)]
pub extern "C" fn pumdalin_with_skips(sheet: &[u8], target: &mut [u8], answer: &mut [u8]) -> u32
    ensures number { result ≡ (with_skips_call sheet.now target.old answer.old).number }
    ensures sheet { target.new ≡ (with_skips_call sheet.now target.old answer.old).buffer }
    ensures area { answer.new ≡ (with_skips_call sheet.now target.old answer.old).area }
    ensures same { result ≡ 0 → SameSheet sheet.now (lent_in target.new answer.new) }
    ensures turned { result ≡ 0 → Turned true without_skips sheet.now (lent_in target.new answer.new) }
    ensures before { UnlessTooLong sheet.now
        (with_skips sheet.now target.old ≡ convert (and_then (short_read sheet.now) add_skips) target.old) }
{
    exports::pumdalin_with_skips(sheet, target, answer)
}

// The sheet with every kind 6 turned into kind 2, in the buffer that the caller lends, and its length in the area.
#[unsafe(no_mangle)]
pub extern "C" fn pumdalin_without_skips(sheet: &[u8], target: &mut [u8], answer: &mut [u8]) -> u32
    ensures number { result ≡ (without_skips_call sheet.now target.old answer.old).number }
    ensures sheet { target.new ≡ (without_skips_call sheet.now target.old answer.old).buffer }
    ensures area { answer.new ≡ (without_skips_call sheet.now target.old answer.old).area }
    ensures same { result ≡ 0 → SameSheet sheet.now (lent_in target.new answer.new) }
    ensures turned { result ≡ 0 → Turned false with_skips sheet.now (lent_in target.new answer.new) }
    ensures before { UnlessTooLong sheet.now
        (without_skips sheet.now target.old ≡ convert (and_then (short_read sheet.now) (drop_skips 0)) target.old) }
{
    exports::pumdalin_without_skips(sheet, target, answer)
}
