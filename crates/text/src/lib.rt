// The text that the program `bound` prints.
#![tactic(auto)]

mod lines;
mod loop_lines;

ghost use Rattle.std.specs.Prelude.{◌≡◌, ◌++◌, ◌≤◌, length, take, drop, replicate};
ghost use Rattle.meaning.specs.Limits.{input_limit};
ghost use Rattle.meaning.specs.Reader.{read};
ghost use Rattle.meaning.specs.Answer.{answer};
ghost use Rattle.meaning.specs.Program.{answer_text, input_budget, input_parameters, input_sheet, program_text, program_text_by, reports_of};
ghost use Rattle.meaning.specs.EarlierReaders.{short_read, UnlessTooLong};
ghost use Rattle.meaning.specs.ReasonsTold.{ReasonsTold};
ghost use Rattle.encoding.specs.Append.{Appended};
ghost use Rattle.text.specs.Limits.{text_limit};

use crate::lines::{FIGURES_LINE_LENGTH, REPORT_LENGTH, put_figures_line, put_refusal_line};
use crate::loop_lines::put_loops;
use encoding::number::{signed16_at, unsigned32_at};
use figures::cycles;
use form::Parameters;
use layout::MAX_LOOPS;
use records::MAX_SHEET_LENGTH;
use sheet::refusal::{Refusal, RefusalKind};

// Four parameters of 2 bytes each and a budget of 4 bytes stand before the sheet.
const HEADER_LENGTH: usize = 12;

// The header, the longest sheet, and a byte of one record more: so many bytes of an input matter.
pub const INPUT_LENGTH: usize = HEADER_LENGTH + MAX_SHEET_LENGTH + 1;

// The longest figures line, and for each loop its longest lines.
pub const TEXT_LENGTH: usize = FIGURES_LINE_LENGTH + MAX_LOOPS * REPORT_LENGTH;

pub type Text = [u8; TEXT_LENGTH];

// Room for all of an input that matters.
pub fn blank_input() -> [u8; INPUT_LENGTH]
    ensures { result ≡ replicate input_limit 0 }
{
    [0; INPUT_LENGTH]
}

// The four parameters of an input, which come first.
pub fn parameters_of(input: &[u8]) -> Parameters
    ensures { result ≡ input_parameters input.now }
{
    let p1 = signed16_at(input, 0);
    let p2 = signed16_at(input, 2);
    let p3 = signed16_at(input, 4);
    let p4 = signed16_at(input, 6);
    [p1, p2, p3, p4]
}

// The budget of an input, after the parameters.
pub fn budget_of(input: &[u8]) -> u32
    ensures { result ≡ input_budget input.now }
{
    unsigned32_at(input, 8)
}

// The figures and the lines of each loop, or the refusal, at the buffer's start.
fn put_answer(sheet: &[u8], parameters: Parameters, budget: u32, buffer: &mut [u8]) -> usize
    requires { text_limit ≤ length buffer.old }
    ensures { Appended buffer.old 0
        (answer_text (answer sheet.now parameters budget) (reports_of parameters (read sheet.now))) buffer.new result }
{
    match cycles(sheet, parameters, budget) {
        Ok(figures) => {
            let at = put_figures_line(buffer, 0, figures);
            put_loops(sheet, parameters, buffer, at)
        }
        Err(refusal) => put_refusal_line(buffer, 0, refusal),
    }
}

// Stores the text at the buffer's start and answers its length; the bytes after it stay. Of the input its first bytes matter, as many as `blank_input` has.
pub fn program_text(input: &[u8], buffer: &mut Text) -> usize
    ensures length { result ≡ length (program_text input.now) }
    ensures bytes { buffer.new ≡ program_text input.now ++ drop (length (program_text input.now)) buffer.old }
    ensures fits { (result ≤ text_limit) × (length buffer.new ≡ text_limit) }
    ensures reasons { ReasonsTold (input_parameters input.now) (read (input_sheet input.now)) }
    ensures before { UnlessTooLong (input_sheet input.now) (program_text input.now ≡ program_text_by short_read input.now) }
    ensures cut { program_text input.now ≡ program_text (take input_limit input.now) }
{
    if input.len() < HEADER_LENGTH {
        return put_refusal_line(
            buffer,
            0,
            Refusal {
                kind: RefusalKind::CutShort,
                offset: 0,
            },
        );
    }
    let sheet = &input[HEADER_LENGTH..];
    put_answer(sheet, parameters_of(input), budget_of(input), buffer)
}
