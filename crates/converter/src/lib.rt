// The converters of document 02, C-12: every kind 2 into kind 6, and every kind 6 into kind 2.
#![tactic(auto)]

mod record;

ghost use Rattle.std.specs.Prelude.{◌≡◌, List, ◌++◌, true, false, ℕ, length, take, drop};
ghost use Rattle.meaning.specs.Limits.{sheet_length_limit};
ghost use Rattle.meaning.specs.Record as M;
ghost use Rattle.meaning.specs.Record.{sheet_bytes};
ghost use Rattle.meaning.specs.Reader.{ok, and_then};
ghost use Rattle.meaning.specs.EarlierReaders.{short_read, UnlessTooLong};
ghost use Rattle.meaning.specs.Converter as C;
ghost use Rattle.meaning.specs.Converter.{add_skips, drop_skips, with_skips, without_skips};
ghost use Rattle.meaning.specs.Moved.{SameSheet, Turned};
ghost use Rattle.sheet.specs.Sheets.{records_of};
ghost use Rattle.sheet.specs.Answers.{refusable};
ghost use Rattle.converter.specs.Converting.{changed_from, new_records, new_length};

use crate::record::{loses_skip, put_record};
use encoding::number::byte_at;
use encoding::put::put;
use records::{Kind, MAX_SHEET_LENGTH};
use sheet::head::body_at;
use sheet::reader::check_sheet;
use sheet::refusal::{Refusal, RefusalKind};

// Room for every sheet.
pub type Sheet = [u8; MAX_SHEET_LENGTH];

// Lays out the new sheet of the `count` records of a sheet: its length, or 10 at the first loop that would lose a skip that differs from its start.
fn lay_out(sheet: &[u8], count: usize, skips: bool, target: &mut [u8]) -> Result<usize, Refusal>
    requires { (count ≡ length (records_of sheet.now)) × (length target.old ≡ sheet_length_limit) }
    ensures answer { refusable result ≡ new_length (changed_from skips 0 (records_of sheet.now)) }
    ensures laid { (new : List M.Record) → changed_from skips 0 (records_of sheet.now) ≡ ok new →
        target.new ≡ sheet_bytes new ++ drop (length (sheet_bytes new)) target.old }
{
    let mut from = 0;
    let mut to = 0;
    for _ in 0..count {
        let Some(kind) = Kind::of(byte_at(sheet, from)) else {
            // a record stands at `from`
            unreachable!()
        };
        let body = body_at(sheet, from);
        if loses_skip(kind, body, skips) {
            return Err(Refusal {
                kind: RefusalKind::LosesSkip,
                offset: from,
            });
        }
        to = put_record(kind, body, skips, target, to);
        from += 1 + body.len();
    }
    Ok(to)
}

// Makes the new sheet, with a skip in every loop or in none: its length, or refusal 1 to 5, then 10.
// Stays a flag, here, inward (`own` too) and in `exports`, since the clauses of `convert`, which docs/PROOFS.md lists, are over one (`new_records skips`): whether
// loops have skips.
pub fn convert(sheet: &[u8], skips: bool, target: &mut Sheet) -> Result<usize, Refusal>
    ensures answer { refusable result ≡ new_length (new_records skips sheet.now) }
    ensures laid { (new : List M.Record) → new_records skips sheet.now ≡ ok new →
        target.new ≡ sheet_bytes new ++ drop (length (sheet_bytes new)) target.old }
{
    let count = check_sheet(sheet)?;
    lay_out(sheet, count, skips, target)
}

// Stores the new sheet in the buffer, or answers 9 last. The sheet is made apart from it first, so that a refusal leaves it.
fn store(sheet: &[u8], skips: bool, buffer: &mut [u8]) -> Result<usize, Refusal>
    ensures answer { refusable result ≡ (C.convert (new_records skips sheet.now) buffer.old).result }
    ensures bytes { buffer.new ≡ (C.convert (new_records skips sheet.now) buffer.old).buffer }
{
    let mut target: Sheet = [0; MAX_SHEET_LENGTH];
    let length = convert(sheet, skips, &mut target)?;
    if buffer.len() < length {
        return Err(Refusal {
            kind: RefusalKind::ShortBuffer,
            offset: 0,
        });
    }
    Ok(put(buffer, 0, &target[..length]))
}

// Writes the sheet with every kind 2 turned into kind 6. A refusal leaves the buffer.
pub fn with_skips(sheet: &[u8], buffer: &mut [u8]) -> Result<usize, Refusal>
    ensures answer { refusable result ≡ (with_skips sheet.now buffer.old).result }
    ensures bytes { buffer.new ≡ (with_skips sheet.now buffer.old).buffer }
    ensures same { (n : ℕ) → refusable result ≡ ok n → SameSheet sheet.now (take n buffer.new) }
    ensures turned { (n : ℕ) → refusable result ≡ ok n →
        Turned true without_skips sheet.now (take n buffer.new) }
    ensures before { UnlessTooLong sheet.now
        (with_skips sheet.now buffer.old ≡ C.convert (and_then (short_read sheet.now) add_skips) buffer.old) }
{
    store(sheet, true, buffer)
}

// Writes the sheet with every kind 6 turned into kind 2, or answers 10. A refusal leaves the buffer.
pub fn without_skips(sheet: &[u8], buffer: &mut [u8]) -> Result<usize, Refusal>
    ensures answer { refusable result ≡ (without_skips sheet.now buffer.old).result }
    ensures bytes { buffer.new ≡ (without_skips sheet.now buffer.old).buffer }
    ensures same { (n : ℕ) → refusable result ≡ ok n → SameSheet sheet.now (take n buffer.new) }
    ensures turned { (n : ℕ) → refusable result ≡ ok n →
        Turned false with_skips sheet.now (take n buffer.new) }
    ensures before { UnlessTooLong sheet.now
        (without_skips sheet.now buffer.old ≡ C.convert (and_then (short_read sheet.now) (drop_skips 0)) buffer.old) }
{
    store(sheet, false, buffer)
}
