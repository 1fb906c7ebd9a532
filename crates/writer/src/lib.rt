// The writer: the sheet that holds given records, or refusal 4, 2, 3, 5 or 9 with its place.
#![tactic(auto)]

mod body;

ghost use Rattle.std.specs.Prelude.{◌≡◌, List, [], ◌++◌, map, ℕ, ◌+◌, ◌-◌, ◌≤◌, length, take, replicate};
ghost use Rattle.meaning.specs.Limits.{record_limit, record_length_limit, sheet_length_limit};
ghost use Rattle.meaning.specs.Record as M;
ghost use Rattle.meaning.specs.Record.{Open};
ghost use Rattle.meaning.specs.Reader.{ok, Accepted, read};
ghost use Rattle.meaning.specs.EarlierWriter.{WrittenAsBefore};
ghost use Rattle.meaning.specs.Writer.{work_fields_zero, loop_fields_zero, foreign_fields_zero, check_record, check_from, write};
ghost use Rattle.records.specs.View.{meant_kind, blank_record, raw_record_of};
ghost use Rattle.sheet.specs.Nestings.{nesting_of};
ghost use Rattle.sheet.specs.Answers.{refusable, accepted_of, counted, with_blanks};
ghost use Rattle.writer.specs.Writing.{measured, RecordLaid, SheetLaid};

use crate::body::put_body;
use encoding::put::{put, put_byte};
use records::loops::Loop;
use records::work::Work;
use records::{Kind, MAX_RECORDS, MAX_SHEET_LENGTH, Record, Records};
use sheet::nesting::{AcceptedRecord, Nesting, accept_record};
use sheet::refusal::{Refusal, RefusalKind};

#[tactic(auto, unfolding(meaning::specs::Writer::work_fields_zero))]
fn work_blank(item: Record) -> bool
    ensures { result ≡ work_fields_zero (raw_record_of item) }
{
    item.work == Work::blank()
}

fn loop_blank(item: Record) -> bool
    ensures { result ≡ loop_fields_zero (raw_record_of item) }
{
    item.looping == Loop::blank()
}

// 3: whether the fields that a kind does not have are 0.
#[tactic(auto, unfolding(meaning::specs::Writer::foreign_fields_zero, meaning::specs::Writer::skip_zero))]
fn foreign_blank(kind: Kind, item: Record) -> bool
    ensures { result ≡ foreign_fields_zero (meant_kind kind) (raw_record_of item) }
{
    match kind {
        Kind::Work => loop_blank(item),
        Kind::Loop => work_blank(item) && item.looping.skip == 0,
        Kind::SkipLoop => work_blank(item),
        Kind::End | Kind::Choice | Kind::NextArm => work_blank(item) && loop_blank(item),
    }
}

// Refusals 2, 3 and 5, in this order, of a record at the offset that it would have. Its bytes are stored there; where it is refused they are not used.
fn lay_record(
    item: Record,
    at: usize,
    here: Nesting,
    sheet: &mut [u8],
) -> Result<AcceptedRecord, Refusal>
    requires { at + record_length_limit ≤ length sheet.old }
    ensures answer { (os : List Open) → here ≡ nesting_of os → refusable result ≡ accepted_of (check_record at os (raw_record_of item)) }
    ensures laid { (os : List Open) (a : Accepted) → here ≡ nesting_of os → check_record at os (raw_record_of item) ≡ ok a →
        RecordLaid item at a.accepted sheet.old sheet.new }
{
    let Some(kind) = Kind::of(item.kind) else {
        return Err(Refusal {
            kind: RefusalKind::UnknownKind,
            offset: at,
        });
    };
    if !foreign_blank(kind, item) {
        return Err(Refusal {
            kind: RefusalKind::FieldOutOfRange,
            offset: at,
        });
    }
    let from = put_byte(sheet, at, item.kind);
    let to = put_body(sheet, from, kind, item);
    accept_record(at, here, item.kind, &sheet[from..to])
}

// The length of the sheet of the records, or the first refusal among them, or that of what is open at the end.
fn lay_out(items: &[Record], sheet: &mut [u8]) -> Result<usize, Refusal>
    requires { (length items.now ≤ record_limit) × (length sheet.old ≡ sheet_length_limit) }
    ensures answer { refusable result ≡ measured (check_from 0 [] (map raw_record_of items.now)) }
    ensures laid { (rs : List M.Record) → check_from 0 [] (map raw_record_of items.now) ≡ ok rs →
        SheetLaid items.now rs sheet.new }
{
    let mut at = 0;
    let mut here = Nesting::nothing();
    for item in items {
        let record = lay_record(*item, at, here, sheet)?;
        here = record.after;
        at += record.length;
    }
    if here.size != 0 {
        return Err(Refusal {
            kind: RefusalKind::Misplaced,
            offset: at,
        });
    }
    Ok(at)
}

// Writes the sheet of the first `count` records. The buffer changes only where no refusal falls: the sheet is laid out apart from it first. What
// could be written before there were longer sheets is written as before.
// Stays an array with a count, since docs/FORMAT.md has the writer take 128 records, a count and a buffer.
pub fn write_sheet(records: Records, count: usize, buffer: &mut [u8]) -> Result<usize, Refusal>
    ensures answer { refusable result ≡ (write (map raw_record_of records) count buffer.old).result }
    ensures bytes { buffer.new ≡ (write (map raw_record_of records) count buffer.old).buffer }
    ensures undone { (n : ℕ) → refusable result ≡ ok n →
        (counted (read (take n buffer.new)) ≡ ok count)
        × (with_blanks (read (take n buffer.new)) ≡ take count records ++ replicate (record_limit - count) (blank_record 0)) }
    ensures before { WrittenAsBefore (map raw_record_of records) count buffer.old }
{
    if MAX_RECORDS < count {
        return Err(Refusal {
            kind: RefusalKind::TooManyRecords,
            offset: 0,
        });
    }
    let mut sheet = [0; MAX_SHEET_LENGTH];
    let length = lay_out(&records[..count], &mut sheet)?;
    if buffer.len() < length {
        return Err(Refusal {
            kind: RefusalKind::ShortBuffer,
            offset: 0,
        });
    }
    Ok(put(buffer, 0, &sheet[..length]))
}
