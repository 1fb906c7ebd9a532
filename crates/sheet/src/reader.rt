// The reader: a sheet's records, or refusal 1, 2, 3, 4 or 5 with its place.
ghost use Rattle.std.specs.Prelude.{◌≡◌, List, map, ℕ, ◌+◌, ◌≤◌, ◌<◌, length, get_or, drop};
ghost use Rattle.meaning.specs.Record.{Open};
ghost use Rattle.meaning.specs.Reader.{ok, read_record, read};
ghost use Rattle.meaning.specs.EarlierReaders.{ReadAsBefore};
ghost use Rattle.meaning.specs.Writer.{store, write};
ghost use Rattle.records.specs.View.{raw_record_of};
ghost use Rattle.sheet.specs.Nestings.{nesting_of};
ghost use Rattle.sheet.specs.Answers.{refusable, accepted_of, counted, or_zero, with_blanks};

use crate::head::head_at;
use crate::nesting::{AcceptedRecord, Nesting, accept_record};
use crate::refusal::{Refusal, RefusalKind};
use records::{MAX_RECORDS, Record, Records};

// The records of a sheet, blank ones after them, and how many there are or the refusal.
// Stays an array beside the answer, since on a refusal too all records are promised, blank ones (`read_sheet`'s clause `records`).
#[derive(Clone, Copy)]
pub struct RecordsRead {
    pub records: Records,
    pub answer: Result<usize, Refusal>,
}

// Refusals 2, 1, 3 and 5, in this order, of the record at an offset where `here` is open.
fn read_record(sheet: &[u8], at: usize, here: Nesting) -> Result<AcceptedRecord, Refusal>
    requires { at < length sheet.now }
    ensures { (os : List Open) → here ≡ nesting_of os →
        refusable result ≡ accepted_of (read_record at os (get_or sheet.now at 0) (drop (at + 1) sheet.now)) }
{
    let Some(head) = head_at(sheet, at)? else {
        // a byte stands at `at`
        unreachable!()
    };
    let from = head.offset;
    let to = from + head.length;
    accept_record(at, here, head.kind, &sheet[from..to])
}

// How many records a sheet has, or its refusal: record by record 4, 2, 1, 3, 5, then open at the end.
pub fn check_sheet(sheet: &[u8]) -> Result<usize, Refusal>
    ensures { refusable result ≡ counted (read sheet.now) }
{
    let mut at: usize = 0;
    let mut count: usize = 0;
    let mut here = Nesting::nothing();
    // Stays a loop over an offset, since records have different lengths, which each record's kind says: no slice's method splits a sheet so.
    while at < sheet.len() {
        if MAX_RECORDS <= count {
            return Err(Refusal {
                kind: RefusalKind::TooManyRecords,
                offset: at,
            });
        }
        let record = read_record(sheet, at, here)?;
        here = record.after;
        at += record.length;
        count += 1;
    }
    if here.size != 0 {
        return Err(Refusal {
            kind: RefusalKind::Misplaced,
            offset: at,
        });
    }
    Ok(count)
}

// The records of a sheet that has `count` of them, blank ones after them.
fn decode_all(sheet: &[u8], count: usize) -> Records
    requires { count ≡ or_zero (counted (read sheet.now)) }
    ensures { result ≡ with_blanks (read sheet.now) }
{
    let mut records: Records = [Record::blank(0); MAX_RECORDS];
    let mut at = 0;
    for record in &mut records[..count] {
        let Ok(Some(head)) = head_at(sheet, at) else {
            // the sheet has `count` records
            unreachable!()
        };
        let to = head.offset + head.length;
        *record = Record::decode(head.kind, &sheet[head.offset..to]);
        at = to;
    }
    records
}

// Reads a sheet's records. Writing them again gives back the sheet, and a sheet that an earlier reader read is read as before.
pub fn read_sheet(sheet: &[u8]) -> RecordsRead
    ensures answer { refusable result.answer ≡ counted (read sheet.now) }
    ensures records { result.records ≡ with_blanks (read sheet.now) }
    ensures undone { (n : ℕ) (buffer : List ℕ) → refusable result.answer ≡ ok n → length sheet.now ≤ length buffer →
        write (map raw_record_of result.records) n buffer ≡ store buffer (ok sheet.now) }
    ensures before { ReadAsBefore sheet.now }
{
    let answer = check_sheet(sheet);
    let count = answer.unwrap_or(0);
    let records = decode_all(sheet, count);
    RecordsRead { records, answer }
}
