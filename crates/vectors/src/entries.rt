// What follows a case's sheet: how many bytes, and the records that stand in them.
use crate::calls::CALL;
use crate::plans::LINE;
use cases::calls::Call;
use cases::headers::Case;
use cases::numbers::PARAMETERS;
use encoding::number::{signed8_at, signed16_at, unsigned16_at};
use form::packed::PackedForm;
use records::loops::Loop;
use records::work::Work;
use records::{MAX_RECORDS, Record, Records};

// No case has more entries, save one of texts, stages or a converter, which says how many bytes follow its sheet.
const MOST_ENTRIES: usize = 150;

// How many bytes an entry takes that has the fields of a record.
const ENTRY: usize = 31;

// How many bytes follow the sheet: a text, a number and a new sheet, parameters and states, parameters and the lines of loops, a call, or
// records.
pub(crate) fn entries_length(case: Case) -> usize {
    match case.call {
        Some(Call::Text | Call::Converter(_)) => case.entries,
        Some(Call::Stages) => case.value,
        _ if MOST_ENTRIES < case.entries => 0,
        Some(Call::Plan) => PARAMETERS + LINE * case.entries,
        Some(Call::Figures) => CALL,
        _ => ENTRY * case.entries,
    }
}

// The form in its nine bytes. This and `record_in` stay beside `Loop::decode`, which the cases of `read_sheet` are to find a fault of.
fn form_in(form: &[u8]) -> PackedForm {
    PackedForm {
        constant: signed16_at(form, 0),
        index: [
            signed8_at(form, 2),
            signed8_at(form, 3),
            signed8_at(form, 4),
        ],
        parameter: [
            signed8_at(form, 5),
            signed8_at(form, 6),
            signed8_at(form, 7),
            signed8_at(form, 8),
        ],
    }
}

// The record in an entry.
fn record_in(entry: &[u8; ENTRY]) -> Record {
    Record {
        kind: entry[0],
        work: Work {
            least: unsigned16_at(entry, 1),
            most: unsigned16_at(entry, 3),
        },
        looping: Loop {
            start: unsigned16_at(entry, 5),
            step: unsigned16_at(entry, 7),
            stride: signed16_at(entry, 9),
            lower: form_in(&entry[11..20]),
            upper: form_in(&entry[20..29]),
            skip: unsigned16_at(entry, 29),
        },
    }
}

// The records that the entries make, blank ones after them.
pub(crate) fn records_in(entries: &[u8]) -> Records {
    let mut records: Records = [Record::blank(0); MAX_RECORDS];
    let (entries, _) = entries.as_chunks::<ENTRY>();
    for (record, entry) in records.iter_mut().zip(entries) {
        *record = record_in(entry);
    }
    records
}
