// The record reader: what stands at an offset of a sheet, and a record's body as a part of the sheet.
ghost use Rattle.std.specs.Prelude.{◌≡◌};
ghost use Rattle.meaning.specs.Reader.{head_at, body_at};
ghost use Rattle.sheet.specs.Answers.{head_result};

use crate::refusal::{Refusal, RefusalKind};
use records::{body_length, is_kind};

// A record's kind, and where its body begins and how long it is.
#[derive(Clone, Copy, PartialEq, Eq)]
pub struct Head {
    // Stays a number, since `accept_record` and `Record::decode`, to which it goes, take any number: a `Kind` would be turned back.
    pub kind: u8,
    pub offset: usize,
    pub length: usize,
}

pub fn head_at(sheet: &[u8], at: usize) -> Result<Option<Head>, Refusal>
    ensures { head_result result ≡ head_at sheet.now at }
{
    let Some(&kind) = sheet.get(at) else {
        return Ok(None);
    };
    if !is_kind(kind) {
        return Err(Refusal {
            kind: RefusalKind::UnknownKind,
            offset: at,
        });
    }
    let length = body_length(kind);
    if sheet.len() - at - 1 < length {
        return Err(Refusal {
            kind: RefusalKind::CutShort,
            offset: at,
        });
    }
    Ok(Some(Head {
        kind,
        offset: at + 1,
        length,
    }))
}

// The body of the record at an offset; empty where no record stands.
pub fn body_at(sheet: &[u8], at: usize) -> &[u8]
    ensures { result.now ≡ body_at sheet.now at }
{
    let Ok(Some(head)) = head_at(sheet, at) else {
        return &[];
    };
    &sheet[head.offset..head.offset + head.length]
}
