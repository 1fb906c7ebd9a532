// The header of a case.
ghost use Rattle.std.specs.Prelude.{◌≡◌, ◌&&◌, ◌==◌, ◌++◌, IfOk, IfErr, IfSome, List, ℕ, length};
ghost use Rattle.std.specs.Io.KnownBytes.{Consumes};
ghost use Rattle.sheet.specs.Refusals.{refusal_number};
ghost use Rattle.cases.specs.Headers.{HasFields};

use crate::calls::Call;
use crate::files::next_bytes;
use encoding::number::{byte_at, unsigned16_at};
use sheet::refusal::Refusal;
use std::io;
use std::io::Read;

const HEADER_LENGTH: usize = 12;

// No file has more cases.
pub const MOST_CASES: usize = 1000000;

// No case has a longer sheet.
pub const MOST_SHEET: usize = 4096;

// Lengths are in bytes.
#[derive(Clone, Copy)]
pub struct Case {
    // What is called, if that is known.
    pub call: Option<Call>,
    // The number of the refusal, or of the reason whose line is read; 0 where there is none. Stays a number, since a case of a reason's line
    // has the reason's there (`read_reason`).
    pub number: u8,
    // The length of the sheet, of the input of a text, or of the line of a reason.
    pub sheet: usize,
    // How many records, loops' lines or stages follow the sheet; of a text or a converter, the length of what follows it.
    pub entries: usize,
    // The number that is answered, or the refusal's offset; of stages, the length of what follows the sheet; of a reason's line, its first
    // offset.
    pub value: usize,
    // How many records the writer is given, or the length of the area that is lent; of a reason's line, its second offset.
    pub count: usize,
    // The length of the buffer that is lent.
    pub buffer: usize,
}

impl Case {
    fn of(header: &[u8]) -> Case
        ensures { HasFields header.now result }
    {
        Case {
            call: Call::of(byte_at(header, 0)),
            number: byte_at(header, 1),
            sheet: usize::from(unsigned16_at(header, 2)),
            entries: usize::from(unsigned16_at(header, 4)),
            value: usize::from(unsigned16_at(header, 6)),
            count: usize::from(unsigned16_at(header, 8)),
            buffer: usize::from(unsigned16_at(header, 10)),
        }
    }

    // The case whose header comes next in the file; none where the file ends before the header does.
    pub fn read<F: Read>(file: &mut F) -> io::Result<Option<Case>>
        ensures { IfOk result (λ found. IfSome found (λ case.
            (header : List ℕ) × Consumes (F.remaining file.old) (F.remaining file.new) header × HasFields header case)) }
    {
        let mut space = [0; HEADER_LENGTH];
        Ok(next_bytes(file, &mut space, HEADER_LENGTH)?.map(Case::of))
    }

    // The case's sheet and so many bytes after it, which come next in the file; none where the file or the space ends before.
    pub fn body<'a, F: Read>(
        self,
        file: &mut F,
        space: &'a mut [u8],
        after: usize,
    ) -> io::Result<Option<(&'a [u8], &'a [u8])>>
        ensures lengths { IfOk result (λ found. IfSome found (λ body. (length body.0.now ≡ self.sheet) × (length body.1.now ≡ after))) }
        ensures next { IfOk result (λ found. IfSome found (λ body.
            Consumes (F.remaining file.old) (F.remaining file.new) (body.0.now ++ body.1.now))) }
    {
        let Some(count) = self.sheet.checked_add(after) else {
            return Ok(None);
        };
        let Some(bytes) = next_bytes(file, space, count)? else {
            return Ok(None);
        };
        Ok(Some(bytes.split_at(self.sheet)))
    }

    // Whether the answer is the refusal that the case stores, or the given one where it stores none.
    pub fn has_answer<T: PartialEq + Copy>(self, answer: Result<T, Refusal>, stored: T) -> bool
        ensures given { IfOk answer (λ value. result ≡ (self.number == 0 && T.eq value stored)) }
        ensures refused { IfErr answer (λ refusal. result ≡ (refusal_number refusal.kind == self.number && refusal.offset == self.value)) }
    {
        match answer {
            Ok(value) => self.number == 0 && value == stored,
            Err(refusal) => {
                refusal.kind.number() == u32::from(self.number) && refusal.offset == self.value
            }
        }
    }
}
