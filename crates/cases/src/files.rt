// The next bytes of a file.
ghost use Rattle.std.specs.Prelude.{◌≡◌, IfOk, IfSome, length};
ghost use Rattle.std.specs.Io.KnownBytes.{Consumes};

use std::io;
use std::io::{ErrorKind, Read};

// So many bytes of the file, put at the start of the space; none where the file or the space ends before. The clauses say nothing of none: that
// the file ends before cannot be told, since `read_exact` promises only what an `Ok` of it means.
pub fn next_bytes<'a, F: Read>(
    file: &mut F,
    space: &'a mut [u8],
    count: usize,
) -> io::Result<Option<&'a [u8]>>
    ensures counted { IfOk result (λ found. IfSome found (λ bytes. length bytes.now ≡ count)) }
    ensures next { IfOk result (λ found. IfSome found (λ bytes. Consumes (F.remaining file.old) (F.remaining file.new) bytes.now)) }
{
    let Some(bytes) = space.get_mut(..count) else {
        return Ok(None);
    };
    match file.read_exact(bytes) {
        Ok(()) => Ok(Some(bytes)),
        Err(error) if error.kind() == ErrorKind::UnexpectedEof => Ok(None),
        Err(error) => Err(error),
    }
}
