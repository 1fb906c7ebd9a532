// Bytes put at a position of a buffer; the answer is the position after them. Buffer and position stay two arguments, here and wherever bytes are put,
// since a struct with the lent buffer would have to say in each contract that it still holds that loan, and no clause would go.
ghost use Rattle.std.specs.Prelude.{◌≡◌, [], ◌∷◌, ◌+◌, ◌≤◌, ◌<◌, length};
ghost use Rattle.encoding.specs.Append.{Appended};

pub fn put(buffer: &mut [u8], at: usize, bytes: &[u8]) -> usize
    requires { at + length bytes.now ≤ length buffer.old }
    ensures { Appended buffer.old at bytes.now buffer.new result }
{
    let next = at + bytes.len();
    buffer[at..next].copy_from_slice(bytes);
    next
}

pub fn put_byte(buffer: &mut [u8], at: usize, byte: u8) -> usize
    requires { at < length buffer.old }
    ensures { Appended buffer.old at (byte ∷ []) buffer.new result }
{
    buffer[at] = byte;
    at + 1
}
