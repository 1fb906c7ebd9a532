// What a call left in the buffers that it was lent.
ghost use Rattle.std.specs.Prelude.{◌≡◌, ◌≢◌, ◌↔◌, ◌++◌, [], IsTrue, All, length, drop};
ghost use Rattle.cases.specs.declared.answers.TheConstants.{FILL};

// What each buffer that is lent is filled with before the call.
pub const FILL: u8 = 167;

// Whether every byte is as it was filled.
fn is_filled(buffer: &[u8]) -> bool
    ensures { IsTrue result ↔ All (λ byte. byte ≡ FILL) buffer.now }
{
    buffer.iter().all(|byte| *byte == FILL)
}

// Whether these bytes stand at the start of the buffer, and every byte after them is as it was filled.
pub fn holds(buffer: &[u8], bytes: &[u8]) -> bool
    ensures { IsTrue result ↔ ((buffer.now ≡ bytes.now ++ drop (length bytes.now) buffer.now)
        × All (λ byte. byte ≡ FILL) (drop (length bytes.now) buffer.now)) }
{
    buffer.starts_with(bytes) && is_filled(&buffer[bytes.len()..])
}

// What a C call that returned this number has to leave: the bytes, or none of them where it refused.
pub fn left_after(returned: u32, bytes: &[u8]) -> &[u8]
    ensures answered { returned ≡ 0 → result.now ≡ bytes.now }
    ensures refused { returned ≢ 0 → result.now ≡ [] }
{
    if returned == 0 { bytes } else { &[] }
}
