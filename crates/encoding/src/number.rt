// Numbers at an offset of a slice, low byte first; what lies past its end counts as 0.
ghost use Rattle.std.specs.Prelude.{◌≡◌, ℕ, ◌<◌, slice_index, get_or, take, drop};
ghost use Rattle.meaning.specs.Number.{unsigned, unsigned16, signed16, signed8};

use std::array::from_fn;

pub fn byte_at(s: &[u8], at: usize) -> u8
    ensures { result ≡ get_or s.now at 0 }
{
    s.get(at).copied().unwrap_or(0)
}

// The bytes from an offset on. No slice reaches the last offset, so that an offset that stops there is past its end too.
fn bytes_at<const N: usize>(s: &[u8], at: usize) -> [u8; N]
    ensures { (k : ℕ) → k < N → slice_index result k ≡ slice_index (drop at s.now) k }
{
    from_fn(|i| byte_at(s, at.saturating_add(i)))
}

pub fn unsigned16_at(s: &[u8], at: usize) -> u16
    ensures { result ≡ unsigned16 s.now at }
{
    u16::from_le_bytes(bytes_at(s, at))
}

pub fn unsigned32_at(s: &[u8], at: usize) -> u32
    ensures { result ≡ unsigned (take 4 (drop at s.now)) }
{
    u32::from_le_bytes(bytes_at(s, at))
}

pub fn unsigned64_at(s: &[u8], at: usize) -> u64
    ensures { result ≡ unsigned (take 8 (drop at s.now)) }
{
    u64::from_le_bytes(bytes_at(s, at))
}

pub fn signed16_at(s: &[u8], at: usize) -> i16
    ensures { result ≡ signed16 s.now at }
{
    unsigned16_at(s, at).cast_signed()
}

pub fn signed8_at(s: &[u8], at: usize) -> i8
    ensures { result ≡ signed8 s.now at }
{
    byte_at(s, at).cast_signed()
}
