// One record of a converted sheet, put at a position of a buffer; the answer is the position after it.
ghost use Rattle.std.specs.Prelude.{◌≡◌, not, ◌+◌, ◌≤◌, length};
ghost use Rattle.meaning.specs.Limits.{record_length_limit};
ghost use Rattle.meaning.specs.Record as M;
ghost use Rattle.meaning.specs.Converter.{change_loop};
ghost use Rattle.encoding.specs.Append.{Appended};
ghost use Rattle.records.specs.View.{meant_kind};
ghost use Rattle.converter.specs.Converting.{BodyOf, changed, stays};

use encoding::number::unsigned16_at;
use encoding::put::{put, put_byte};
use records::Kind;
use records::loops::Loop;

// Whether a loop is to lose a skip that differs from its start.
pub(crate) fn loses_skip(kind: Kind, body: &[u8], skips: bool) -> bool
    ensures { (x : M.Record) → BodyOf x (meant_kind kind) body.now → result ≡ not (stays skips x) }
{
    match kind {
        Kind::SkipLoop => !skips && Loop::skip_cycles(body, true) != unsigned16_at(body, 0),
        Kind::Work | Kind::Loop | Kind::End | Kind::Choice | Kind::NextArm => false,
    }
}

// A loop with a skip or without, from its body, which has a skip of its own or has none.
fn put_loop(body: &[u8], own: bool, skips: bool, buffer: &mut [u8], at: usize) -> usize
    requires { (24 ≤ length body.now) × (at + record_length_limit ≤ length buffer.old) }
    ensures { (l : M.Loop) → BodyOf (M.loop_record l) (M.loop_kind own) body.now →
        Appended buffer.old at (M.record_bytes (M.loop_record (changed skips l))) buffer.new result }
{
    let plain = &body[..Loop::BODY_LENGTH];
    if !skips {
        let next = put_byte(buffer, at, Kind::Loop.number());
        return put(buffer, next, plain);
    }
    let next = put_byte(buffer, at, Kind::SkipLoop.number());
    let next = put(buffer, next, plain);
    put(buffer, next, &Loop::skip_cycles(body, own).to_le_bytes())
}

// A record of a kind with its body: a loop with a skip or without, any other record as it is.
pub(crate) fn put_record(
    kind: Kind,
    body: &[u8],
    skips: bool,
    buffer: &mut [u8],
    at: usize,
) -> usize
    requires { ((x : M.Record) × BodyOf x (meant_kind kind) body.now) × (at + record_length_limit ≤ length buffer.old) }
    ensures { (x : M.Record) → BodyOf x (meant_kind kind) body.now →
        Appended buffer.old at (M.record_bytes (change_loop (changed skips) x)) buffer.new result }
{
    match kind {
        Kind::Loop => put_loop(body, false, skips, buffer, at),
        Kind::SkipLoop => put_loop(body, true, skips, buffer, at),
        Kind::Work | Kind::End | Kind::Choice | Kind::NextArm => {
            let next = put_byte(buffer, at, kind.number());
            put(buffer, next, body)
        }
    }
}
