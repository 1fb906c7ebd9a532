// A record's body, put at a position of a buffer; the answer is the position after it.
ghost use Rattle.std.specs.Prelude.{◌≡◌, false, ◌+◌, ◌≤◌, length};
ghost use Rattle.meaning.specs.Form.{form_bytes};
ghost use Rattle.meaning.specs.Record.{loop_record, body_bytes};
ghost use Rattle.meaning.specs.Writer.{record_of};
ghost use Rattle.encoding.specs.Append.{Appended};
ghost use Rattle.form.specs.Packed.{form_of};
ghost use Rattle.meaning.specs.Limits.{body_limit};
ghost use Rattle.records.specs.View.{meant_kind, work_of, loop_of, raw_record_of};

use encoding::put::put;
use form::packed::PackedForm;
use records::loops::Loop;
use records::work::Work;
use records::{Kind, Record};

const FORM_LENGTH: usize = 9;

// The bytes of a form.
fn form_bytes(form: PackedForm) -> [u8; FORM_LENGTH]
    ensures { result ≡ form_bytes (form_of form) }
{
    let [low, high] = form.constant.cast_unsigned().to_le_bytes();
    let [i1, i2, i3] = form.index;
    let [p1, p2, p3, p4] = form.parameter;
    [
        low,
        high,
        i1.cast_unsigned(),
        i2.cast_unsigned(),
        i3.cast_unsigned(),
        p1.cast_unsigned(),
        p2.cast_unsigned(),
        p3.cast_unsigned(),
        p4.cast_unsigned(),
    ]
}

fn put_work(buffer: &mut [u8], at: usize, fields: Work) -> usize
    requires { at + body_limit ≤ length buffer.old }
    ensures { Appended buffer.old at (body_bytes (work_of fields)) buffer.new result }
{
    let at = put(buffer, at, &fields.least.to_le_bytes());
    put(buffer, at, &fields.most.to_le_bytes())
}

// The body of a loop without a skip, after which a loop's skip stands.
fn put_loop(buffer: &mut [u8], at: usize, fields: Loop) -> usize
    requires { at + body_limit ≤ length buffer.old }
    ensures { Appended buffer.old at (body_bytes (loop_record (loop_of false fields))) buffer.new result }
{
    let at = put(buffer, at, &fields.start.to_le_bytes());
    let at = put(buffer, at, &fields.step.to_le_bytes());
    let at = put(buffer, at, &fields.stride.cast_unsigned().to_le_bytes());
    let at = put(buffer, at, &form_bytes(fields.lower));
    put(buffer, at, &form_bytes(fields.upper))
}

// The body that the fields of a kind make.
#[tactic(auto, unfolding(meaning::specs::Writer::record_of, meaning::specs::Writer::loop_in, meaning::specs::Record::body_bytes), using(encoding::proofs::Appending::nothing))]
pub(crate) fn put_body(buffer: &mut [u8], at: usize, kind: Kind, item: Record) -> usize
    requires { at + body_limit ≤ length buffer.old }
    ensures { Appended buffer.old at (body_bytes (record_of (meant_kind kind) (raw_record_of item))) buffer.new result }
{
    match kind {
        Kind::Work => put_work(buffer, at, item.work),
        Kind::Loop => put_loop(buffer, at, item.looping),
        Kind::SkipLoop => {
            let at = put_loop(buffer, at, item.looping);
            put(buffer, at, &item.looping.skip.to_le_bytes())
        }
        Kind::End | Kind::Choice | Kind::NextArm => at,
    }
}
