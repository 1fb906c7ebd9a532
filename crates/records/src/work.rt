// The work kind: its fields, and their range as a named constant.
ghost use Rattle.std.specs.Prelude.{◌≡◌, List};
ghost use Rattle.meaning.specs.Record.{work_kind, decode_record, Open, fields_in_range};
ghost use Rattle.records.specs.View.{blank_work, work_of};

use encoding::number::unsigned16_at;

#[derive(Clone, Copy, PartialEq, Eq)]
pub struct Work {
    pub least: u16,
    pub most: u16,
}

impl Work {
    pub const MAX_MOST: u16 = 4095;

    pub const BODY_LENGTH: usize = 4;

    pub fn blank() -> Work
        ensures { result ≡ blank_work }
    {
        Work { least: 0, most: 0 }
    }

    #[tactic(auto, unfolding(meaning::specs::Record::decode_record))]
    pub fn decode(body: &[u8]) -> Work
        ensures { work_of result ≡ decode_record work_kind body.now }
    {
        Work {
            least: unsigned16_at(body, 0),
            most: unsigned16_at(body, 2),
        }
    }

    // 3: whether the fields in a body are in their ranges.
    #[tactic(auto, unfolding(meaning::specs::Record::fields_in_range, meaning::specs::Record::decode_record))]
    pub fn in_range(body: &[u8]) -> bool
        ensures { (os : List Open) → result ≡ fields_in_range os (decode_record work_kind body.now) }
    {
        let least = unsigned16_at(body, 0);
        let most = unsigned16_at(body, 2);
        least <= most && most <= Work::MAX_MOST
    }
}
