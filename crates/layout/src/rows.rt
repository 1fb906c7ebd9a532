// Rows: what the reader says of each record, six numbers a record. Small ones share a number, since a call makes all rows anew.
#![tactic(auto, unfolding(crate::specs::Rows::number_in))]

ghost use Rattle.std.specs.Prelude.{◌≡◌};
ghost use Rattle.std.proofs.Math.Seq.{paste};
ghost use Rattle.layout.specs.Rows.{row_width, row_from, row_numbers};
ghost use Rattle.layout.specs.Rows.{role_named, role_at, first_at, second_at, entry_cost_at, end_at, after_end_at, enclosing_at, around_named, opener_at, frame_at, depth_at, loops_before_at, loop_at, offset_at};

use crate::MAX_LOOPS;
use form::MAX_DEPTH;
use records::{MAX_OPEN, MAX_RECORDS};

// What a record is for the stages: its role. Arrays may hold any numbers: one that stands for no role is unknown, and stands in no plan.
#[derive(Clone, Copy, PartialEq, Eq)]
pub enum Role {
    Straight,
    Loop,
    End,
    Choice,
    NextArm,
    Unknown,
}

impl Role {
    ghost use Rattle.layout.specs.Rows.{role_named, role_number};

    // The role that a number stands for.
    #[tactic(auto, unfolding(crate::specs::Rows::role_named))]
    fn of(number: u16) -> Role
        ensures { result ≡ role_named number }
    {
        match number {
            0 => Role::Straight,
            1 => Role::Loop,
            2 => Role::End,
            3 => Role::Choice,
            4 => Role::NextArm,
            _ => Role::Unknown,
        }
    }

    // The number of the role; that of an unknown one stands for no role.
    #[tactic(auto, unfolding(crate::specs::Rows::role_number))]
    pub fn number(self) -> u16
        ensures { result ≡ role_number self }
    {
        self as u16
    }
}

// Of one record: its role; its costs, least and most of straight work or start and step of a loop; the number of its end; the number of
// the record that it stands in, plus 1; how many records are open around it, and how many of these are loops; how many loops stand
// before it; its offset in the sheet; what a loop costs where it makes no trip.
#[derive(Clone, Copy)]
pub struct Row {
    // Stays a number, and no `Role`, since docs/PROOFS.md promises what is stored of any numbers (row `layout`).
    pub role: u16,
    pub first: u16,
    pub second: u16,
    pub end: u16,
    pub enclosing: u16,
    pub frame: u16,
    pub depth: u16,
    pub loops: u16,
    pub offset: u16,
    pub skip: u16,
}

const ROW_WIDTH: usize = 6;

const FIRST: usize = 0;

const SECOND: usize = 1;

const SKIP: usize = 2;

// The end, and the record that it stands in.
const ENDING: usize = 3;

// The loops before it; the frame; the loops open around it.
const DEPTH: usize = 4;

// The offset, and the role.
const PLACE: usize = 5;

// The room of a record's number and of a number of loops, of one more than a record's number, of a frame, of an offset and of a role.
const NUMBERS: u16 = MAX_RECORDS as u16;

const AROUND: u16 = 512;

const FRAMES: u16 = MAX_OPEN as u16;

const OFFSETS: u16 = 4096;

const ROLES: u16 = 16;

const DEEPEST: u16 = MAX_DEPTH as u16;

pub const ROW_NUMBERS: usize = MAX_RECORDS * ROW_WIDTH;

pub type Rows = [u16; ROW_NUMBERS];

// Where a record's row begins. Stays beside `difference_from` and `fact_from`, since a call of one function with both constants is longer than this product.
fn row_from(number: usize) -> usize
    ensures { result ≡ row_from number }
{
    number % MAX_RECORDS * ROW_WIDTH
}

// Stores a record's row. What the remainders cut off stands in no sheet.
#[tactic(auto, unfolding(crate::specs::Rows::row_numbers, crate::specs::Rows::end_numbers, crate::specs::Rows::depth_numbers, crate::specs::Rows::place_numbers))]
pub fn put_row(rows: &mut Rows, number: usize, row: Row)
    ensures { rows.new ≡ paste rows.old (row_from number) (row_numbers row) row_width }
{
    let depth = row.depth.min(DEEPEST);
    let values = [
        row.first,
        row.second,
        row.skip,
        row.end % NUMBERS + NUMBERS * (row.enclosing % AROUND),
        row.loops % NUMBERS + NUMBERS * (row.frame % FRAMES + FRAMES * depth),
        row.offset % OFFSETS + OFFSETS * (row.role % ROLES),
    ];
    let from = row_from(number);
    rows[from..from + ROW_WIDTH].copy_from_slice(&values);
}

// The number that is stored of a record's role, for any numbers in the rows.
pub fn role_number_at(rows: &Rows, number: usize) -> u16
    ensures { result ≡ role_at rows.now number }
{
    rows[row_from(number) + PLACE] / OFFSETS
}

pub fn role_at(rows: &Rows, number: usize) -> Role
    ensures { result ≡ role_named (role_at rows.now number) }
{
    Role::of(role_number_at(rows, number))
}

// The least of straight work.
pub fn least_at(rows: &Rows, number: usize) -> u64
    ensures { result ≡ first_at rows.now number }
{
    u64::from(rows[row_from(number) + FIRST])
}

// The most of straight work.
pub fn most_at(rows: &Rows, number: usize) -> u64
    ensures { result ≡ second_at rows.now number }
{
    u64::from(rows[row_from(number) + SECOND])
}

// What entering a loop costs, where it makes so many trips.
pub fn entry_cost_at(rows: &Rows, number: usize, trips: u64) -> u64
    ensures { result ≡ entry_cost_at rows.now number trips }
{
    let column = if trips == 0 { SKIP } else { FIRST };
    u64::from(rows[row_from(number) + column])
}

// The step of a loop. Stays beside `most_at`, since the two are one number of a row by two names, each for its kind of record.
pub fn step_at(rows: &Rows, number: usize) -> u64
    ensures { result ≡ second_at rows.now number }
{
    u64::from(rows[row_from(number) + SECOND])
}

// The number of the end of a loop or choice.
pub fn end_at(rows: &Rows, number: usize) -> usize
    ensures { result ≡ end_at rows.now number }
{
    usize::from(rows[row_from(number) + ENDING]) % MAX_RECORDS
}

// What follows the end of a loop.
pub fn after_end_at(rows: &Rows, number: usize) -> usize
    ensures { result ≡ after_end_at rows.now number }
{
    end_at(rows, number) + 1
}

// What is stored of the record that a record stands in: its number plus 1; 0 where it stands in none. Stays beside `enclosing_at`, since docs/PROOFS.md
// promises every number that is read (row `layout`).
pub fn enclosing_number_at(rows: &Rows, number: usize) -> u16
    ensures { result ≡ enclosing_at rows.now number }
{
    rows[row_from(number) + ENDING] / NUMBERS
}

// The number of the record that a record stands in.
#[tactic(auto, unfolding(crate::specs::Rows::around_named))]
pub fn enclosing_at(rows: &Rows, number: usize) -> Option<usize>
    ensures { result ≡ around_named (enclosing_at rows.now number) }
{
    usize::from(enclosing_number_at(rows, number)).checked_sub(1)
}

// The loop or choice that an end ends, and that a next arm belongs to.
pub fn opener_at(rows: &Rows, number: usize) -> usize
    ensures { result ≡ opener_at rows.now number }
{
    usize::from(enclosing_number_at(rows, number)).saturating_sub(1) % MAX_RECORDS
}

// The frame of a loop or choice: one for each record open around it.
pub fn frame_at(rows: &Rows, number: usize) -> usize
    ensures { result ≡ frame_at rows.now number }
{
    usize::from(rows[row_from(number) + DEPTH] / NUMBERS) % MAX_OPEN
}

// How many loops are open around a record.
pub fn depth_at(rows: &Rows, number: usize) -> usize
    ensures { result ≡ depth_at rows.now number }
{
    usize::from(rows[row_from(number) + DEPTH] / (NUMBERS * FRAMES)).min(MAX_DEPTH)
}

// How many loops stand before a record.
pub fn loops_before_at(rows: &Rows, number: usize) -> usize
    ensures { result ≡ loops_before_at rows.now number }
{
    usize::from(rows[row_from(number) + DEPTH] % NUMBERS)
}

// The number of a loop among the loops.
pub fn loop_at(rows: &Rows, number: usize) -> usize
    ensures { result ≡ loop_at rows.now number }
{
    loops_before_at(rows, number) % MAX_LOOPS
}

// The offset at the width of a row.
pub fn place_at(rows: &Rows, number: usize) -> u16
    ensures { result ≡ offset_at rows.now number }
{
    rows[row_from(number) + PLACE] % OFFSETS
}

pub fn offset_at(rows: &Rows, number: usize) -> usize
    ensures { result ≡ offset_at rows.now number }
{
    usize::from(place_at(rows, number))
}
