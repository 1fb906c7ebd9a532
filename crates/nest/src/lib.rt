// The rows of a plan: what the reader says of each record.
#![tactic(auto)]

ghost use Rattle.std.specs.Prelude.{◌≡◌, List, ℕ, ◌+◌, ◌^◌, ◌<◌, length, get_or, drop};
ghost use Rattle.meaning.specs.Record.{end_record};
ghost use Rattle.records.specs.View.{meant};
ghost use Rattle.layout.specs.Numbers.{stored_in};
ghost use Rattle.sheet.specs.Sheets.{records_of};
ghost use Rattle.nest.specs.Rows.{Position, row_at, rows_stored};
ghost use Rattle.nest.specs.Known.{RecordAt, RecordBefore, AtPosition};
ghost use Rattle.nest.specs.Roles.{role_by, cost_by, skip_cost_by, opens, open_after_role, end_of_role, loops_after_role, enclosing_after_role};

use encoding::number::{byte_at, unsigned16_at};
use layout::narrow;
use layout::rows::{Role, Row, Rows, enclosing_number_at, put_row};
use records::loops::Loop;
use records::{Kind, body_length};
use sheet::head::body_at;
use sheet::nesting::Nesting;

// The role of a kind's records; what is no kind counts as straight.
#[tactic(auto, unfolding(crate::specs::Roles::role_by, layout::specs::Rows::role_of_kind))]
fn role_of(kind: Option<Kind>) -> Role
    ensures { result ≡ role_by (meant kind) }
{
    match kind {
        Some(Kind::Loop | Kind::SkipLoop) => Role::Loop,
        Some(Kind::End) => Role::End,
        Some(Kind::Choice) => Role::Choice,
        Some(Kind::NextArm) => Role::NextArm,
        Some(Kind::Work) | None => Role::Straight,
    }
}

// The cost at an offset of a record's body; only works and loops have costs.
#[tactic(auto, unfolding(crate::specs::Roles::cost_by))]
fn cost(kind: Option<Kind>, body: &[u8], at: usize) -> u16
    ensures { result ≡ cost_by (meant kind) body.now at }
{
    match kind {
        Some(Kind::Work | Kind::Loop | Kind::SkipLoop) => unsigned16_at(body, at),
        Some(Kind::End | Kind::Choice | Kind::NextArm) | None => 0,
    }
}

// What a loop costs where it makes no trip; 0 of another record.
#[tactic(auto, unfolding(crate::specs::Roles::skip_cost_by))]
fn skip_cost(kind: Option<Kind>, body: &[u8]) -> u16
    ensures { result ≡ skip_cost_by (meant kind) body.now }
{
    match kind {
        Some(Kind::Loop) => Loop::skip_cycles(body, false),
        Some(Kind::SkipLoop) => Loop::skip_cycles(body, true),
        Some(Kind::Work | Kind::End | Kind::Choice | Kind::NextArm) | None => 0,
    }
}

// Whether a record with this role opens something.
fn opens(role: Role) -> bool
    ensures { result ≡ opens role }
{
    matches!(role, Role::Loop | Role::Choice)
}

// How many records are open after one with this role, after so many before it.
#[tactic(auto, unfolding(crate::specs::Roles::open_after_role))]
fn open_after(role: Role, opened: usize) -> usize
    requires { opened < 2 ^ 16 }
    ensures { result ≡ open_after_role role opened }
{
    match role {
        Role::Loop | Role::Choice => opened + 1,
        Role::End => opened.saturating_sub(1),
        Role::Straight | Role::NextArm | Role::Unknown => opened,
    }
}

// The number of the end of a loop or choice; 0 of another record: no Option, since the row holds that 0. The record after it stands at `next`.
fn end_of(sheet: &[u8], count: usize, number: usize, next: usize, role: Role) -> usize
    requires { RecordBefore sheet.now count number next }
    ensures { result ≡ end_of_role role number (drop (number + 1) (records_of sheet.now)) }
{
    if !opens(role) {
        return 0;
    }
    let mut opened: usize = 1;
    let mut here = next;
    for i in number + 1..count {
        let kind = byte_at(sheet, here);
        opened = open_after(role_of(Kind::of(kind)), opened);
        if opened == 0 {
            return i;
        }
        here += 1 + body_length(kind);
    }
    count
}

// Where a record stands: its offset, how many loops stand before it, the number of the record around it plus 1, as its row has
// it, and what is open there.
#[derive(Clone, Copy)]
struct Place {
    at: usize,
    loops: u16,
    enclosing: u16,
    here: Nesting,
}

// The row of the record with this number, which stands there.
fn row_of(sheet: &[u8], count: usize, number: usize, place: Place) -> Row
    requires { RecordAt sheet.now count number place.at }
    ensures { (p : Position) → AtPosition p number place.at place.loops place.enclosing place.here → result ≡ row_at p (get_or (records_of sheet.now) number end_record) (drop (number + 1) (records_of sheet.now)) }
{
    let kind = Kind::of(byte_at(sheet, place.at));
    let body = body_at(sheet, place.at);
    let first = cost(kind, body, 0);
    let second = cost(kind, body, 2);
    let skip = skip_cost(kind, body);
    let role = role_of(kind);
    let end = end_of(sheet, count, number, place.at + (1 + body.len()), role);
    Row {
        role: role.number(),
        first,
        second,
        end: narrow(end),
        enclosing: place.enclosing,
        frame: narrow(place.here.size),
        depth: narrow(place.here.depth),
        loops: place.loops,
        offset: narrow(place.at),
        skip,
    }
}

// The innermost open record's number plus 1 after a record; an end goes back to what the row of its opener has.
#[tactic(auto, unfolding(crate::specs::Roles::enclosing_after_role))]
fn enclosing_after(rows: &Rows, role: Role, number: usize, enclosing: u16) -> u16
    requires { number < 2 ^ 15 }
    ensures { result ≡ enclosing_after_role rows.now role number enclosing }
{
    match role {
        Role::Loop | Role::Choice => narrow(number + 1),
        Role::End if enclosing == 0 => 0,
        Role::End => enclosing_number_at(rows, usize::from(enclosing - 1)),
        Role::Straight | Role::NextArm | Role::Unknown => enclosing,
    }
}

// How many loops there are after a record.
#[tactic(auto, unfolding(crate::specs::Roles::loops_after_role))]
fn loops_after(role: Role, loops: u16) -> u16
    requires { loops < 2 ^ 15 }
    ensures { result ≡ loops_after_role role loops }
{
    match role {
        Role::Loop => loops + 1,
        Role::Straight | Role::End | Role::Choice | Role::NextArm | Role::Unknown => loops,
    }
}

// Stores the rows of all records. Sheet and count stay two arguments, here, in `loops::survey` and in the converter, since a struct of both would be made for
// each of these calls and taken apart in it.
pub fn lay_rows(sheet: &[u8], count: usize, rows: &mut Rows)
    requires { count ≡ length (records_of sheet.now) }
    ensures { rows.new ≡ stored_in rows.old (rows_stored (records_of sheet.now)) }
{
    let mut place = Place {
        at: 0,
        loops: 0,
        enclosing: 0,
        here: Nesting::nothing(),
    };
    for number in 0..count {
        let kind = byte_at(sheet, place.at);
        let role = role_of(Kind::of(kind));
        let row = row_of(sheet, count, number, place);
        put_row(rows, number, row);
        place.enclosing = enclosing_after(rows, role, number, place.enclosing);
        place.loops = loops_after(role, place.loops);
        place.here = place.here.after(kind);
        place.at += 1 + body_length(kind);
    }
}
