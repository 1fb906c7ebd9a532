// Whether the choices that stand directly in a loop's body are settled, by a walk over the rows.
ghost use Rattle.std.specs.Prelude.{◌≡◌, ◌<◌};
ghost use Rattle.meaning.specs.Limits.{record_limit};
ghost use Rattle.ranking.specs.Body.{next_in_body, arms_at, settled_at};

use crate::{KeptArms, settled_choice};
use layout::rows::{Role, Rows, end_at, role_at};

// The record that follows record i in the same body: what follows its end for a loop or a choice. It is a later one, whatever the rows hold.
fn next_in_body(rows: &Rows, i: usize) -> usize
    requires { i < record_limit }
    ensures { result ≡ next_in_body rows.now i }
{
    match role_at(rows, i) {
        Role::Loop | Role::Choice => i.max(end_at(rows, i)) + 1,
        _ => i + 1,
    }
}

// How many arms a choice has: one, and one for each next arm that stands directly in it.
fn arms_at(rows: &Rows, choice: usize) -> usize
    requires { choice < record_limit }
    ensures { result ≡ arms_at rows.now choice }
{
    let end = end_at(rows, choice);
    let mut arms: usize = 1;
    let mut i = choice + 1;
    // Stays a `while`, since the number goes on to the next record of the body, not by one.
    while i < end {
        if role_at(rows, i) == Role::NextArm {
            arms += 1;
        }
        i = next_in_body(rows, i);
    }
    arms
}

// Whether every choice is settled that stands directly in the body of the loop that is record `opener`, from the arms that are kept.
pub fn settled(rows: &Rows, opener: usize, kept: KeptArms) -> bool
    ensures { result ≡ settled_at rows.now opener kept.entry.arms.now kept.entry.trips kept.entry.per_trip }
{
    let end = end_at(rows, opener);
    if end <= opener {
        return true;
    }
    let mut first: usize = 0;
    let mut i = opener + 1;
    // Stays a `while`, as above.
    while i < end {
        if role_at(rows, i) == Role::Choice {
            let own = arms_at(rows, i);
            if !settled_choice(kept, first, own) {
                return false;
            }
            first += own;
        }
        i = next_in_body(rows, i);
    }
    true
}
