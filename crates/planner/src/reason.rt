// Why a loop of a plan is not closed: the first test for closing that fails, in document 02's order.
ghost use Rattle.std.specs.Prelude.{◌≡◌, ◌&&◌, List, ℤ, ℕ, ◌<◌, eqb};
ghost use Rattle.meaning.specs.Limits.{record_limit};
ghost use Rattle.meaning.specs.Reason.{first_failing, reason_of};
ghost use Rattle.meaning.specs.Record.{Loop, Record, sheet_length};
ghost use Rattle.meaning.specs.Tree.{tree};
ghost use Rattle.loops.specs.Enclosing.{loops_around};
ghost use Rattle.reasons.specs.View.{found_in};
ghost use Rattle.layout.specs.Rows.{role_number, choice_role, loop_role, role_at, depth_at};
ghost use Rattle.planner.specs.Known.{LoopAmong};
ghost use Rattle.planner.specs.Reasons.{loop_around, holds_loop_at, choice_tests_inside, loop_tests_inside, reason_at};

use crate::closing::{MAX_AROUND, uneven_in};
use layout::PlanArrays;
use layout::facts::enough_at;
use layout::rows::{Role, Rows, depth_at, end_at, loop_at, loops_before_at, place_at, role_at};
use reasons::Reason;
use records::MAX_RECORDS;

// Whether a record is a choice that has a loop in an arm, directly or deeper.
fn holds_loop(rows: &Rows, number: usize) -> bool
    ensures { result ≡ eqb (role_at rows.now number) (role_number choice_role) && holds_loop_at rows.now number }
{
    role_at(rows, number) == Role::Choice
        && loops_before_at(rows, number) < loops_before_at(rows, end_at(rows, number))
}

// The first choice inside a loop that holds a loop: of nested ones the outer.
fn first_choice(rows: &Rows, number: usize) -> Option<Reason>
    requires { number < record_limit }
    ensures { found_in result ≡ first_failing (choice_tests_inside rows.now number) }
{
    (number + 1..end_at(rows, number))
        .find(|i| holds_loop(rows, *i))
        .map(|i| Reason::HoldsLoop(place_at(rows, i)))
}

// Whether a record is a loop with m loops around it.
fn is_loop_with(rows: &Rows, number: usize, m: usize) -> bool
    ensures { result ≡ eqb (role_at rows.now number) (role_number loop_role) && eqb (depth_at rows.now number) m }
{
    role_at(rows, number) == Role::Loop && depth_at(rows, number) == m
}

// Of the loops that a record stands in, the one with m loops around it: the last such loop before the record, so they are gone through backward, up to the
// first that is found. Stays a number, 0 where there is none, since an Option would only be unwrapped at the one call, where there is such a loop; and a `for`
// over how far back, since the library has no law of `rev` over a range.
fn loop_around(rows: &Rows, number: usize, m: usize) -> usize
    ensures { result ≡ loop_around rows.now m number }
{
    for back in 0..number {
        let i = number - 1 - back;
        if is_loop_with(rows, i, m) {
            return i;
        }
    }
    0
}

// The first loop K inside a loop that fails a test, in sheet order: for each K too few trips before uneven, and M from the outermost inward. The search
// is left at the first pair that fails, with the reason found.
fn first_loop(arrays: &PlanArrays, number: usize) -> Option<Reason>
    requires { number < record_limit }
    ensures { found_in result ≡ first_failing (loop_tests_inside arrays.now.rows arrays.now.differences arrays.now.facts number) }
{
    let rows = &arrays.rows;
    let depth = depth_at(rows, number);
    for k in number + 1..end_at(rows, number) {
        if role_at(rows, k) != Role::Loop {
            continue;
        }
        let of_k = loop_at(rows, k);
        if !enough_at(&arrays.facts, of_k) {
            return Some(Reason::TooFewTrips(place_at(rows, k)));
        }
        let last = depth_at(rows, k).min(MAX_AROUND);
        for m in depth..last {
            if uneven_in(&arrays.differences, of_k, m) {
                let outer = loop_around(rows, k, m);
                return Some(Reason::UnevenIn(place_at(rows, k), place_at(rows, outer)));
            }
        }
    }
    None
}

// Why the loop with this record number is not closed; nothing of a closed one.
pub fn reason_of(arrays: &PlanArrays, number: usize) -> Option<Reason>
    ensures found { found_in result ≡ reason_at arrays.now.rows arrays.now.differences arrays.now.facts number }
    ensures reason { (sheet : List ℕ) (parameters : List ℤ) (xs : List Record) (l : Loop) (ys : List Record) →
        LoopAmong sheet parameters arrays.now.rows arrays.now.differences arrays.now.facts number xs l ys →
        found_in result ≡ reason_of parameters l (tree ys) (loops_around parameters xs).ranges (sheet_length xs) }
{
    let n = number % MAX_RECORDS;
    first_choice(&arrays.rows, n).or_else(|| first_loop(arrays, n))
}
