// What the parameters make of each loop of a sheet: the walk over the records.
#![tactic(auto)]

mod forms;

ghost use Rattle.std.specs.Prelude.{◌≡◌, cond, ◌<◌, ◌^◌, ltb, length, Some, None};
ghost use Rattle.meaning.specs.Limits.{ceiling_limit};
ghost use Rattle.form.specs.Forms.{wide_form};
ghost use Rattle.layout.specs.Numbers.{stored_in};
ghost use Rattle.sheet.specs.Sheets.{records_of};
ghost use Rattle.nest.specs.Rows.{rows_of};
ghost use Rattle.loops.specs.Facts.{within_ceiling, words_stored, facts_stored, sheet_facts, over_ceiling, place_in};
ghost use Rattle.loops.specs.Reckoned.{ceiling_within, fact_within, FourSmall};
ghost use Rattle.nest.specs.Known.{RowsHeld};

use crate::forms::{
    Around, Barred, Forms, around_with, barred_by, forms_at, loop_words, pushes_with, reach,
};
use encoding::number::byte_at;
use form::{MAX_DEPTH, Parameters, PerLoop};
use layout::PlanArrays;
use layout::differences::put_difference;
use layout::facts::{Fact, put_fact};
use layout::rows::{Role, loop_at, offset_at, role_at};
use records::loops::Loop;
use sheet::nesting::Nesting;

// What is known of a loop; nothing where its ceiling is above the limit.
fn fact_of(forms: Forms, barred: Barred, around: Around) -> Option<Fact>
    requires { (0 < forms.size) × ((barred.choice < 2 ^ 16) × (barred.rank < 2 ^ 16)) }
    ensures { result ≡ cond (ltb ceiling_limit (ceiling_within (wide_form forms.difference) forms.size around)) None
        (Some (fact_within (wide_form forms.difference) forms.size forms.asked barred around)) }
{
    let found = reach(forms.difference, forms.size, forms.asked, around);
    if Loop::MAX_CEILING < found.ceiling {
        return None;
    }
    Some(Fact {
        ceiling: found.ceiling as u16,
        choice: barred.choice as u16,
        rank: barred.rank as u16,
        enough: found.enough,
    })
}

// What the parameters make of the loops; answers the offset of the first record that is a loop whose ceiling is above the limit. What comes from that
// record on is not stored.
pub fn survey(
    sheet: &[u8],
    count: usize,
    parameters: Parameters,
    arrays: &mut PlanArrays,
) -> Option<usize>
    requires { (count ≡ length (records_of sheet.now)) × (RowsHeld arrays.old.rows (records_of sheet.now) × FourSmall parameters) }
    ensures over { place_in result ≡ over_ceiling (rows_of (records_of sheet.now)) (sheet_facts parameters (records_of sheet.now)) }
    ensures differences { arrays.new.differences
        ≡ stored_in arrays.old.differences (words_stored (within_ceiling (sheet_facts parameters (records_of sheet.now)))) }
    ensures facts { arrays.new.facts
        ≡ stored_in arrays.old.facts (facts_stored (within_ceiling (sheet_facts parameters (records_of sheet.now)))) }
    ensures others { (arrays.new.rows ≡ arrays.old.rows) × (arrays.new.limits ≡ arrays.old.limits) }
{
    let none: PerLoop = [0; MAX_DEPTH];
    let mut around = Around {
        lo: none,
        hi: none,
        starts: none,
    };
    // Stays beside `around`, since `reach` and `around_with` read the one alone, and `pushes_with` the other.
    let mut pushes: [PerLoop; MAX_DEPTH] = [none; MAX_DEPTH];
    let mut here = Nesting::nothing();
    for number in 0..count {
        let at = offset_at(&arrays.rows, number);
        let outside = here;
        here = outside.after(byte_at(sheet, at));
        if role_at(&arrays.rows, number) != Role::Loop {
            continue;
        }
        let forms = forms_at(sheet, at, parameters);
        let Some(fact) = fact_of(forms, barred_by(outside), around) else {
            return Some(at);
        };
        let of_loop = loop_at(&arrays.rows, number);
        let words = loop_words(
            forms.difference,
            forms.size,
            outside.depth,
            around.starts,
            pushes,
        );
        put_difference(&mut arrays.differences, of_loop, words);
        put_fact(&mut arrays.facts, of_loop, fact);
        // Stays with two names: tried as `around = around_with(.., around)`, which is not proved, since the result is laid over the argument.
        let inside = around_with(forms, outside.depth, around);
        let deeper = pushes_with(forms, outside.depth, pushes);
        around = inside;
        pushes = deeper;
    }
    None
}
