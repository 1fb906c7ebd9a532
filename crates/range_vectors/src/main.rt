// Runs the stored cases of the calls over a range, and says how many there are and how many differ.
#![tactic(auto)]

mod range_calls;

use crate::range_calls::{RANGE, range_agrees};
use cases::calls::Call;
use cases::headers::{Case, MOST_CASES, MOST_SHEET};
use std::fs::File;
use std::io;
use std::io::Read;

// Cases met so far, and how many of them came out otherwise than reckoned.
#[derive(Default, Drop)]
struct Tally {
    ranges: u64,
    differing: u64,
}

impl Tally {
    // One case more. Only calls over a range are to be here: another counts as no range, and differs.
    fn count(&mut self, call: Option<Call>, agrees: bool) {
        if call == Some(Call::Range) {
            self.ranges = self.ranges.wrapping_add(1);
        }
        if !agrees {
            self.differing = self.differing.wrapping_add(1);
        }
    }
}

// Whether the case comes out as reckoned; nothing where the file ends within what follows its header.
fn run_case<F: Read>(file: &mut F, case: Case) -> io::Result<Option<bool>> {
    let mut space = [0; MOST_SHEET + RANGE];
    let body = case.body(file, &mut space, RANGE)?;
    let is_range = case.call == Some(Call::Range);
    Ok(body.map(|(sheet, own)| is_range && range_agrees(case, sheet, own)))
}

// Every case of the file; the last differs where the file ends within what follows its header.
// Stays beside the same loop of `vectors`, as `run_case` and `main` do, since a public function of `cases` needs a contract, and none could tell this loop
// from one that runs no case.
fn run_all<F: Read>(file: &mut F, tally: &mut Tally) -> io::Result<()> {
    for _ in 0..MOST_CASES {
        let Some(case) = Case::read(file)? else {
            break;
        };
        let outcome = run_case(file, case)?;
        tally.count(case.call, outcome.unwrap_or(false));
        if outcome.is_none() {
            break;
        }
    }
    Ok(())
}

// A file that cannot be opened differs. A read or a write that fails ends the program with its error.
fn main(rt: HostRuntime) -> io::Result<()> {
    let mut tally = Tally::default();
    match File::open(&rt, "ranges") {
        Ok(mut file) => run_all(&mut file, &mut tally)?,
        Err(e) => {
            eprintln!(&rt; "ranges: {e}")?;
            tally.count(None, false);
        }
    }
    println!(&rt; "ranges answered: {}", tally.ranges)?;
    println!(&rt; "otherwise than reckoned: {}", tally.differing)
}
