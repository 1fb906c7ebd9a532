// Runs the stored cases of the reader, the writer, the plan, the calls, the stage, the texts, the reasons' lines and the converters,
// and says how many there are and how many differ.
#![tactic(auto)]

mod calls;
mod compare;
mod conversions;
mod entries;
mod lines;
mod plans;
mod states;
mod texts;

use crate::compare::agrees;
use crate::entries::entries_length;
use cases::calls::Call;
use cases::headers::{Case, MOST_CASES, MOST_SHEET};
use std::fs::File;
use std::io;
use std::io::Read;
use std::rt::Files;
use text::TEXT_LENGTH;

// Cases met so far, and how many of them came out otherwise than reckoned.
#[derive(Default, Drop)]
struct Tally {
    readings: u64,
    writings: u64,
    plans: u64,
    figures: u64,
    stagings: u64,
    texts: u64,
    lines: u64,
    conversions: u64,
    differing: u64,
}

impl Tally {
    // What counts the cases of a call. One of no call that runs here counts as one of figures, and differs.
    fn met(&mut self, call: Option<Call>) -> &mut u64 {
        match call {
            Some(Call::Reader) => &mut self.readings,
            Some(Call::Writer) => &mut self.writings,
            Some(Call::Plan) => &mut self.plans,
            Some(Call::Stages) => &mut self.stagings,
            Some(Call::Text) => &mut self.texts,
            Some(Call::ReasonLine) => &mut self.lines,
            Some(Call::Converter(_)) => &mut self.conversions,
            Some(Call::Figures | Call::Range) | None => &mut self.figures,
        }
    }

    // One case more.
    fn count(&mut self, call: Option<Call>, agrees: bool) {
        let met = self.met(call);
        *met = met.wrapping_add(1);
        if !agrees {
            self.differing = self.differing.wrapping_add(1);
        }
    }
}

// Whether the case comes out as reckoned; nothing where the file ends within what follows its header, or where the sheet is longer than any case's, or what
// follows the sheet longer than the longest text: these two are tested before anything is read.
fn run_case<F: Read>(file: &mut F, case: Case) -> io::Result<Option<bool>> {
    let after = entries_length(case);
    if MOST_SHEET < case.sheet || TEXT_LENGTH < after {
        return Ok(None);
    }
    let mut space = [0; MOST_SHEET + TEXT_LENGTH];
    let body = case.body(file, &mut space, after)?;
    Ok(body.map(|(sheet, own)| agrees(case, sheet, own)))
}

// Every case of the file; the last differs where the file ends within what follows its header, or that is too long.
// Stays beside the same loop of `range_vectors`, as `run_case` and `main` do, since a public function of `cases` needs a contract, and none could tell this loop
// from one that runs no case.
fn run_all<F: Read>(file: &mut F, tally: &mut Tally) -> io::Result<()> {
    for _ in 0..MOST_CASES {
        let Some(case) = Case::read(file)? else {
            break;
        };
        let outcome = run_case(file, case)?;
        tally.count(case.call, outcome.unwrap_or(false));
        if outcome.is_none() {
            break;
        }
    }
    Ok(())
}

// The cases of a file; one that cannot be opened differs.
fn run_file(rt: &(impl Files + Eprint), path: &str, tally: &mut Tally) -> io::Result<()> {
    match File::open(rt, path) {
        Ok(mut file) => run_all(&mut file, tally),
        Err(e) => {
            eprintln!(rt; "{path}: {e}")?;
            tally.count(None, false);
            Ok(())
        }
    }
}

// A read or a write that fails ends the program with its error.
fn main(rt: HostRuntime) -> io::Result<()> {
    let mut tally = Tally::default();
    for path in [
        "sheets",
        "loops",
        "figures",
        "stages",
        "texts",
        "reasons",
        "converters",
    ] {
        run_file(&rt, path, &mut tally)?;
    }
    for (counted, number) in [
        ("sheets read", tally.readings),
        ("sheets written", tally.writings),
        ("plans made", tally.plans),
        ("figures answered", tally.figures),
        ("sheets gone through stage by stage", tally.stagings),
        ("texts stored", tally.texts),
        ("lines read back", tally.lines),
        ("sheets converted", tally.conversions),
        ("otherwise than reckoned", tally.differing),
    ] {
        println!(&rt; "{counted}: {number}")?;
    }
    Ok(())
}
