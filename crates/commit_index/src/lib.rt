// The run index: an image read whole, as `manifest` reads it, with a table of its runs, in one pass.
#![tactic(auto)]

mod runs;
mod sources;

ghost use Rattle.std.specs.Prelude.{◌≡◌, not, ◌≤◌, ◌*◌, length, drop};
ghost use Rattle.records.specs.Form.{read_many};
ghost use Rattle.records.specs.Layouts.{run};
ghost use Rattle.manifest.specs.Checks.{has};
ghost use Rattle.manifest.specs.Faults.{fault_of, ordered};
ghost use Rattle.commit_index.specs.Index.{row_ids, RunPassed, RunsIndexed, ImageIndexed};

use manifest::{Judged, lesser};
use records::{CountRead, RunRead};
pub use runs::{IndexedRun, indexed_run};
use runs::{id_among, put_run};
pub use sources::sources_there;

// Check 6 of a run's id: 6 if it is among the first n runs', or 8.
fn shared_fault(index: &[usize], n: usize, id: u64) -> u8
    requires { n * 4 ≤ length index.now }
    ensures { result ≡ fault_of (ordered (not (has id (row_ids n index.now)))) }
{
    if id_among(index, n, id) { 6 } else { 8 }
}

// A run, with the number of the first of the checks 4 to 7 that its views fail, or 8; or a stop.
#[derive(Clone, Copy)]
pub enum RunJudged {
    At { run: IndexedRun, fault: u8 },
    Stop(u8),
}

// The run at a place.
fn run_judged(s: &[u8], at: usize) -> RunJudged
    requires { at ≤ length s.now }
    ensures { RunPassed s.now (run.read (drop at s.now)) result }
{
    match records::run_at(s, at) {
        RunRead::Stop(k) => RunJudged::Stop(k),
        RunRead::At { id, views, next } => match manifest::views_judged(s, next, views) {
            Judged::Stop(k) => RunJudged::Stop(k),
            Judged::At { next: past, fault } => RunJudged::At {
                run: IndexedRun {
                    id,
                    views,
                    first: next,
                    past,
                },
                fault,
            },
        },
    }
}

// As many runs as n, each put into a row of the table.
fn runs_indexed(s: &[u8], from: usize, n: usize, index: &mut [usize]) -> Judged
    requires fact_1 { from ≤ length s.now }
    requires fact_2 { n * 4 ≤ length index.old }
    ensures { RunsIndexed s.now (read_many run.read n (drop from s.now)) index.old index.new result }
{
    let mut at = from;
    let mut fault: u8 = 8;
    for seen in 0..n {
        match run_judged(s, at) {
            RunJudged::Stop(k) => return Judged::Stop(k),
            RunJudged::At { run, fault: worst } => {
                fault = lesser(fault, lesser(worst, shared_fault(index, seen, run.id)));
                at = run.past;
                put_run(index, seen, run);
            }
        }
    }
    Judged::At { next: at, fault }
}

// How many runs the image has, with the number of the first of the checks 4 to 7 that fails, or 8; or a stop.
#[derive(Clone, Copy)]
pub enum Indexed {
    At { runs: usize, fault: u8 },
    Stop(u8),
}

// The image that is the whole of a buffer of any length, and its runs in a table.
pub fn image_indexed(s: &[u8], index: &mut [usize]) -> Indexed
    requires { 256 ≤ length index.old }
    ensures { ImageIndexed s.now index.old index.new result }
{
    match records::runs_at(s, 0) {
        CountRead::Stop(k) => Indexed::Stop(k),
        CountRead::At(n, first) => match runs_indexed(s, first, n, index) {
            Judged::Stop(k) => Indexed::Stop(k),
            Judged::At { next, fault } => {
                if !records::at_end(s, next) {
                    return Indexed::Stop(1);
                }
                Indexed::At { runs: n, fault }
            }
        },
    }
}
