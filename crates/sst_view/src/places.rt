// Runs and views of an image, called by place.
ghost use Rattle.std.specs.Prelude.{◌≤◌, T, length, drop};
ghost use Rattle.records.specs.Form.{read_many};
ghost use Rattle.records.specs.Found.{is_got, values_of};
ghost use Rattle.records.specs.Layouts.{run, image};
ghost use Rattle.records.specs.There.{Past};
ghost use Rattle.db_state.specs.Places.{at, placed, view_at, view_given};
ghost use Rattle.db_state.specs.LookupCalls.{views_at};
ghost use Rattle.sst_view.specs.Spans.{ViewPlaced};
ghost use Rattle.sst_view.specs.Runs.{RunInside, views_of, RunCalled};

use manifest::Judged;
use records::{RunSpan, ViewRead};

// The place past n runs that are there. The walk of `records::views_end`, over runs: one for both would take the step as a
// closure, with a `requires` for each place it comes to, and is no plainer.
fn runs_end(s: &[u8], from: usize, n: usize) -> usize
    requires fact_1 { from ≤ length s.now }
    requires fact_2 { T (is_got (read_many run.read n (drop from s.now))) }
    ensures { Past s.now (read_many run.read n (drop from s.now)) result }
{
    let mut at = from;
    for _ in 0..n {
        let r = records::run_there(s, at);
        at = records::views_end(s, r.first, r.views);
    }
    at
}

// A run of an image, or the number of the stop.
#[derive(Clone, Copy)]
pub enum RunPlaced {
    At(RunSpan),
    Stop(u8),
}

// The run at a place of an image that is there.
pub fn run_in_image(s: &[u8], place: usize) -> RunPlaced
    requires { T (is_got (image.read s.now)) }
    ensures { RunCalled s.now (views_at (values_of (image.read s.now)) place) result }
{
    if records::runs_there(s, 0) <= place {
        return RunPlaced::Stop(9);
    }
    RunPlaced::At(records::run_there(s, runs_end(s, 1, place)))
}

// The view at a place of a run.
#[tactic(auto, using(crate::proofs::PlaceExits::in_run_exits))]
fn view_in_run(s: &[u8], r: RunSpan, place: usize) -> ViewRead
    requires { RunInside s.now r }
    ensures { ViewPlaced s.now (placed (at (views_of s.now r) place)) result }
{
    if r.views <= place {
        return ViewRead::Stop(9);
    }
    ViewRead::At(records::view_there(s, records::views_end(s, r.first, place)))
}

// The view at places of an image that is there.
#[tactic(auto, using(crate::proofs::PlaceExits::view_exits))]
pub fn view_in_image(s: &[u8], run_place: usize, place: usize) -> ViewRead
    requires { T (is_got (image.read s.now)) }
    ensures { ViewPlaced s.now (view_at (values_of (image.read s.now)) run_place place) result }
{
    match run_in_image(s, run_place) {
        RunPlaced::Stop(k) => ViewRead::Stop(k),
        RunPlaced::At(r) => view_in_run(s, r, place),
    }
}

// The view at places of an image that is the whole of a buffer.
#[tactic(auto, using(crate::proofs::PlaceExits::given_exits))]
pub fn view_given(s: &[u8], run_place: usize, place: usize) -> ViewRead
    ensures { ViewPlaced s.now (view_given s.now run_place place) result }
{
    match manifest::image_judged(s) {
        Judged::Stop(k) => ViewRead::Stop(k),
        Judged::At { next: _, fault } => {
            if fault < 8 {
                return ViewRead::Stop(fault);
            }
            view_in_image(s, run_place, place)
        }
    }
}
