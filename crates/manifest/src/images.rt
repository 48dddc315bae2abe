// An image read whole, with the first of the checks 4 to 7 that fails, in one pass.
ghost use Rattle.std.specs.Prelude.{◌≡◌, not, ◌≤◌, length, drop};
ghost use Rattle.records.specs.Form.{read_many};
ghost use Rattle.records.specs.Layouts.{view, run, image};
ghost use Rattle.format.specs.Whole.{whole};
ghost use Rattle.manifest.specs.Checks.{image_checks, has};
ghost use Rattle.manifest.specs.Faults.{fault_of, ordered, views_checks};
ghost use Rattle.manifest.specs.Spans.{JudgedInside, JudgedFound, faults, JudgedWhole, ended_by};

use crate::checks::{order_fault, view_fault};
use crate::ranges::{effective_end, effective_start};
use comparable_range::Kind;
use format::BoundSpan;
use format::span::RangeSpan;
use records::{CountRead, RunRead, ViewRead};

// The place past what was read, with the number of the first of the checks 4 to 7 that fails, or 8; or a stop.
#[derive(Clone, Copy)]
pub enum Judged {
    At { next: usize, fault: u8 },
    Stop(u8),
}

// As many views as n.
#[tactic(auto, using(crate::proofs::ImageExits::views_exits, crate::proofs::RangeExits::both_bounds))]
pub fn views_judged(s: &[u8], from: usize, n: usize) -> Judged
    requires { from ≤ length s.now }
    ensures { JudgedFound s.now (faults views_checks (read_many view.read n (drop from s.now))) result }
{
    let mut at = from;
    let mut fault: u8 = 8;
    let mut before = BoundSpan {
        kind: Kind::Unbounded,
        at: from,
        len: 0,
    };
    for _ in 0..n {
        match records::view_at(s, at) {
            ViewRead::Stop(k) => return Judged::Stop(k),
            ViewRead::At(v) => {
                let start = effective_start(s, v);
                let e = RangeSpan {
                    start,
                    end: effective_end(s, v),
                };
                fault = fault.min(view_fault(s, v, e).min(order_fault(s, before, start)));
                before = start;
                at = v.past;
            }
        }
    }
    Judged::At { next: at, fault }
}

// Check 6 of a run's id: 6 if it is among the ids before it, or 8.
#[tactic(auto, using(crate::proofs::ImageExits::shared_exits))]
fn shared_fault(ids: &[u64], id: u64) -> u8
    ensures { result ≡ fault_of (ordered (not (has id ids.now))) }
{
    if ids.contains(&id) { 6 } else { 8 }
}

// As many runs as n.
#[tactic(auto, using(crate::proofs::ImageExits::runs_exits))]
fn runs_judged(s: &[u8], from: usize, n: usize) -> Judged
    requires fact_1 { from ≤ length s.now }
    requires fact_2 { n ≤ 64 }
    ensures { JudgedFound s.now (faults image_checks (read_many run.read n (drop from s.now))) result }
{
    let mut ids = [0u64; 64];
    let mut at = from;
    let mut fault: u8 = 8;
    for seen in 0..n {
        match records::run_at(s, at) {
            RunRead::Stop(k) => return Judged::Stop(k),
            RunRead::At { id, views, next } => match views_judged(s, next, views) {
                Judged::Stop(k) => return Judged::Stop(k),
                Judged::At {
                    next: past,
                    fault: worst,
                } => {
                    fault = fault.min(worst.min(shared_fault(&ids[..seen], id)));
                    ids[seen] = id;
                    at = past;
                }
            },
        }
    }
    Judged::At { next: at, fault }
}

// What a reading from the front of a buffer says of the whole buffer: bytes that remain are stop 1.
#[tactic(auto, using(crate::proofs::WholeExits::ended_exits))]
pub fn ended(s: &[u8], r: Judged) -> Judged
    requires { JudgedInside s.now r }
    ensures { result ≡ ended_by (length s.now) r }
{
    match r {
        Judged::Stop(k) => Judged::Stop(k),
        Judged::At { next, fault } => {
            if !records::at_end(s, next) {
                return Judged::Stop(1);
            }
            Judged::At { next, fault }
        }
    }
}

// The image at the front of a buffer.
#[tactic(auto, using(crate::proofs::ImageExits::image_exits))]
fn image_front(s: &[u8]) -> Judged
    ensures { JudgedFound s.now (faults image_checks (image.read s.now)) result }
{
    match records::runs_at(s, 0) {
        CountRead::Stop(k) => Judged::Stop(k),
        CountRead::At(n, first) => runs_judged(s, first, n),
    }
}

// The image that is the whole of a buffer.
#[tactic(auto, using(crate::proofs::WholeExits::whole_exits))]
pub fn image_judged(s: &[u8]) -> Judged
    ensures { JudgedWhole s.now image_checks (whole image.read s.now) result }
{
    if 65536 < s.len() {
        return Judged::Stop(3);
    }
    ended(s, image_front(s))
}
