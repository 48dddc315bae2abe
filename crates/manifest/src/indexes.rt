// An index read whole, or one of several that lie end to end, with check 6: its first keys do not descend.
ghost use Rattle.std.specs.Prelude.{◌≤◌, length, drop};
ghost use Rattle.format.specs.Whole.{whole};
ghost use Rattle.records.specs.Form.{read_many};
ghost use Rattle.records.specs.Layouts.{block, index};
ghost use Rattle.manifest.specs.Checks.{index_checks};
ghost use Rattle.manifest.specs.Spans.{JudgedFound, faults, JudgedWhole};

use crate::checks::order_fault;
use crate::images::{Judged, ended};
use comparable_range::Kind;
use format::BoundSpan;
use records::BlockRead;

// As many blocks as n.
#[tactic(auto, using(crate::proofs::IndexExits::blocks_exits))]
fn blocks_judged(s: &[u8], from: usize, n: usize) -> Judged
    requires { from ≤ length s.now }
    ensures { JudgedFound s.now (faults index_checks (read_many block.read n (drop from s.now))) result }
{
    let mut at = from;
    let mut fault: u8 = 8;
    let mut before = BoundSpan {
        kind: Kind::Unbounded,
        at: from,
        len: 0,
    };
    for _ in 0..n {
        match records::block_at(s, at) {
            BlockRead::Stop(k) => return Judged::Stop(k),
            BlockRead::At {
                offset: _,
                start,
                len,
                next,
            } => {
                let first = BoundSpan {
                    kind: Kind::Included,
                    at: start,
                    len,
                };
                fault = fault.min(order_fault(s, before, first));
                before = first;
                at = next;
            }
        }
    }
    Judged::At { next: at, fault }
}

// The index at a place. Its count has no ceiling: the bytes that are there limit it.
#[tactic(auto, using(crate::proofs::IndexExits::index_exits))]
pub fn index_at(s: &[u8], at: usize) -> Judged
    requires { at ≤ length s.now }
    ensures { JudgedFound s.now (faults index_checks (index.read (drop at s.now))) result }
{
    if s.len() - at < 2 {
        return Judged::Stop(1);
    }
    let n = format::number_there(s, at, 2);
    blocks_judged(s, at + 2, n as usize)
}

// The index that is the whole of a buffer.
#[tactic(auto, using(crate::proofs::WholeExits::whole_exits))]
pub fn index_judged(s: &[u8]) -> Judged
    ensures { JudgedWhole s.now index_checks (whole index.read s.now) result }
{
    if 65536 < s.len() {
        return Judged::Stop(3);
    }
    ended(s, index_at(s, 0))
}
