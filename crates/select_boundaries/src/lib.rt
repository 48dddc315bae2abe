// `select_boundaries` of subcompaction.rs: anchors that are the whole of a buffer are read into tables in one pass, and ranges made of them.
#![tactic(auto)]

ghost use Rattle.std.specs.Prelude.{◌≡◌, ◌≤◌, length, drop};
ghost use Rattle.base.specs.Outcome.{reported, lent};
ghost use Rattle.records.specs.Form.{read_many};
ghost use Rattle.records.specs.Layouts.{anchor};
ghost use Rattle.select_boundaries.specs.AnchorsFound.{AnchorsFound, anchors_ending, selected_from};
ghost use Rattle.subcompaction.specs.PlanCalls.{select_boundaries_outcome};

use base::Written;
use planned::{Asked, planned};
use records::{AnchorRead, CountRead};

// 2^63: a total of so many bytes is refused.
const TOO_MANY_BYTES: u64 = 9223372036854775808;

// The total of the anchors' bytes, or 2^63 if that is less, and the place past them; or a stop.
#[derive(Clone, Copy)]
pub enum AnchorsRead {
    At { total: u64, next: usize },
    Stop(u8),
}

// As many parts at most, and as many bytes a range at least.
#[derive(Clone, Copy)]
pub struct Settings {
    pub parts: usize,
    pub least: u64,
}

// As many anchors as n from a place on: where the key of each stands, and its bytes, in a row of the tables.
#[tactic(auto, using(crate::proofs::AnchorExits::tabling_exits))]
fn anchors_read(
    s: &[u8],
    n: usize,
    from: usize,
    keys: &mut [usize],
    bytes: &mut [u64],
) -> AnchorsRead
    requires fact_1 { from ≤ length s.now }
    requires fact_2 { n ≤ length keys.old }
    requires fact_3 { n ≤ length bytes.old }
    ensures { AnchorsFound s.now keys.new bytes.new n (read_many anchor.read n (drop from s.now)) result }
{
    let mut at = from;
    let mut total: u64 = 0;
    for row in 0..n {
        match records::anchor_at(s, at) {
            AnchorRead::Stop(k) => return AnchorsRead::Stop(k),
            AnchorRead::At {
                bytes: size,
                next,
                ..
            } => {
                keys[row] = at;
                bytes[row] = size;
                total = manifest::added(total, size);
                at = next;
            }
        }
    }
    AnchorsRead::At { total, next: at }
}

// The plan by n anchors that stand from a place on and end the buffer. They are at most N: the tables that they are read into have
// a row for each.
#[tactic(auto, using(crate::proofs::SelectExits::selected_exits))]
fn selected<const N: usize>(
    s: &[u8],
    n: usize,
    from: usize,
    set: Settings,
    out: &mut [u8],
) -> Written
    requires from_in_bounds { from ≤ length s.now }
    requires n_bound_1 { n ≤ N }
    requires n_bound_2 { N ≤ 4096 }
    requires parts_bound { set.parts ≤ 64 }
    ensures value { result ≡ reported (selected_from set.parts set.least (anchors_ending s.now n from) (length out.old)) }
    ensures out_after { out.new ≡ lent out.old (selected_from set.parts set.least (anchors_ending s.now n from) (length out.old)) }
{
    let mut keys = [0usize; N];
    let mut bytes = [0u64; N];
    match anchors_read(s, n, from, &mut keys, &mut bytes) {
        AnchorsRead::Stop(k) => Written::Stop(k),
        AnchorsRead::At { total, next } => {
            if next < s.len() {
                return Written::Stop(1);
            }
            if total < TOO_MANY_BYTES {
                let ask = Asked {
                    parts: set.parts,
                    least: set.least,
                    total,
                };
                return planned::<N>(s, &keys, &bytes, n, ask, out);
            }
            Written::Stop(7)
        }
    }
}

// Ranges that split all keys into at most so many parts, by anchors: of about as many bytes each, and of no fewer than the least.
#[tactic(auto, using(crate::proofs::SelectExits::select_exits))]
pub fn select_boundaries(parts: usize, least: u64, anchors: &[u8], out: &mut [u8]) -> Written
    ensures value { result ≡ reported (select_boundaries_outcome parts least anchors.now (length out.old)) }
    ensures out_after { out.new ≡ lent out.old (select_boundaries_outcome parts least anchors.now (length out.old)) }
{
    if 64 < parts || 65536 < anchors.len() {
        return Written::Stop(3);
    }
    let set = Settings { parts, least };
    match records::count_at(anchors, 0, 2, 4096) {
        CountRead::Stop(k) => Written::Stop(k),
        // Few anchors get short tables: a small call does not pay for clearing long ones.
        CountRead::At(n, first) if n <= 64 => selected::<64>(anchors, n, first, set, out),
        CountRead::At(n, first) => selected::<4096>(anchors, n, first, set, out),
    }
}
