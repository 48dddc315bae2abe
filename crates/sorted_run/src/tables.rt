// The places of a run's views that cover the asked range.
ghost use Rattle.std.specs.Prelude.{◌≡◌, ◌≤◌, length};
ghost use Rattle.base.specs.Outcome.{answer};
ghost use Rattle.comparable_range.specs.Range.{end_holds};
ghost use Rattle.format.specs.Range.{BoundInside, bound_in};
ghost use Rattle.partitioned_keyspace.specs.Calls.{covered_of};
ghost use Rattle.db_state.specs.Lookup.{walk_back, table_idx_covering_range};
ghost use Rattle.sst_view.specs.Asked.{range_at};
ghost use Rattle.sst_view.specs.Runs.{RunInside, views_of, PlacesOf, one_more};
ghost use Rattle.sst_view.specs.Views.{key_at};
ghost use Rattle.sorted_run.specs.Found.{Sought, up_to_span, LeadsFound};

use crate::views::{effective_there, intersects_at};
use comparable_range::Kind;
use format::BoundSpan;
use format::span::RangeSpan;
use partitioned_keyspace::Covered;
use records::RunSpan;

// How many views, from the first on, start at or below the asked start's key, and how many within the asked end.
#[derive(Clone, Copy)]
pub struct Leads {
    pub start: usize,
    pub end: usize,
}

// The end within which a view starts at or below a start's key. No key is below the empty one, as none is below no start.
fn up_to(b: BoundSpan) -> BoundSpan
    ensures { result ≡ up_to_span b }
{
    match b.kind {
        Kind::Unbounded => BoundSpan {
            kind: Kind::Excluded,
            len: 0,
            ..b
        },
        Kind::Included | Kind::Excluded => BoundSpan {
            kind: Kind::Included,
            ..b
        },
    }
}

// How many starts lead that stand within an end, with one more after so many that were seen. It is compared only while all lead.
fn one_more(
    lead: usize,
    seen: usize,
    image: &[u8],
    start: BoundSpan,
    range: &[u8],
    end: BoundSpan,
) -> usize
    requires fact_1 { lead ≤ 1024 }
    requires fact_2 { BoundInside image.now start }
    requires fact_3 { BoundInside range.now end }
    ensures { result ≡ one_more (end_holds (bound_in range.now end) (key_at image.now start)) lead seen }
{
    if lead < seen {
        return lead;
    }
    let key = format::key_of(image, start);
    let last = format::key_of(range, end);
    if comparable_range::contains(Kind::Unbounded, key, end.kind, last, key) {
        lead + 1
    } else {
        lead
    }
}

// Where the views of a run stand, put into a table; and how many lead. A walk over views of its own, since it keeps four things
// at each step: as a closure for a shared walk the step is no plainer.
fn put_places(
    image: &[u8],
    r: RunSpan,
    range: &[u8],
    from: BoundSpan,
    to: BoundSpan,
    places: &mut [usize],
) -> Leads
    requires fact_1 { RunInside image.now r }
    requires fact_2 { BoundInside range.now from }
    requires fact_3 { BoundInside range.now to }
    requires fact_4 { 1024 ≤ length places.old }
    ensures { LeadsFound image.now r range.now from to places.new result }
{
    let mut at = r.first;
    let mut start = 0;
    let mut end = 0;
    for seen in 0..r.views {
        places[seen] = at;
        let v = effective_there(image, at);
        start = one_more(start, seen, image, v.range.start, range, from);
        end = one_more(end, seen, image, v.range.start, range, to);
        at = v.past;
    }
    Leads { start, end }
}

// Back from a place over the views before it that intersect the asked range.
fn walk_back<'a>(
    image: &'a [u8],
    r: RunSpan,
    places: &[usize],
    from: usize,
    range: &'a [u8],
    asked: RangeSpan,
) -> usize
    requires fact_1 { Sought image.now r range.now asked }
    requires fact_2 { PlacesOf image.now r places.now }
    requires fact_3 { from ≤ r.views }
    ensures { result ≡ walk_back (views_of image.now r) (range_at range.now asked) from }
{
    for idx in (0..from).rev() {
        if !intersects_at(image, r, places, idx, range, asked) {
            return idx + 1;
        }
    }
    0
}

// The places that cover the asked range. Of views that passed the checks, the last that starts within its end intersects it,
// so that one is not tested; and the candidate's test is the first of the walk back.
pub fn covered_in_run<'a>(image: &'a [u8], r: RunSpan, range: &'a [u8], asked: RangeSpan) -> Covered
    requires { Sought image.now r range.now asked }
    ensures { covered_of result ≡ answer (table_idx_covering_range (views_of image.now r) (range_at range.now asked)) }
{
    let mut places = [0usize; 1024];
    let n = put_places(image, r, range, up_to(asked.start), asked.end, &mut places);
    if n.end == 0 {
        return Covered::Places(0, 0);
    }
    Covered::Places(walk_back(image, r, &places, n.start, range, asked), n.end)
}
