// How long the listing is.
ghost use Rattle.std.specs.Prelude.{◌≡◌, ◌≤◌, ◌+◌, T, length, drop};
ghost use Rattle.format.specs.Range.{BoundInside, bound_in};
ghost use Rattle.records.specs.Form.{read_many};
ghost use Rattle.records.specs.Found.{is_got, values_of};
ghost use Rattle.records.specs.Layouts.{view, run, image};
ghost use Rattle.records.specs.Spans.{view_in, ViewInside};
ghost use Rattle.listing.specs.Listing.{start_text, end_text, line, lines, run_lines, listing};
ghost use Rattle.listing.specs.Spans.{ReachedPast};

use crate::Reached;
use comparable_range::Kind;
use format::BoundSpan;
use format::span::RangeSpan;
use records::ViewSpan;

// How long the text of a bound is, the same at a start and at an end: a dash, or a bracket and two digits for each byte of the key.
#[tactic(auto, using(crate::proofs::Lengths::bound_exits))]
fn bound_len(s: &[u8], b: BoundSpan) -> usize
    requires fact_1 { length s.now ≤ 65536 }
    requires fact_2 { BoundInside s.now b }
    ensures start { result ≡ length (start_text (bound_in s.now b)) }
    ensures end { result ≡ length (end_text (bound_in s.now b)) }
{
    match b.kind {
        Kind::Unbounded => 1,
        Kind::Included | Kind::Excluded => 1 + 2 * b.len,
    }
}

// The line of a view: two numbers, an id of 16 bytes, two bounds, and five bytes after them.
#[tactic(auto, using(crate::proofs::Lengths::line_exits))]
fn line_len(s: &[u8], v: ViewSpan, id: u64, place: usize) -> usize
    requires fact_1 { length s.now ≤ 65536 }
    requires fact_2 { ViewInside s.now v }
    ensures { (result ≡ length (line id place (view_in s.now v))) × (result ≤ 262223) }
{
    let e = manifest::effective(s, v);
    text::decimal_len(id)
        + text::decimal_len(place as u64)
        + 37
        + bound_len(s, e.start)
        + bound_len(s, e.end)
}

// The lines of n views of a run.
fn views_len(s: &[u8], from: usize, n: usize, id: u64) -> Reached
    requires fact_1 { length s.now ≤ 65536 }
    requires fact_2 { from ≤ length s.now }
    requires fact_3 { n ≤ 1024 }
    requires fact_4 { T (is_got (read_many view.read n (drop from s.now))) }
    ensures reached_past { ReachedPast s.now (read_many view.read n (drop from s.now)) 0 (lines id 0 (values_of (read_many view.read n (drop from s.now)))) result }
    ensures to_bound { result.to ≤ 268516352 }
{
    let mut at = from;
    let mut to = 0;
    for place in 0..n {
        let v = records::view_there(s, at);
        to += line_len(s, v, id, place);
        at = v.past;
    }
    Reached { next: at, to }
}

// The lines of n runs.
fn runs_len(s: &[u8], from: usize, n: usize) -> usize
    requires fact_1 { length s.now ≤ 65536 }
    requires fact_2 { from ≤ length s.now }
    requires fact_3 { n ≤ 64 }
    requires fact_4 { T (is_got (read_many run.read n (drop from s.now))) }
    ensures value { result ≡ length (run_lines (values_of (read_many run.read n (drop from s.now)))) }
    ensures upper_bound { result ≤ 17185046528 }
{
    let mut at = from;
    let mut to = 0;
    for _ in 0..n {
        let run = records::run_there(s, at);
        let r = views_len(s, run.first, run.views, run.id);
        to += r.to;
        at = r.next;
    }
    to
}

// The listing of an image that is there.
#[tactic(auto, using(crate::proofs::WholeListing::listing_len_exits))]
pub fn listing_len(s: &[u8]) -> usize
    requires fact_1 { length s.now ≤ 65536 }
    requires fact_2 { T (is_got (image.read s.now)) }
    ensures { result ≡ length (listing (values_of (image.read s.now))) }
{
    25 + runs_len(s, 1, records::runs_there(s, 0))
}
