// The listing, written into a lent buffer at a place. The caller has measured: what is put fits.
ghost use Rattle.std.specs.Prelude.{◌≡◌, ◌≤◌, ◌+◌, T, length, drop, ◌∷◌, ◌++◌, []};
ghost use Rattle.base.specs.Outcome.{over};
ghost use Rattle.base.specs.Splice.{splice};
ghost use Rattle.text.specs.Text.{decimal, hex};
ghost use Rattle.format.specs.Range.{BoundInside, bound_in, range_in};
ghost use Rattle.records.specs.Form.{read_many};
ghost use Rattle.records.specs.Found.{is_got, values_of};
ghost use Rattle.records.specs.Layouts.{view, run, image};
ghost use Rattle.records.specs.Spans.{view_in, ViewInside};
ghost use Rattle.listing.specs.Listing.{header, spaced, closed, start_text, end_text, names, bounds_text, line, lines, run_lines, listing};
ghost use Rattle.listing.specs.Spans.{ReachedPast};

use crate::Reached;
use comparable_range::Kind;
use format::BoundSpan;
use records::ViewSpan;

// A number and a space. Answers the place past what was put, as all functions here do.
fn put_number(out: &mut [u8], at: usize, n: u64) -> usize
    requires { at + length (spaced (decimal n)) ≤ length out.old }
    ensures value { result ≡ at + length (spaced (decimal n)) }
    ensures out_after { out.new ≡ splice out.old at (spaced (decimal n)) }
{
    let end = text::put_decimal(out, at, n);
    format::put_byte(out, end, b' ');
    end + 1
}

// Bytes in hexadecimal and a space.
fn put_bytes(out: &mut [u8], at: usize, src: &[u8]) -> usize
    requires { at + length (spaced (hex src.now)) ≤ length out.old }
    ensures value { result ≡ at + length (spaced (hex src.now)) }
    ensures out_after { out.new ≡ splice out.old at (spaced (hex src.now)) }
{
    let end = text::put_hex(out, at, src);
    format::put_byte(out, end, b' ');
    end + 1
}

// Two bytes.
fn put_two(out: &mut [u8], at: usize, a: u8, b: u8) -> usize
    requires { at + 2 ≤ length out.old }
    ensures value { result ≡ at + 2 }
    ensures out_after { out.new ≡ splice out.old at (a ∷ b ∷ []) }
{
    format::put(out, at, &[a, b]);
    at + 2
}

// A bracket, a start's key and a space.
#[tactic(auto, using(crate::proofs::LineExits::opened_put))]
fn put_opened(out: &mut [u8], at: usize, bracket: u8, key: &[u8]) -> usize
    requires { at + length (bracket ∷ spaced (hex key.now)) ≤ length out.old }
    ensures value { result ≡ at + length (bracket ∷ spaced (hex key.now)) }
    ensures out_after { out.new ≡ splice out.old at (bracket ∷ spaced (hex key.now)) }
{
    format::put_byte(out, at, bracket);
    put_bytes(out, at + 1, key)
}

// An end's key, a bracket and a newline.
fn put_closed(out: &mut [u8], at: usize, key: &[u8], bracket: u8) -> usize
    requires { at + length (hex key.now ++ bracket ∷ 10 ∷ []) ≤ length out.old }
    ensures value { result ≡ at + length (hex key.now ++ bracket ∷ 10 ∷ []) }
    ensures out_after { out.new ≡ splice out.old at (hex key.now ++ bracket ∷ 10 ∷ []) }
{
    let end = text::put_hex(out, at, key);
    put_two(out, end, bracket, b'\n')
}

// A start and a space.
#[tactic(auto, using(crate::proofs::LineExits::start_put_exits))]
fn put_start(s: &[u8], b: BoundSpan, out: &mut [u8], at: usize) -> usize
    requires fact_1 { BoundInside s.now b }
    requires fact_2 { at + length (spaced (start_text (bound_in s.now b))) ≤ length out.old }
    ensures value { result ≡ at + length (spaced (start_text (bound_in s.now b))) }
    ensures out_after { out.new ≡ splice out.old at (spaced (start_text (bound_in s.now b))) }
{
    match b.kind {
        Kind::Unbounded => put_two(out, at, b'-', b' '),
        Kind::Included => put_opened(out, at, b'[', format::key_of(s, b)),
        Kind::Excluded => put_opened(out, at, b'(', format::key_of(s, b)),
    }
}

// An end and a newline.
#[tactic(auto, using(crate::proofs::LineExits::end_put_exits))]
fn put_end(s: &[u8], b: BoundSpan, out: &mut [u8], at: usize) -> usize
    requires fact_1 { BoundInside s.now b }
    requires fact_2 { at + length (closed (end_text (bound_in s.now b))) ≤ length out.old }
    ensures value { result ≡ at + length (closed (end_text (bound_in s.now b))) }
    ensures out_after { out.new ≡ splice out.old at (closed (end_text (bound_in s.now b))) }
{
    match b.kind {
        Kind::Unbounded => put_two(out, at, b'-', b'\n'),
        Kind::Included => put_closed(out, at, format::key_of(s, b), b']'),
        Kind::Excluded => put_closed(out, at, format::key_of(s, b), b')'),
    }
}

// The run's id, the view's place and the table's id.
fn put_names(out: &mut [u8], at: usize, id: u64, place: usize, table: &[u8]) -> usize
    requires { at + length (names id place table.now) ≤ length out.old }
    ensures value { result ≡ at + length (names id place table.now) }
    ensures out_after { out.new ≡ splice out.old at (names id place table.now) }
{
    let a = put_number(out, at, id);
    let b = put_number(out, a, place as u64);
    put_bytes(out, b, table)
}

// The bounds of a range.
fn put_bounds(s: &[u8], start: BoundSpan, end: BoundSpan, out: &mut [u8], at: usize) -> usize
    requires bound_inside_1 { BoundInside s.now start }
    requires bound_inside_2 { BoundInside s.now end }
    requires end_in_bounds { at + length (bounds_text (range_in s.now start end)) ≤ length out.old }
    ensures value { result ≡ at + length (bounds_text (range_in s.now start end)) }
    ensures out_after { out.new ≡ splice out.old at (bounds_text (range_in s.now start end)) }
{
    let a = put_start(s, start, out, at);
    put_end(s, end, out, a)
}

// The line of a view.
fn put_line(s: &[u8], v: ViewSpan, id: u64, place: usize, out: &mut [u8], at: usize) -> usize
    requires fact_1 { ViewInside s.now v }
    requires fact_2 { at + length (line id place (view_in s.now v)) ≤ length out.old }
    ensures value { result ≡ at + length (line id place (view_in s.now v)) }
    ensures out_after { out.new ≡ splice out.old at (line id place (view_in s.now v)) }
{
    let e = manifest::effective(s, v);
    let table = records::table_id_at(s, v.table.id);
    let a = put_names(out, at, id, place, &table.0);
    put_bounds(s, e.start, e.end, out, a)
}

// The lines of n views of a run. The walk of `views_len`, which adds where this writes: one for both would need a trait with two
// contracts, and is no plainer.
fn put_views(s: &[u8], from: usize, n: usize, id: u64, out: &mut [u8], first: usize) -> Reached
    requires from_in_bounds_1 { from ≤ length s.now }
    requires from_in_bounds_2 { T (is_got (read_many view.read n (drop from s.now))) }
    requires s_in_bounds { first + length (lines id 0 (values_of (read_many view.read n (drop from s.now)))) ≤ length out.old }
    ensures reached_past { ReachedPast s.now (read_many view.read n (drop from s.now)) first (lines id 0 (values_of (read_many view.read n (drop from s.now)))) result }
    ensures out_after { out.new ≡ splice out.old first (lines id 0 (values_of (read_many view.read n (drop from s.now)))) }
{
    let mut at = from;
    let mut to = first;
    for place in 0..n {
        let v = records::view_there(s, at);
        to = put_line(s, v, id, place, out, to);
        at = v.past;
    }
    Reached { next: at, to }
}

// The lines of n runs. The walk of `runs_len`: two for the same reason.
fn put_runs(s: &[u8], from: usize, n: usize, out: &mut [u8], first: usize)
    requires from_in_bounds_1 { from ≤ length s.now }
    requires from_in_bounds_2 { T (is_got (read_many run.read n (drop from s.now))) }
    requires s_in_bounds { first + length (run_lines (values_of (read_many run.read n (drop from s.now)))) ≤ length out.old }
    ensures { out.new ≡ splice out.old first (run_lines (values_of (read_many run.read n (drop from s.now)))) }
{
    let mut at = from;
    let mut to = first;
    for _ in 0..n {
        let run = records::run_there(s, at);
        let r = put_views(s, run.first, run.views, run.id, out, to);
        to = r.to;
        at = r.next;
    }
}

fn put_header(out: &mut [u8])
    requires { 25 ≤ length out.old }
    ensures { out.new ≡ splice out.old 0 header }
{
    format::put(out, 0, b"run view table start end\n");
}

// The listing of an image that is there, at the front of a buffer.
pub fn put_listing(s: &[u8], out: &mut [u8])
    requires fact_1 { T (is_got (image.read s.now)) }
    requires fact_2 { length (listing (values_of (image.read s.now))) ≤ length out.old }
    ensures { out.new ≡ over (listing (values_of (image.read s.now))) out.old }
{
    let n = records::runs_there(s, 0);
    put_header(out);
    put_runs(s, 1, n, out, 25);
}
