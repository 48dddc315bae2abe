// The bytes of a row. Each function answers the place past what it put.
ghost use Rattle.std.specs.Prelude.{◌≡◌, ◌∷◌, ◌≤◌, ◌+◌, length};
ghost use Rattle.comparable_range.specs.Range.{of, range_of};
ghost use Rattle.format.specs.Range.{BoundInside, write_range};
ghost use Rattle.incremental_progress.specs.Draws.{new_id};
ghost use Rattle.commit_rows.specs.Bytes.{between, whole_bytes, RowInside, row_bytes};
ghost use Rattle.commit_rows.specs.declared.rows.Form.TheVariants.{CutOutput, Cut};
ghost use Rattle.range_write.specs.Put.{Put};
ghost use Rattle.commit_write.specs.Rows.{sided_range};

use commit_rows::{Form, Row};
use comparable_range::{Kind, Side};
use format::key_of;
use format::span::slice_of;
use records::ViewId;

// The bytes of src from a place up to another.
pub fn put_part(src: &[u8], a: usize, b: usize, out: &mut [u8], to: usize) -> usize
    requires { (a ≤ b) × ((b ≤ length src.now) × (to + length (between src.now a b) ≤ length out.old)) }
    ensures { Put out.old to (between src.now a b) out.new result }
{
    format::put(out, to, &src[a..b]);
    to + (b - a)
}

// An id as it is.
fn put_id(id: ViewId, out: &mut [u8], to: usize) -> usize
    requires { to + length id.0 ≤ length out.old }
    ensures { Put out.old to id.0 out.new result }
{
    format::put(out, to, &id.0);
    to + 16
}

// A new id: the time of the old one, and ten bytes of the supply.
fn put_new_id(old: ViewId, ids: &[u8], ten: usize, out: &mut [u8], to: usize) -> usize
    requires fact_1 { ten + 10 ≤ length ids.now }
    requires fact_2 { to + length (new_id old (between ids.now ten (ten + 10))).0 ≤ length out.old }
    ensures { Put out.old to (new_id old (between ids.now ten (ten + 10))).0 out.new result }
{
    let bytes = old.0;
    let past = put_part(&bytes, 0, 6, out, to);
    put_part(ids, ten, ten + 10, out, past)
}

// The flag of a visible range, and the range.
fn put_flagged(ks: Kind, s: &[u8], ke: Kind, e: &[u8], out: &mut [u8], to: usize) -> usize
    requires { to + length (128 ∷ write_range (range_of ks s.now ke e.now)) ≤ length out.old }
    ensures { Put out.old to (128 ∷ write_range (range_of ks s.now ke e.now)) out.new result }
{
    format::put_byte(out, to, 128);
    range_write::put_range(ks, s, ke, e, out, to + 1)
}

// The flag and the range of a row, its bounds out of the image (first) or out of the job (second).
fn put_visible<'a>(
    image: &'a [u8],
    job: &'a [u8],
    start: Side,
    end: Side,
    r: Row,
    out: &mut [u8],
    to: usize,
) -> usize
    requires bound_inside_1 { BoundInside (of start image.now job.now) r.start }
    requires bound_inside_2 { BoundInside (of end image.now job.now) r.end }
    requires r_in_bounds { to + length (128 ∷ write_range (sided_range start end image.now job.now r)) ≤ length out.old }
    ensures { Put out.old to (128 ∷ write_range (sided_range start end image.now job.now r)) out.new result }
{
    let s = key_of(slice_of(start, image, job), r.start);
    let e = key_of(slice_of(end, image, job), r.end);
    put_flagged(r.start.kind, s, r.end.kind, e, out, to)
}

// An output of the job under the id of its table.
fn put_output(job: &[u8], a: usize, b: usize, out: &mut [u8], to: usize) -> usize
    requires fact_1 { a + 16 ≤ b }
    requires fact_2 { b ≤ length job.now }
    requires fact_3 { to + length (whole_bytes (between job.now a (a + 16)) (between job.now a b)) ≤ length out.old }
    ensures { Put out.old to (whole_bytes (between job.now a (a + 16)) (between job.now a b)) out.new result }
{
    let id = commit_ids::published_id(job, a);
    let table = put_id(id, out, to);
    let flag = put_part(job, a, b, out, table);
    format::put_byte(out, flag, 0);
    flag + 1
}

// The durable range of an output under a new id.
fn put_cut_output<'a>(
    image: &'a [u8],
    job: &'a [u8],
    ids: &[u8],
    r: Row,
    out: &mut [u8],
    to: usize,
) -> usize
    requires fact_1 { RowInside image.now job.now ids.now r }
    requires fact_2 { r.form ≡ CutOutput }
    requires fact_3 { to + length (row_bytes image.now job.now ids.now r) ≤ length out.old }
    ensures { Put out.old to (row_bytes image.now job.now ids.now r) out.new result }
{
    let old = commit_ids::published_id(job, r.at);
    let table = put_new_id(old, ids, r.ten, out, to);
    let flag = put_part(job, r.at, r.past, out, table);
    put_visible(image, job, Side::Second, Side::Second, r, out, flag)
}

// A range of a view under a new id.
fn put_cut<'a>(
    image: &'a [u8],
    job: &'a [u8],
    ids: &[u8],
    start: Side,
    end: Side,
    r: Row,
    out: &mut [u8],
    to: usize,
) -> usize
    requires fact_1 { RowInside image.now job.now ids.now r }
    requires fact_2 { r.form ≡ Cut start end }
    requires fact_3 { to + length (row_bytes image.now job.now ids.now r) ≤ length out.old }
    ensures { Put out.old to (row_bytes image.now job.now ids.now r) out.new result }
{
    let old = commit_ids::view_id_at(image, r.at);
    let table = put_new_id(old, ids, r.ten, out, to);
    let flag = put_part(image, r.at + 16, r.past, out, table);
    put_visible(image, job, start, end, r, out, flag)
}

pub fn put_view<'a>(
    image: &'a [u8],
    job: &'a [u8],
    ids: &[u8],
    r: Row,
    out: &mut [u8],
    to: usize,
) -> usize
    requires fact_1 { RowInside image.now job.now ids.now r }
    requires fact_2 { to + length (row_bytes image.now job.now ids.now r) ≤ length out.old }
    ensures { Put out.old to (row_bytes image.now job.now ids.now r) out.new result }
{
    match r.form {
        Form::Whole => put_part(image, r.at, r.past, out, to),
        Form::Output => put_output(job, r.at, r.past, out, to),
        Form::CutOutput => put_cut_output(image, job, ids, r, out, to),
        Form::Cut(start, end) => put_cut(image, job, ids, start, end, r, out, to),
    }
}
