// A view of the new image in a row of eleven numbers.
ghost use Rattle.std.specs.Prelude.{◌≡◌, ◌≤◌, ◌+◌, ◌*◌, length};
ghost use Rattle.base.specs.Rows.{row_at};
ghost use Rattle.base.specs.Splice.{splice};
ghost use Rattle.commit_rows.specs.Numbers.{form_of, form_number, row_of, row_numbers};

use crate::bounds::{bound_at, put_bound, put_four};
use comparable_range::Side;
use format::BoundSpan;

// What is written: a view of the image as it is, or a range of one under a new id, each of its bounds out of the image
// (first) or out of the job (second); an output of the job whole, or the durable range of one under a new id.
#[derive(Clone, Copy)]
pub enum Form {
    Whole,
    Output,
    CutOutput,
    Cut(Side, Side),
}

// The view or the output stands from one place to another: of a view that is cut, up to the end of its table. Of a range, its
// bounds and the place of ten bytes of the supply. The bucket says where it comes in the destination.
#[derive(Clone, Copy)]
pub struct Row {
    pub form: Form,
    pub bucket: usize,
    pub at: usize,
    pub past: usize,
    pub start: BoundSpan,
    pub end: BoundSpan,
    pub ten: usize,
}

fn form_of(n: usize) -> Form
    ensures { result ≡ form_of n }
{
    match n {
        0 => Form::Whole,
        1 => Form::Output,
        2 => Form::CutOutput,
        3 => Form::Cut(Side::First, Side::First),
        4 => Form::Cut(Side::First, Side::Second),
        5 => Form::Cut(Side::Second, Side::First),
        _ => Form::Cut(Side::Second, Side::Second),
    }
}

fn form_number(form: Form) -> usize
    ensures { result ≡ form_number form }
{
    match form {
        Form::Whole => 0,
        Form::Output => 1,
        Form::CutOutput => 2,
        Form::Cut(Side::First, Side::First) => 3,
        Form::Cut(Side::First, Side::Second) => 4,
        Form::Cut(Side::Second, Side::First) => 5,
        Form::Cut(Side::Second, Side::Second) => 6,
    }
}

pub fn row_at(rows: &[usize], k: usize) -> Row
    requires { k * 11 + 11 ≤ length rows.now }
    ensures { result ≡ row_of (row_at 11 k rows.now) }
{
    let at = k * 11;
    Row {
        form: form_of(rows[at]),
        bucket: rows[at + 1],
        at: rows[at + 2],
        past: rows[at + 3],
        start: bound_at(rows, at + 4),
        end: bound_at(rows, at + 7),
        ten: rows[at + 10],
    }
}

pub fn put_row(rows: &mut [usize], k: usize, r: Row)
    requires { k * 11 + 11 ≤ length rows.old }
    ensures { rows.new ≡ splice rows.old (k * 11) (row_numbers r) }
{
    let at = k * 11;
    // Eleven numbers copied at once take twice the time: they go through memory.
    put_four(rows, at, [form_number(r.form), r.bucket, r.at, r.past]);
    put_bound(rows, at + 4, r.start);
    put_bound(rows, at + 7, r.end);
    rows[at + 10] = r.ten;
}
