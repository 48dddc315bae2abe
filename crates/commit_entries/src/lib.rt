// What a commit is to write, entry by entry: each gets a row, as long as there is room, and is counted; one that needs a new
// id draws it. Counting goes on when the rows are full, and when the supply is used up.
#![tactic(auto)]

ghost use Rattle.std.specs.Prelude.{◌≡◌, ◌≤◌, ◌+◌, ◌*◌, length};
ghost use Rattle.commit_rows.specs.Bytes.{bound_length, range_length, row_length};
ghost use Rattle.commit_entries.specs.Planned.{RowSmall, KeptRow, PlanReady, TenFound, Added, AddedCut};

use commit_rows::{Form, Row};
use comparable_range::Kind;
use format::BoundSpan;
use records::ViewId;

// How many rows there are to write, how many bytes they take, how many of them have a new id, the place in the supply after
// the last draw, and whether the supply sufficed so far.
#[derive(Clone, Copy)]
pub struct Plan {
    pub rows: usize,
    pub bytes: usize,
    pub cuts: usize,
    pub drawn: usize,
    pub enough: bool,
}

// How many bytes a bound takes.
fn bound_len(kind: Kind, len: usize) -> usize
    requires { len ≤ 262144 }
    ensures value { result ≡ bound_length kind len }
    ensures upper_bound { result ≤ 262146 }
{
    match kind {
        Kind::Unbounded => 0,
        Kind::Included | Kind::Excluded => 2 + len,
    }
}

fn range_len(start: BoundSpan, end: BoundSpan) -> usize
    requires { (start.len ≤ 262144) × (end.len ≤ 262144) }
    ensures value { result ≡ range_length start end }
    ensures upper_bound { result ≤ 524293 }
{
    1 + bound_len(start.kind, start.len) + bound_len(end.kind, end.len)
}

// How many bytes a row's view takes.
#[tactic(auto, unfolding(commit_rows::specs::Bytes::row_length))]
fn row_len(r: Row) -> usize
    requires { RowSmall r }
    ensures value { result ≡ row_length r }
    ensures upper_bound { result ≤ 1048576 }
{
    let long = r.past - r.at;
    match r.form {
        Form::Whole => long,
        Form::Output => 17 + long,
        Form::CutOutput => 17 + long + range_len(r.start, r.end),
        Form::Cut(_, _) => 1 + long + range_len(r.start, r.end),
    }
}

// Row k, if there is room for it.
fn keep_row(rows: &mut [usize], k: usize, r: Row)
    ensures { KeptRow k r rows.old rows.new }
{
    if k < rows.len() / 11 {
        commit_rows::put_row(rows, k, r);
    }
}

// One row more.
pub fn add_row(rows: &mut [usize], p: Plan, r: Row) -> Plan
    requires fact_1 { RowSmall r }
    requires fact_2 { p.rows ≤ 1099511627776 }
    requires fact_3 { p.bytes ≤ p.rows * 1048576 }
    ensures { Added r p rows.old result rows.new }
{
    keep_row(rows, p.rows, r);
    Plan {
        rows: p.rows + 1,
        bytes: p.bytes + row_len(r),
        ..p
    }
}

// The plan after one draw more, and where the ten bytes stand, if the supply sufficed.
#[derive(Clone, Copy)]
pub struct Ten {
    pub at: usize,
    pub plan: Plan,
}

fn next_ten(old: ViewId, ids: &[u8], p: Plan) -> Ten
    requires fact_1 { p.drawn ≤ length ids.now }
    requires fact_2 { p.cuts ≤ 1099511627776 }
    ensures { TenFound old ids.now p result }
{
    let cuts = p.cuts + 1;
    if p.enough {
        if let Some(at) = commit_ids::draw(old, ids, p.drawn) {
            return Ten {
                at,
                plan: Plan {
                    cuts,
                    drawn: at + 10,
                    ..p
                },
            };
        }
    }
    Ten {
        at: 0,
        plan: Plan {
            cuts,
            enough: false,
            ..p
        },
    }
}

// One row more, under a new id.
pub fn add_cut(old: ViewId, ids: &[u8], rows: &mut [usize], p: Plan, r: Row) -> Plan
    requires fact_1 { RowSmall r }
    requires fact_2 { PlanReady ids.now 1099511627776 p }
    ensures { AddedCut old ids.now r p rows.old result rows.new }
{
    let Ten { at, plan } = next_ten(old, ids, p);
    add_row(rows, plan, Row { ten: at, ..r })
}
