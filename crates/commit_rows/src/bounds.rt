// Numbers in a row: a bound is three, its kind, place and length.
ghost use Rattle.std.specs.Prelude.{◌≡◌, ◌≤◌, ◌+◌, length};
ghost use Rattle.base.specs.Splice.{splice};
ghost use Rattle.format.specs.Range.{kind_of, kind_number};
ghost use Rattle.commit_rows.specs.Numbers.{span_at, bound_numbers};

use comparable_range::Kind;
use format::BoundSpan;

// The kind that a number stands for.
fn kind_of(n: usize) -> Kind
    ensures { result ≡ kind_of n }
{
    match n {
        0 => Kind::Unbounded,
        1 => Kind::Included,
        _ => Kind::Excluded,
    }
}

// The bound in three numbers.
pub fn bound_at(table: &[usize], at: usize) -> BoundSpan
    requires { at + 3 ≤ length table.now }
    ensures { result ≡ span_at at table.now }
{
    BoundSpan {
        kind: kind_of(table[at]),
        at: table[at + 1],
        len: table[at + 2],
    }
}

// The number that stands for a kind.
pub fn kind_number(kind: Kind) -> usize
    ensures { result ≡ kind_number kind }
{
    match kind {
        Kind::Unbounded => 0,
        Kind::Included => 1,
        Kind::Excluded => 2,
    }
}

pub fn put_bound(table: &mut [usize], at: usize, b: BoundSpan)
    requires { at + 3 ≤ length table.old }
    ensures { table.new ≡ splice table.old at (bound_numbers b) }
{
    table[at..at + 3].copy_from_slice(&[kind_number(b.kind), b.at, b.len]);
}

// The four numbers at the front of a row.
pub fn put_four(table: &mut [usize], at: usize, numbers: [usize; 4])
    requires { at + 4 ≤ length table.old }
    ensures { table.new ≡ splice table.old at numbers }
{
    table[at..at + 4].copy_from_slice(&numbers);
}
