// The bytes of rows, one row after another.
ghost use Rattle.std.specs.Prelude.{◌≤◌, ◌+◌, ℕ, List, length};
ghost use Rattle.std.specs.Iterator.{IsFinite};
ghost use Rattle.std.proofs.lemmas.Iterator.{YieldsList};
ghost use Rattle.base.specs.Lists.{All};
ghost use Rattle.range_write.specs.Put.{Put};
ghost use Rattle.commit_write.specs.Rows.{numbered_bytes, RowThere};

use crate::views::put_view;

// The rows whose numbers are given.
pub fn put_rows<I: Iterator<Item = usize>>(
    image: &[u8],
    job: &[u8],
    ids: &[u8],
    rows: &[usize],
    numbers: I,
    out: &mut [u8],
    to: usize,
) -> usize
    requires can { I.can_next numbers }
    requires ends { IsFinite (I.remaining numbers) }
    requires given { (ks : List ℕ) × YieldsList I.next_gives (λ k. k) numbers ks × All (RowThere image.now job.now ids.now rows.now) ks × (to + length (numbered_bytes image.now job.now ids.now rows.now ks) ≤ length out.old) }
    ensures { (ks : List ℕ) → YieldsList I.next_gives (λ k. k) numbers ks → Put out.old to (numbered_bytes image.now job.now ids.now rows.now ks) out.new result }
{
    let mut past = to;
    for k in numbers {
        let row = commit_rows::row_at(rows, k);
        past = put_view(image, job, ids, row, out, past);
    }
    past
}
