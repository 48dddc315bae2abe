// The runs of an image, in a table of four numbers a run. Some functions are lent the image only so that their contracts can
// say what its bytes mean.
ghost use Rattle.std.specs.Prelude.{◌≡◌, ◌≤◌, ◌<◌, ◌+◌, ◌*◌, length};
ghost use Rattle.base.specs.Rows.{row_at};
ghost use Rattle.base.specs.Splice.{splice};
ghost use Rattle.manifest.specs.Checks.{has};
ghost use Rattle.commit_index.specs.Index.{indexed_of, indexed_numbers, row_ids, image_ids, IndexHold, IndexedFound};

// A run's id, how many views it has, and the places of the first and past the last.
#[derive(Clone, Copy)]
pub struct IndexedRun {
    pub id: u64,
    pub views: usize,
    pub first: usize,
    pub past: usize,
}

fn run_row(index: &[usize], k: usize) -> IndexedRun
    requires { k * 4 + 4 ≤ length index.now }
    ensures { result ≡ indexed_of (row_at 4 k index.now) }
{
    let at = k * 4;
    IndexedRun {
        id: index[at] as u64,
        views: index[at + 1],
        first: index[at + 2],
        past: index[at + 3],
    }
}

pub fn put_run(index: &mut [usize], k: usize, r: IndexedRun)
    requires { k * 4 + 4 ≤ length index.old }
    ensures { index.new ≡ splice index.old (k * 4) (indexed_numbers r) }
{
    let at = k * 4;
    index[at..at + 4].copy_from_slice(&[r.id as usize, r.views, r.first, r.past]);
}

// Whether an id is one of the first n runs'.
pub fn id_among(index: &[usize], n: usize, id: u64) -> bool
    requires { n * 4 ≤ length index.now }
    ensures { result ≡ has id (row_ids n index.now) }
{
    for i in 0..n {
        if index[i * 4] == id as usize {
            return true;
        }
    }
    false
}

// Run k of n.
pub fn indexed_run(s: &[u8], index: &[usize], n: usize, k: usize) -> IndexedRun
    requires fact_1 { IndexHold s.now n index.now }
    requires fact_2 { k < n }
    ensures { IndexedFound s.now k result }
{
    run_row(index, k)
}

// Whether the image has a run with an id.
pub fn has_run(s: &[u8], index: &[usize], n: usize, id: u64) -> bool
    requires { IndexHold s.now n index.now }
    ensures { result ≡ has id (image_ids s.now) }
{
    id_among(index, n, id)
}
