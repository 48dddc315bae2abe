// A run of the old image in a row of six numbers, with what the commit does with it.
ghost use Rattle.std.specs.Prelude.{◌≡◌, ◌≤◌, ◌+◌, ◌*◌, length};
ghost use Rattle.base.specs.Rows.{row_at};
ghost use Rattle.base.specs.Splice.{splice};
ghost use Rattle.commit_rows.specs.Numbers.{run_kind_of, run_kind_number, run_of, run_numbers};

// A run that stays as it is, one whose views are cut, or the one that is cut and takes the outputs.
#[derive(Clone, Copy)]
pub enum RunKind {
    Other,
    Source,
    Destination,
}

// Its id, how many views it has, the places of the first and past the last, and how many rows of the plan are its own.
#[derive(Clone, Copy)]
pub struct RunRow {
    pub id: usize,
    pub views: usize,
    pub first: usize,
    pub past: usize,
    pub kind: RunKind,
    pub rows: usize,
}

fn run_kind_of(n: usize) -> RunKind
    ensures { result ≡ run_kind_of n }
{
    match n {
        0 => RunKind::Other,
        1 => RunKind::Source,
        _ => RunKind::Destination,
    }
}

fn run_kind_number(kind: RunKind) -> usize
    ensures { result ≡ run_kind_number kind }
{
    match kind {
        RunKind::Other => 0,
        RunKind::Source => 1,
        RunKind::Destination => 2,
    }
}

pub fn run_row(runs: &[usize], k: usize) -> RunRow
    requires { k * 6 + 6 ≤ length runs.now }
    ensures { result ≡ run_of (row_at 6 k runs.now) }
{
    let at = k * 6;
    RunRow {
        id: runs[at],
        views: runs[at + 1],
        first: runs[at + 2],
        past: runs[at + 3],
        kind: run_kind_of(runs[at + 4]),
        rows: runs[at + 5],
    }
}

pub fn put_run_row(runs: &mut [usize], k: usize, r: RunRow)
    requires { k * 6 + 6 ≤ length runs.old }
    ensures { runs.new ≡ splice runs.old (k * 6) (run_numbers r) }
{
    let at = k * 6;
    runs[at..at + 6].copy_from_slice(&[
        r.id,
        r.views,
        r.first,
        r.past,
        run_kind_number(r.kind),
        r.rows,
    ]);
}
