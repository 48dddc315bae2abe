// How many rows a plan may have.
ghost use Rattle.std.specs.Prelude.{◌≡◌, ◌*◌, ◌<◌, ◌≤◌, length, get_or};
ghost use Rattle.base.specs.Lists.{All};
ghost use Rattle.base.specs.Rows.{rows_in};
ghost use Rattle.commit_index.specs.Index.{image_of, IndexHold};
ghost use Rattle.commit_durable.specs.Tables.{job_of, PartsHold};
ghost use Rattle.commit.specs.Stages.{column_sum, rows_at_most};

// The sum of number c of each of the first n rows of a table, w numbers to a row.
fn column_sum(table: &[usize], w: usize, c: usize, n: usize) -> usize
    requires fact_1 { c < w }
    requires fact_2 { n ≤ 64 }
    requires fact_3 { n * w ≤ length table.now }
    requires fact_4 { All (λ row. get_or row c 0 ≤ 1024) (rows_in w n table.now) }
    ensures { result ≡ column_sum c (rows_in w n table.now) }
{
    let mut sum = 0;
    for k in 0..n {
        sum += table[k * w + c];
    }
    sum
}

// Of an image with n runs and a job with m parts: a view may have a piece in each gap, of which there is one more than parts.
pub fn rows_at_most(
    image: &[u8],
    job: &[u8],
    index: &[usize],
    parts: &[usize],
    n: usize,
    m: usize,
) -> usize
    requires fact_1 { IndexHold image.now n index.now }
    requires fact_2 { PartsHold job.now m parts.now }
    ensures { result ≡ rows_at_most (image_of image.now) (job_of job.now) }
{
    let views = column_sum(index, 4, 1, n);
    let outputs = column_sum(parts, 10, 2, m);
    views * (m + 1) + outputs
}
