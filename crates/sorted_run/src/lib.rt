// Lookups in the views of a run.
#![tactic(auto)]

mod tables;
mod views;

ghost use Rattle.std.specs.Prelude.{◌≡◌};
ghost use Rattle.base.specs.Outcome.{test_of};
ghost use Rattle.partitioned_keyspace.specs.Calls.{covered_of};
ghost use Rattle.db_state.specs.LookupCalls.{overlaps_range_outcome, table_idx_covering_range_outcome};

use crate::tables::covered_in_run;
use crate::views::run_overlaps;
use base::Tested;
use partitioned_keyspace::Covered;
use sst_view::asked::{Asked, image_and_range};
use sst_view::places::{RunPlaced, run_in_image};

// Whether a run's span meets the asked range.
pub fn overlaps_range<'a>(image: &'a [u8], run: usize, range: &'a [u8]) -> Tested
    ensures { test_of result ≡ overlaps_range_outcome image.now run range.now }
{
    match image_and_range(image, range) {
        Asked::Stop(k) => Tested::Stop(k),
        Asked::Range(asked) => match run_in_image(image, run) {
            RunPlaced::Stop(k) => Tested::Stop(k),
            RunPlaced::At(r) => Tested::Is(run_overlaps(image, r, range, asked)),
        },
    }
}

// The places of a run's views that cover the asked range.
pub fn table_idx_covering_range<'a>(image: &'a [u8], run: usize, range: &'a [u8]) -> Covered
    ensures { covered_of result ≡ table_idx_covering_range_outcome image.now run range.now }
{
    match image_and_range(image, range) {
        Asked::Stop(k) => Covered::Stop(k),
        Asked::Range(asked) => match run_in_image(image, run) {
            RunPlaced::Stop(k) => Covered::Stop(k),
            RunPlaced::At(r) => covered_in_run(image, r, range, asked),
        },
    }
}
