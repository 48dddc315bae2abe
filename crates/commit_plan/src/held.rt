// A view of the image, held while its pieces are planned.
ghost use Rattle.std.specs.Prelude.{◌≤◌, T, length, take, drop};
ghost use Rattle.base.specs.Bytes.{Bytes};
ghost use Rattle.records.specs.Found.{is_got};
ghost use Rattle.records.specs.Layouts.{view};
ghost use Rattle.manifest.specs.Ranges.{effective};
ghost use Rattle.commit_durable.specs.Tables.{job_gaps, GapsHold};
ghost use Rattle.commit_gaps.specs.Ordered.{Behind};
ghost use Rattle.commit_gaps.specs.Found.{Reached};
ghost use Rattle.commit_plan.specs.Held.{view_at, HeldAt};

use format::span::RangeSpan;

// Where it stands, where its table ends, the place past it, its effective range, and the first gap that this can reach.
#[derive(Clone, Copy)]
pub struct ViewHeld {
    pub at: usize,
    pub end: usize,
    pub past: usize,
    pub range: RangeSpan,
    pub gap: usize,
}

// The view at a place. All gaps before one are behind its start.
pub fn view_held(
    image: &[u8],
    at: usize,
    job: &[u8],
    gaps: &[usize],
    m: usize,
    from: usize,
) -> ViewHeld
    requires at_in_bounds_1 { at ≤ length image.now }
    requires at_in_bounds_2 { Bytes image.now }
    requires at_in_bounds_3 { T (is_got (view.read (drop at image.now))) }
    requires gaps_hold_1 { GapsHold job.now m gaps.now }
    requires gaps_hold_2 { from ≤ m }
    requires gaps_hold_3 { Behind (effective (view_at image.now at)).start (take from (job_gaps job.now)) }
    ensures held_at { HeldAt image.now at result }
    ensures reached { Reached (effective (view_at image.now at)).start job.now m result.gap }
{
    let v = records::view_there(image, at);
    let range = manifest::effective(image, v);
    ViewHeld {
        at,
        end: v.table.past,
        past: v.past,
        range,
        gap: commit_gaps::first_gap(image, range.start, job, gaps, m, from),
    }
}
