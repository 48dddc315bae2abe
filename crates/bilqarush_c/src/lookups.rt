// The lookups in a run or a view of an image for C.
ghost use Rattle.std.specs.Prelude.{◌≡◌};
ghost use Rattle.db_state.specs.LookupCalls.{table_idx_covering_range_outcome, overlaps_range_outcome, compacted_intersection_outcome, calculate_view_range_outcome, intersects_range_outcome};
ghost use Rattle.told.specs.Told.{held, SlotTold};
ghost use Rattle.told.specs.Lookups.{CoveredTold};
ghost use Rattle.told_bytes.specs.Layouts.{JointTold};

#[unsafe(no_mangle)]
#[tactic(auto, using(crate::proofs::LookupExits::lookup_exits))]
pub extern "C" fn bilqarush_table_idx_covering_range<'a>(
    image: &'a [u8],
    run: usize,
    range: &'a [u8],
    start: &mut usize,
    end: &mut usize,
) -> u8
    ensures { CoveredTold (table_idx_covering_range_outcome image.now run range.now) (held start) (held end) result }
{
    told::tell_covered(
        bilqarush::table_idx_covering_range(image, run, range),
        start,
        end,
    )
}

#[unsafe(no_mangle)]
#[tactic(auto, using(crate::proofs::TellExits::slot_told))]
pub extern "C" fn bilqarush_overlaps_range<'a>(
    image: &'a [u8],
    run: usize,
    range: &'a [u8],
    is: &mut bool,
) -> u8
    ensures { SlotTold (overlaps_range_outcome image.now run range.now) (held is) result }
{
    told::tell_test(bilqarush::overlaps_range(image, run, range), is)
}

#[unsafe(no_mangle)]
#[tactic(auto, using(crate::proofs::TellExits::joint_told))]
pub extern "C" fn bilqarush_compacted_intersection<'a>(
    image: &'a [u8],
    run: usize,
    view: usize,
    range: &'a [u8],
    out: &mut [u8],
    written: &mut usize,
) -> u8
    ensures { JointTold image.now range.now (compacted_intersection_outcome image.now run view range.now) (held out) (held written) result }
{
    let joined = bilqarush::compacted_intersection(image, run, view, range);
    told::tell(told_bytes::put_joined(joined, out), written)
}

#[unsafe(no_mangle)]
#[tactic(auto, using(crate::proofs::TellExits::joint_told))]
pub extern "C" fn bilqarush_calculate_view_range<'a>(
    image: &'a [u8],
    run: usize,
    view: usize,
    range: &'a [u8],
    out: &mut [u8],
    written: &mut usize,
) -> u8
    ensures { JointTold image.now range.now (calculate_view_range_outcome image.now run view range.now) (held out) (held written) result }
{
    let joined = bilqarush::calculate_view_range(image, run, view, range);
    told::tell(told_bytes::put_joined(joined, out), written)
}

#[unsafe(no_mangle)]
#[tactic(auto, using(crate::proofs::TellExits::slot_told))]
pub extern "C" fn bilqarush_intersects_range<'a>(
    image: &'a [u8],
    run: usize,
    view: usize,
    end_kind: u8,
    end: &'a [u8],
    range: &'a [u8],
    is: &mut bool,
) -> u8
    ensures { SlotTold (intersects_range_outcome image.now run view end_kind end.now range.now) (held is) result }
{
    told::tell_test(
        bilqarush::intersects_range(image, run, view, end_kind, end, range),
        is,
    )
}
