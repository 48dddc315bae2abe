// The calls that plan for C.
ghost use Rattle.std.specs.Prelude.{length};
ghost use Rattle.subcompaction.specs.PlanCalls.{sample_anchors_outcome, select_boundaries_outcome, plan_subcompaction_ranges_outcome};
ghost use Rattle.told.specs.Told.{held, Told};

#[unsafe(no_mangle)]
#[tactic(auto, using(crate::proofs::TellExits::told))]
pub extern "C" fn bilqarush_sample_anchors(
    most: usize,
    data_end: u64,
    index: &[u8],
    range: &[u8],
    out: &mut [u8],
    written: &mut usize,
) -> u8
    ensures { Told (sample_anchors_outcome most data_end index.now range.now (length out.old)) (held out) (held written) result }
{
    told::tell(
        bilqarush::sample_anchors(most, data_end, index, range, out),
        written,
    )
}

#[unsafe(no_mangle)]
#[tactic(auto, using(crate::proofs::TellExits::told))]
pub extern "C" fn bilqarush_select_boundaries(
    parts: usize,
    least: u64,
    anchors: &[u8],
    out: &mut [u8],
    written: &mut usize,
) -> u8
    ensures { Told (select_boundaries_outcome parts least anchors.now (length out.old)) (held out) (held written) result }
{
    told::tell(
        bilqarush::select_boundaries(parts, least, anchors, out),
        written,
    )
}

#[unsafe(no_mangle)]
#[tactic(auto, using(crate::proofs::TellExits::told))]
pub extern "C" fn bilqarush_plan_subcompaction_ranges(
    parts: usize,
    image: &[u8],
    indexes: &[u8],
    out: &mut [u8],
    written: &mut usize,
) -> u8
    ensures { Told (plan_subcompaction_ranges_outcome parts image.now indexes.now (length out.old)) (held out) (held written) result }
{
    told::tell(
        bilqarush::plan_subcompaction_ranges(parts, image, indexes, out),
        written,
    )
}
