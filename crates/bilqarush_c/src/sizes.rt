// Visible sizes of a view and of a run of an image for C.
ghost use Rattle.std.specs.Prelude.{◌≡◌};
ghost use Rattle.view_sizes.specs.SizeCalls.{visible_fraction_outcome, estimate_visible_size_outcome, estimate_run_visible_size_outcome};
ghost use Rattle.told.specs.Told.{held, SlotTold, OptionTold};
ghost use Rattle.told.specs.Sizes.{part_of};

#[unsafe(no_mangle)]
#[tactic(auto, using(crate::proofs::SizeExits::fraction_told))]
pub extern "C" fn bilqarush_visible_fraction(
    image: &[u8],
    run: usize,
    view: usize,
    part: &mut bool,
    fraction: &mut f64,
) -> u8
    ensures { OptionTold (part_of (visible_fraction_outcome image.now run view)) (held part) (held fraction) result }
{
    told::tell_fraction(
        bilqarush::visible_fraction(image, run, view),
        part,
        fraction,
    )
}

#[unsafe(no_mangle)]
#[tactic(auto, using(crate::proofs::TellExits::slot_told))]
pub extern "C" fn bilqarush_estimate_visible_size(
    image: &[u8],
    run: usize,
    view: usize,
    size: &mut u64,
) -> u8
    ensures { SlotTold (estimate_visible_size_outcome image.now run view) (held size) result }
{
    told::tell_size(bilqarush::estimate_visible_size(image, run, view), size)
}

#[unsafe(no_mangle)]
#[tactic(auto, using(crate::proofs::TellExits::slot_told))]
pub extern "C" fn bilqarush_estimate_run_visible_size(
    image: &[u8],
    run: usize,
    size: &mut u64,
) -> u8
    ensures { SlotTold (estimate_run_visible_size_outcome image.now run) (held size) result }
{
    told::tell_size(bilqarush::estimate_run_visible_size(image, run), size)
}
