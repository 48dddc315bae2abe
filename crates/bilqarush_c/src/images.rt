// The calls on images for C.
ghost use Rattle.std.specs.Prelude.{◌≡◌, length};
ghost use Rattle.bilqarush.specs.Answers.{stop_of};
ghost use Rattle.bilqarush.specs.ImageCalls.{check_image_outcome, list_outcome};
ghost use Rattle.incremental_progress.specs.Commit.{commit_outcome};
ghost use Rattle.told.specs.Told.{held, Told};
ghost use Rattle.told_bytes.specs.Layouts.{ViewRangeTold};

use bilqarush::Checked;

#[unsafe(no_mangle)]
#[tactic(auto, using(crate::proofs::TellExits::image_exits))]
pub extern "C" fn bilqarush_check_image(image: &[u8]) -> u8
    ensures { result ≡ stop_of (check_image_outcome image.now) }
{
    match bilqarush::check_image(image) {
        Checked::Stop(n) => n,
        Checked::Accepted => 0,
    }
}

#[unsafe(no_mangle)]
#[tactic(auto, using(crate::proofs::TellExits::view_range_told))]
pub extern "C" fn bilqarush_compacted_effective_range(
    image: &[u8],
    run: usize,
    view: usize,
    out: &mut [u8],
    written: &mut usize,
) -> u8
    ensures { ViewRangeTold image.now run view (held out) (held written) result }
{
    let range = bilqarush::compacted_effective_range(image, run, view);
    told::tell(told_bytes::put_view_range(range, out), written)
}

#[unsafe(no_mangle)]
#[tactic(auto, using(crate::proofs::TellExits::told))]
pub extern "C" fn bilqarush_list(image: &[u8], out: &mut [u8], written: &mut usize) -> u8
    ensures { Told (list_outcome image.now (length out.old)) (held out) (held written) result }
{
    told::tell(bilqarush::list(image, out), written)
}

#[unsafe(no_mangle)]
#[tactic(auto, using(crate::proofs::TellExits::told))]
pub extern "C" fn bilqarush_commit<'a>(
    image: &'a [u8],
    job: &'a [u8],
    ids: &[u8],
    out: &mut [u8],
    written: &mut usize,
) -> u8
    ensures { Told (commit_outcome image.now job.now ids.now (length out.old)) (held out) (held written) result }
{
    told::tell(bilqarush::commit(image, job, ids, out), written)
}
