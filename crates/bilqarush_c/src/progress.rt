// The calls on durable intervals for C.
ghost use Rattle.std.specs.Prelude.{length};
ghost use Rattle.from_compaction.specs.ProgressCalls.{from_compaction_outcome};
ghost use Rattle.subtract_from.specs.SubtractCalls.{subtract_from_outcome};
ghost use Rattle.told.specs.Told.{held, Told};

#[unsafe(no_mangle)]
#[tactic(auto, using(crate::proofs::TellExits::told))]
pub extern "C" fn bilqarush_from_compaction(job: &[u8], out: &mut [u8], written: &mut usize) -> u8
    ensures { Told (from_compaction_outcome job.now (length out.old)) (held out) (held written) result }
{
    told::tell(bilqarush::from_compaction(job, out), written)
}

#[unsafe(no_mangle)]
#[tactic(auto, using(crate::proofs::TellExits::told))]
pub extern "C" fn bilqarush_subtract_from<'a>(
    interval: &'a [u8],
    range: &'a [u8],
    out: &mut [u8],
    written: &mut usize,
) -> u8
    ensures { Told (subtract_from_outcome interval.now range.now (length out.old)) (held out) (held written) result }
{
    told::tell(bilqarush::subtract_from(interval, range, out), written)
}
