// The public calls for C: include/bilqarush.h has their declarations, and the crates `told` and `told_bytes` how a call tells its
// answer.
#![tactic(auto)]

mod images;
mod lookups;
mod partitions;
mod plans;
mod progress;
mod sizes;

ghost use Rattle.std.specs.Prelude.{◌≡◌, length};
ghost use Rattle.bilqarush.specs.Calls.{compare_outcome, cmp_bound_outcome, non_empty_outcome, contains_outcome, as_point_outcome};
ghost use Rattle.bilqarush.specs.Calls.{intersect_outcome, intersect_start_key_outcome, intersect_end_key_outcome, union_outcome};
ghost use Rattle.bilqarush.specs.Calls.{from_prefix_outcome, from_prefix_and_subrange_outcome};
ghost use Rattle.bilqarush.specs.Answers.{point_at};
ghost use Rattle.told.specs.Told.{held, SlotTold, Told};
ghost use Rattle.told_bytes.specs.Layouts.{point_to, key_to, JointTold};

#[unsafe(no_mangle)]
#[tactic(auto, using(crate::proofs::TellExits::slot_told))]
pub extern "C" fn bilqarush_compare(a: &[u8], b: &[u8], order: &mut i8) -> u8
    ensures { SlotTold (compare_outcome a.now b.now) (held order) result }
{
    told::tell_order(bilqarush::compare(a, b), order)
}

#[unsafe(no_mangle)]
#[tactic(auto, using(crate::proofs::TellExits::slot_told))]
pub extern "C" fn bilqarush_cmp_bound(
    a_kind: u8,
    a: &[u8],
    b_kind: u8,
    b: &[u8],
    start: bool,
    order: &mut i8,
) -> u8
    ensures { SlotTold (cmp_bound_outcome a_kind a.now b_kind b.now start) (held order) result }
{
    told::tell_order(bilqarush::cmp_bound(a_kind, a, b_kind, b, start), order)
}

#[unsafe(no_mangle)]
#[tactic(auto, using(crate::proofs::TellExits::slot_told))]
pub extern "C" fn bilqarush_non_empty(range: &[u8], is: &mut bool) -> u8
    ensures { SlotTold (non_empty_outcome range.now) (held is) result }
{
    told::tell_test(bilqarush::non_empty(range), is)
}

#[unsafe(no_mangle)]
#[tactic(auto, using(crate::proofs::TellExits::slot_told))]
pub extern "C" fn bilqarush_contains(range: &[u8], key: &[u8], is: &mut bool) -> u8
    ensures { SlotTold (contains_outcome range.now key.now) (held is) result }
{
    told::tell_test(bilqarush::contains(range, key), is)
}

#[unsafe(no_mangle)]
#[tactic(auto, using(crate::proofs::TellExits::point_told))]
pub extern "C" fn bilqarush_as_point(range: &[u8], out: &mut [u8], written: &mut usize) -> u8
    ensures { Told (point_to (length out.old) (point_at (as_point_outcome range.now))) (held out) (held written) result }
{
    told::tell(
        told_bytes::put_point(bilqarush::as_point(range), out),
        written,
    )
}

#[unsafe(no_mangle)]
#[tactic(auto, using(crate::proofs::TellExits::joint_told))]
pub extern "C" fn bilqarush_intersect<'a>(
    a: &'a [u8],
    b: &'a [u8],
    out: &mut [u8],
    written: &mut usize,
) -> u8
    ensures { JointTold a.now b.now (intersect_outcome a.now b.now) (held out) (held written) result }
{
    told::tell(
        told_bytes::put_joined(bilqarush::intersect(a, b), out),
        written,
    )
}

#[unsafe(no_mangle)]
#[tactic(auto, using(crate::proofs::TellExits::start_told, crate::proofs::TellExits::joint_places))]
pub extern "C" fn bilqarush_intersect_start_key<'a>(
    a: &'a [u8],
    b: &'a [u8],
    out: &mut [u8],
    written: &mut usize,
) -> u8
    ensures { Told (key_to (length out.old) (intersect_start_key_outcome a.now b.now)) (held out) (held written) result }
{
    told::tell(
        told_bytes::put_start_key(a, b, bilqarush::intersect(a, b), out),
        written,
    )
}

#[unsafe(no_mangle)]
#[tactic(auto, using(crate::proofs::TellExits::end_told, crate::proofs::TellExits::joint_places))]
pub extern "C" fn bilqarush_intersect_end_key<'a>(
    a: &'a [u8],
    b: &'a [u8],
    out: &mut [u8],
    written: &mut usize,
) -> u8
    ensures { Told (key_to (length out.old) (intersect_end_key_outcome a.now b.now)) (held out) (held written) result }
{
    told::tell(
        told_bytes::put_end_key(a, b, bilqarush::intersect(a, b), out),
        written,
    )
}

#[unsafe(no_mangle)]
#[tactic(auto, using(crate::proofs::TellExits::joint_told))]
pub extern "C" fn bilqarush_union<'a>(
    a: &'a [u8],
    b: &'a [u8],
    out: &mut [u8],
    written: &mut usize,
) -> u8
    ensures { JointTold a.now b.now (union_outcome a.now b.now) (held out) (held written) result }
{
    told::tell(told_bytes::put_joined(bilqarush::union(a, b), out), written)
}

#[unsafe(no_mangle)]
#[tactic(auto, using(crate::proofs::TellExits::told))]
pub extern "C" fn bilqarush_from_prefix(prefix: &[u8], out: &mut [u8], written: &mut usize) -> u8
    ensures { Told (from_prefix_outcome prefix.now (length out.old)) (held out) (held written) result }
{
    told::tell(bilqarush::from_prefix(prefix, out), written)
}

#[unsafe(no_mangle)]
#[tactic(auto, using(crate::proofs::TellExits::told))]
pub extern "C" fn bilqarush_from_prefix_and_subrange(
    prefix: &[u8],
    subrange: &[u8],
    out: &mut [u8],
    written: &mut usize,
) -> u8
    ensures { Told (from_prefix_and_subrange_outcome prefix.now subrange.now (length out.old)) (held out) (held written) result }
{
    told::tell(
        bilqarush::from_prefix_and_subrange(prefix, subrange, out),
        written,
    )
}
