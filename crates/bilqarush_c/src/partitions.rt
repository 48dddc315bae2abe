// The lookups in an index for C.
ghost use Rattle.std.specs.Prelude.{◌≡◌};
ghost use Rattle.partitioned_keyspace.specs.Calls.{partition_point_outcome, first_partition_including_key_outcome};
ghost use Rattle.partitioned_keyspace.specs.Calls.{first_partition_including_or_after_key_outcome, last_partition_including_key_outcome};
ghost use Rattle.partitioned_keyspace.specs.Calls.{partitions_covering_range_outcome};
ghost use Rattle.told.specs.Told.{held, SlotTold, OptionTold};
ghost use Rattle.told.specs.Lookups.{test_given, CoveredTold};

#[unsafe(no_mangle)]
#[tactic(auto, using(crate::proofs::LookupExits::count_told))]
pub extern "C" fn bilqarush_partition_point<'a>(
    index: &'a [u8],
    at_or_below: bool,
    key: &'a [u8],
    count: &mut usize,
) -> u8
    ensures { SlotTold (partition_point_outcome index.now (test_given at_or_below) key.now) (held count) result }
{
    let test = told::test_given(at_or_below);
    told::tell_count(bilqarush::partition_point(index, test, key), count)
}

#[unsafe(no_mangle)]
#[tactic(auto, using(crate::proofs::LookupExits::lookup_exits))]
pub extern "C" fn bilqarush_first_partition_including_key<'a>(
    index: &'a [u8],
    key: &'a [u8],
    found: &mut bool,
    partition: &mut usize,
) -> u8
    ensures { OptionTold (first_partition_including_key_outcome index.now key.now) (held found) (held partition) result }
{
    told::tell_found(
        bilqarush::first_partition_including_key(index, key),
        found,
        partition,
    )
}

#[unsafe(no_mangle)]
#[tactic(auto, using(crate::proofs::TellExits::slot_told))]
pub extern "C" fn bilqarush_first_partition_including_or_after_key<'a>(
    index: &'a [u8],
    key: &'a [u8],
    partition: &mut usize,
) -> u8
    ensures { SlotTold (first_partition_including_or_after_key_outcome index.now key.now) (held partition) result }
{
    told::tell_count(
        bilqarush::first_partition_including_or_after_key(index, key),
        partition,
    )
}

#[unsafe(no_mangle)]
#[tactic(auto, using(crate::proofs::LookupExits::lookup_exits))]
pub extern "C" fn bilqarush_last_partition_including_key<'a>(
    index: &'a [u8],
    key: &'a [u8],
    found: &mut bool,
    partition: &mut usize,
) -> u8
    ensures { OptionTold (last_partition_including_key_outcome index.now key.now) (held found) (held partition) result }
{
    told::tell_found(
        bilqarush::last_partition_including_key(index, key),
        found,
        partition,
    )
}

#[unsafe(no_mangle)]
#[tactic(auto, using(crate::proofs::LookupExits::lookup_exits))]
pub extern "C" fn bilqarush_partitions_covering_range<'a>(
    index: &'a [u8],
    range: &'a [u8],
    start: &mut usize,
    end: &mut usize,
) -> u8
    ensures { CoveredTold (partitions_covering_range_outcome index.now range.now) (held start) (held end) result }
{
    told::tell_covered(
        bilqarush::partitions_covering_range(index, range),
        start,
        end,
    )
}
