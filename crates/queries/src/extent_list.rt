// The free extents of a memory: the runs of bytes that no partition takes, in rising order. What they cost to find depends on the eight
// slots, and not on the memory's length.
ghost use Rattle.std.specs.Prelude.{true, ◌++◌, ◌≡◌, ◌≤◌, length};
ghost use Rattle.table.specs.Extents.{extent_size, extent_between, without_partition, each_without, free_extents};
ghost use Rattle.table.specs.Sound.{slots_sound};

use arrayvec::ArrayVec;
use table::{Extent, Partition, Table};

// How many bytes an extent has.
pub(crate) fn extent_size(e: Extent) -> usize
    ensures { result ≡ extent_size e }
{
    e.end.saturating_sub(e.start)
}

// Puts an extent behind the others, unless it has no byte. Eight partitions leave at most nine extents.
#[tactic(auto, using(common::specs::TestLaws::tests), unfolding(table::specs::Extents::extent_between, common::specs::ConditionDefinitions::condition_definitions))]
fn push_extent(list: &mut ArrayVec<Extent, 9>, start: usize, end: usize)
    requires { length (list.old.items ++ extent_between start end) ≤ 9 }
    ensures { list.new.items ≡ list.old.items ++ extent_between start end }
{
    if start < end {
        list.push(Extent { start, end });
    }
}

// Puts what is left of an extent without the partition's bytes behind the others: what lies below them, and what lies above.
#[tactic(auto, using(crate::proofs::ExtentListLaws::lower_room), unfolding(table::specs::Extents::without_partition))]
fn push_without(list: &mut ArrayVec<Extent, 9>, p: Partition, e: Extent)
    requires { length (list.old.items ++ without_partition p e) ≤ 9 }
    ensures { list.new.items ≡ list.old.items ++ without_partition p e }
{
    push_extent(list, e.start, e.end.min(p.base.0 as usize));
    push_extent(list, e.start.max(p.end()), e.end);
}

// What is left of each extent.
#[tactic(auto, using(crate::proofs::ExtentListLaws::each_more, crate::proofs::ExtentListLaws::each_room), unfolding(table::specs::Extents::each_without))]
fn each_without(p: Partition, extents: &[Extent]) -> ArrayVec<Extent, 9>
    requires { length (each_without p extents.now) ≤ 9 }
    ensures { result.items ≡ each_without p extents.now }
{
    let mut left = ArrayVec::new();
    for e in extents {
        push_without(&mut left, p, *e);
    }
    left
}

// The free extents of a table whose slots are sound: the memory without the partition of each loaded slot.
#[tactic(auto, using(crate::proofs::ExtentListLaws::below_taken, crate::proofs::ExtentListLaws::below_skipped, crate::proofs::ExtentListLaws::below_room, table::specs::ExtentLaws::extent_few, table::specs::SoundLaws::slots_fact), unfolding(table::specs::Extents::without_slots_below, table::specs::Table::slot_at))]
pub(crate) fn free_extents(table: Table) -> ArrayVec<Extent, 9>
    requires { slots_sound table ≡ true }
    ensures { result.items ≡ free_extents table }
{
    let mut list = ArrayVec::new();
    push_extent(&mut list, 0, table.size as usize);
    for slot in &table.slots {
        if !slot.is_empty() {
            list = each_without(slot.partition, &list);
        }
    }
    list
}
