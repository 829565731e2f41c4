// The free bytes of a table: how many there are, and how many the widest free extent has. Every call tests both, so they are found from the
// eight partitions alone, without a list of extents. They are what is meant if the slots are sound.
ghost use Rattle.std.specs.Prelude.{true, ◌≡◌};
ghost use Rattle.table.specs.FreeBytes.{is_counted};
ghost use Rattle.table.specs.Gaps.{bytes_left_below, end_before, gap_end_below, gap_from, widest_gap_below, counted_by_partitions};
ghost use Rattle.table.specs.Sound.{slots_sound};

use crate::table::{Partition, Table};

// What the partitions leave of the memory's length: how many bytes no partition has.
#[tactic(auto, unfolding(crate::specs::Gaps::bytes_left_below, crate::specs::Table::slot_at))]
fn bytes_left(table: Table) -> usize
    ensures { result ≡ bytes_left_below table 8 }
{
    let mut free = table.size as usize;
    for slot in &table.slots {
        free = free.saturating_sub(slot.partition.layout.size());
    }
    free
}

// Where a run of bytes from `from` on ends: at `end`, or where the partition starts, if that is lower. A partition that ends at `from` or
// below does not count.
#[tactic(auto, using(common::specs::TestLaws::tests), unfolding(common::specs::ConditionDefinitions::condition_definitions, crate::specs::Gaps::end_before))]
fn end_before(p: Partition, from: usize, end: usize) -> usize
    ensures { result ≡ end_before p from end }
{
    if from < p.end() {
        end.min(p.base.0 as usize)
    } else {
        end
    }
}

// Where the run of bytes from `from` on ends, before the next partition or with the memory.
#[tactic(auto, unfolding(crate::specs::Gaps::gap_end_below, crate::specs::Table::slot_at))]
fn gap_end(table: Table, from: usize) -> usize
    ensures { result ≡ gap_end_below table from 8 }
{
    let mut end = table.size as usize;
    for slot in &table.slots {
        end = end_before(slot.partition, from, end);
    }
    end
}

// How many bytes that run has.
fn gap_from(table: Table, from: usize) -> usize
    ensures { result ≡ gap_from table from }
{
    gap_end(table, from).saturating_sub(from)
}

// How many bytes the widest run has, which is the widest free extent. One starts at 0 or behind a partition. An empty slot's partition ends
// at 0.
#[tactic(auto, unfolding(crate::specs::Gaps::widest_gap_below, crate::specs::Table::slot_at))]
fn widest_gap(table: Table) -> usize
    ensures { result ≡ widest_gap_below table 8 }
{
    let mut widest = gap_from(table, 0);
    for slot in &table.slots {
        widest = widest.max(gap_from(table, slot.partition.end()));
    }
    widest
}

// Whether the table's two numbers are those of its free bytes.
#[tactic(auto, using(crate::proofs::GapLaws::left_free, crate::proofs::GapLaws::gaps_widest, crate::specs::SoundLaws::slots_fact), unfolding(crate::specs::FreeBytes::is_counted))]
pub(crate) fn is_counted(table: Table) -> bool
    requires { slots_sound table ≡ true }
    ensures { result ≡ is_counted table }
{
    (table.free as usize == bytes_left(table)) & (table.widest as usize == widest_gap(table))
}

// The table with its free bytes counted. It takes every table; what it counts is `counted` if the slots are sound (`counted-by-partitions`).
#[tactic(auto, using(crate::proofs::GapLaws::left_within, crate::proofs::GapLaws::gaps_within))]
pub fn count_free(table: Table) -> Table
    ensures { result ≡ counted_by_partitions table }
{
    Table {
        free: bytes_left(table) as u32,
        widest: widest_gap(table) as u32,
        ..table
    }
}
