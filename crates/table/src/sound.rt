// Whether a table is sound, in the shape of its definition. The numbers of a partition and of a state are tested without a branch. An empty
// slot is not tested as a loaded one too: every call tests all eight. The two loops carry a Bool, since the check does not find the proof of
// `.enumerate().all(..)`.
ghost use Rattle.std.specs.Prelude.{◌≡◌};
ghost use Rattle.common.specs.Tests.{all_below};
ghost use Rattle.table.specs.Table.{slot_at};
ghost use Rattle.table.specs.Sound.{all_fifteen_bits, partition_sound, state_sound, is_zero_partition, is_zero_state, slot_sound, are_apart, is_clear_of_others, slots_sound, table_sound};

use crate::free_bytes::is_counted;
use crate::table::{Partition, Slot, Table};
use common::{Address, Layout, is_one_to};
use registers::{Cpu, State, Status, stored_psu};

#[tactic(auto, unfolding(crate::specs::Sound::partition_sound, common::specs::Tests::and_all))]
fn partition_sound(size: u32, p: Partition) -> bool
    ensures { result ≡ partition_sound size p }
{
    let layout = p.layout;
    layout.is_sound() & is_one_to(p.quantum as usize, 255) & (p.end() <= size as usize)
}

// Whether each address has fifteen bits.
#[tactic(auto, unfolding(crate::specs::Sound::all_fifteen_bits))]
fn all_fifteen_bits(l: &[u16]) -> bool
    ensures { result ≡ all_fifteen_bits l.now }
{
    l.iter().all(|a| *a < 32768)
}

#[tactic(auto, unfolding(crate::specs::Sound::state_sound, common::specs::Tests::and_all))]
fn state_sound(layout: Layout, s: State) -> bool
    ensures { result ≡ state_sound layout s }
{
    let cpu = s.cpu;
    let returns = cpu.returns;
    is_one_to(s.status as usize, State::LAST_STATUS as usize)
        & (cpu.counter < 32768)
        & all_fifteen_bits(&returns)
        & (stored_psu(cpu.psu) == cpu.psu)
        & (s.read <= s.filled)
        & (s.filled <= layout.input)
        & (s.written <= layout.output)
        & ((s.status != Status::WantsInput.number()) | (s.read == s.filled))
        & ((s.status != Status::OutputFull.number()) | (s.written == layout.output))
}

#[tactic(auto, using(crate::proofs::ZeroLaws::zero_partition_tests))]
fn is_zero_partition(p: Partition) -> bool
    ensures { result ≡ is_zero_partition p }
{
    p == Partition::empty()
}

#[tactic(auto, using(crate::proofs::ZeroLaws::zero_state_tests), unfolding(registers::specs::Cpu::fresh_cpu))]
fn is_zero_state(s: State) -> bool
    ensures { result ≡ is_zero_state s }
{
    s == State::empty(Cpu::fresh(Address(0)))
}

#[tactic(auto, unfolding(crate::specs::Sound::slot_sound))]
fn slot_sound(size: u32, s: Slot) -> bool
    ensures { result ≡ slot_sound size s }
{
    let p = s.partition;
    is_zero_partition(p) && is_zero_state(s.state)
        || partition_sound(size, p) && state_sound(p.layout, s.state)
}

// Whether two partitions do not meet.
#[tactic(auto, unfolding(crate::specs::Sound::are_apart))]
fn are_apart(p: Partition, q: Partition) -> bool
    ensures { result ≡ are_apart p q }
{
    let base = p.base;
    let start = q.base;
    (p.end() <= start.0 as usize) | (q.end() <= base.0 as usize)
}

// Whether `p` meets the partition of no slot but one.
#[tactic(auto, using(common::specs::AllBelowLaws::all_none, common::specs::AllBelowLaws::all_more), unfolding(crate::specs::Sound::is_clear_of_others, crate::specs::Table::slot_at))]
pub fn is_clear_of_others(table: Table, except: usize, p: Partition) -> bool
    ensures { result ≡ is_clear_of_others table except p }
{
    let mut ok = true;
    for (j, slot) in table.slots.iter().enumerate() {
        ok &= (j == except) | are_apart(slot.partition, p);
    }
    ok
}

#[tactic(auto, unfolding(crate::specs::Table::slot_at))]
fn each_slot_sound(table: Table) -> bool
    ensures { result ≡ all_below 8 (λ k. slot_sound table.size (slot_at table k)) }
{
    table.slots.iter().all(|slot| slot_sound(table.size, *slot))
}

#[tactic(auto, using(common::specs::AllBelowLaws::all_none, common::specs::AllBelowLaws::all_more), unfolding(crate::specs::Table::slot_at))]
fn slots_apart(table: Table) -> bool
    ensures { result ≡ all_below 8 (λ k. is_clear_of_others table k (slot_at table k).partition) }
{
    let mut ok = true;
    for (k, slot) in table.slots.iter().enumerate() {
        ok &= is_clear_of_others(table, k, slot.partition);
    }
    ok
}

// Whether the slots are sound, and the memory's length. That there are eight slots is their type.
#[tactic(auto, using(common::specs::TestLaws::and_true), unfolding(crate::specs::Sound::slots_sound, common::specs::Tests::and_all))]
pub(crate) fn slots_sound(table: Table) -> bool
    ensures { result ≡ slots_sound table }
{
    is_one_to(table.size as usize, Table::MAX_MEMORY) & each_slot_sound(table) & slots_apart(table)
}

// Whether the table is sound. Its free bytes are counted only if its slots are sound.
#[tactic(auto, unfolding(crate::specs::Sound::table_sound))]
pub(crate) fn table_sound(table: Table) -> bool
    ensures { result ≡ table_sound table }
{
    if !slots_sound(table) {
        return false;
    }
    is_counted(table)
}
