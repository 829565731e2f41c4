// The table and its parts, by value; a new table.
ghost use Rattle.std.specs.Prelude.{◌≡◌};
ghost use Rattle.table.specs.Table.{answer_in, empty_partition, partition_end, is_empty, empty_slot, with_slot, empty_table, new_refusal, new_table};

use common::{Address, Layout, Location, Refusal, is_one_to};
use registers::{Cpu, State, Status};

// What stays of a slot from load to unload (document 01's bay): where its bytes start in memory, how they are divided, and how many
// steps it takes in a round (document 01's stint).
#[derive(Clone, Copy, Debug, PartialEq, Eq)]
pub struct Partition {
    pub base: Location,
    pub layout: Layout,
    pub quantum: u8,
}

impl Partition {
    // No bytes, at 0.
    pub(crate) fn empty() -> Partition
        ensures { result ≡ empty_partition }
    {
        let layout = Layout {
            window: 0,
            input: 0,
            output: 0,
            locked: 0,
        };
        Partition {
            base: Location(0),
            layout,
            quantum: 0,
        }
    }

    // The location behind its last byte. Every call works out many, so the layout is read field by field: a copy of its eight bytes would be
    // one word, to be taken apart again.
    pub fn end(self) -> usize
        ensures { result ≡ partition_end self }
    {
        self.base.0 as usize
            + self.layout.window as usize
            + self.layout.input as usize
            + self.layout.output as usize
    }
}

// Document 01's station: its partition, and what runs in it.
#[derive(Clone, Copy, Debug, PartialEq, Eq)]
pub struct Slot {
    pub partition: Partition,
    pub state: State,
}

impl Slot {
    #[tactic(auto, unfolding(crate::specs::Table::empty_slot))]
    pub fn empty() -> Slot
        ensures { result ≡ empty_slot }
    {
        Slot {
            partition: Partition::empty(),
            state: State::empty(Cpu::fresh(Address(0))),
        }
    }

    // Whether it holds no pattern.
    pub fn is_empty(self) -> bool
        ensures { result ≡ is_empty self }
    {
        self.state.status == Status::Empty.number()
    }
}

// Document 01's record: the length of the memory, how many of its bytes are in no partition, the length of the widest free extent (document
// 02, U5), and eight slots.
#[derive(Clone, Copy)]
pub struct Table {
    pub size: u32,
    pub free: u32,
    pub widest: u32,
    pub slots: [Slot; Table::SLOTS],
}

// A refused call: why, and the table that it was given. A refused `Table::new`, which is given none, has an all-zero one.
#[derive(Clone, Copy)]
pub struct RefusedCall {
    pub refusal: Refusal,
    pub table: Table,
}

impl Table {
    // How many slots there are, and the length of the longest memory.
    pub const SLOTS: usize = 8;

    pub const MAX_MEMORY: usize = 65536;

    fn empty(size: u32) -> Table
        ensures { result ≡ empty_table size }
    {
        Table {
            size,
            free: size,
            widest: size,
            slots: [Slot::empty(); Table::SLOTS],
        }
    }

    // Document 01's fresh record, for a memory of that length, which it does not touch.
    #[tactic(auto, unfolding(common::specs::ConditionDefinitions::condition_definitions, crate::specs::Table::new_refusal, crate::specs::Table::new_table))]
    pub fn new(length: usize) -> Result<Table, RefusedCall>
        ensures refusal_value { (answer_in result).refusal ≡ new_refusal length }
        ensures table_value { (answer_in result).table ≡ new_table length }
    {
        if !is_one_to(length, Table::MAX_MEMORY) {
            return Err(RefusedCall {
                refusal: Refusal::OtherLength,
                table: Table::empty(0),
            });
        }
        Ok(Table::empty(length as u32))
    }

    // The table with another slot there, and the same table past its slots.
    #[tactic(auto, unfolding(crate::specs::Table::with_slot))]
    pub fn with_slot(self, slot: usize, s: Slot) -> Table
        ensures { result ≡ with_slot self slot s }
    {
        let mut next = self;
        if slot < Table::SLOTS {
            next.slots[slot] = s;
        }
        next
    }
}
