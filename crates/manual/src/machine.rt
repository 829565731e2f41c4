// A machine for an example: a state, and a window that is the whole of a lent array, without buffers.
use common::{Address, Layout};
use registers::{Cpu, State, Status};

// A slice that is shorter than the layout is all window.
const LAYOUT: Layout = Layout {
    window: 32768,
    input: 0,
    output: 0,
    locked: 0,
};

#[derive(Clone, Copy)]
pub(crate) struct Example {
    state: State,
}

impl Example {
    // About to run the instruction at an address; all else is as in a fresh machine.
    pub(crate) fn at(counter: u16) -> Example {
        Example {
            state: State {
                status: Status::Running.number(),
                ..State::empty(Cpu::fresh(Address(counter)))
            },
        }
    }

    pub(crate) fn with_r0(mut self, value: u8) -> Example {
        self.state.cpu.registers[0] = value;
        self
    }

    pub(crate) fn with_r1(mut self, value: u8) -> Example {
        self.state.cpu.registers[1] = value;
        self
    }

    pub(crate) fn with_psl(mut self, value: u8) -> Example {
        self.state.cpu.psl = value;
        self
    }

    pub(crate) fn run(self, window: &mut [u8], steps: u64) -> Example {
        Example {
            state: cpu::run(self.state, window, LAYOUT, steps),
        }
    }

    pub(crate) fn step(self, window: &mut [u8]) -> Example {
        Example {
            state: cpu::step(self.state, window, LAYOUT),
        }
    }

    pub(crate) fn counter(self) -> u16 {
        self.state.cpu.counter
    }

    pub(crate) fn r0(self) -> u8 {
        self.state.cpu.registers[0]
    }

    pub(crate) fn r1(self) -> u8 {
        self.state.cpu.registers[1]
    }

    pub(crate) fn r2(self) -> u8 {
        self.state.cpu.registers[2]
    }

    // The return address that a first call stores: SP is 1.
    pub(crate) fn first_return(self) -> u16 {
        self.state.cpu.returns[1]
    }

    pub(crate) fn sp(self) -> u8 {
        self.state.cpu.psu % 8
    }

    pub(crate) fn carry(self) -> bool {
        self.state.cpu.psl % 2 == 1
    }

    pub(crate) fn overflow(self) -> bool {
        self.state.cpu.psl / 4 % 2 == 1
    }
}
