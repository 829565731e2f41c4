// Reporting on a slot.
ghost use Rattle.std.specs.Prelude.{◌≡◌, ◌<◌};
ghost use Rattle.queries.specs.Queries.{report_answer_in, report_of};
ghost use Rattle.queries.specs.Reporting.{reported_psu};

use crate::reported::Report;
use common::Refusal;
use registers::State;
use table::{Table, check_loaded_slot, check_table};

// PSU with Sense, which is never stored: the stored one is below 128.
#[tactic(auto, using(common::specs::TestLaws::tests), unfolding(common::specs::ConditionDefinitions::condition_definitions, registers::specs::Cpu::psu_with_sense, registers::specs::Cpu::psu_of))]
fn reported_psu(s: State) -> u8
    requires { s.cpu.psu < 128 }
    ensures { result ≡ reported_psu s }
{
    if s.read < s.filled {
        s.cpu.psu + 128
    } else {
        s.cpu.psu
    }
}

// Document 01's report. It takes no memory.
pub fn report(table: Table, slot: usize) -> Result<Report, Refusal>
    ensures { report_answer_in result ≡ report_of table slot }
{
    check_table(table)?;
    check_loaded_slot(table, slot)?;
    let state = table.slots[slot].state;
    let cpu = state.cpu;
    let registers = cpu.registers;
    Ok(Report {
        status: state.status,
        counter: cpu.counter,
        registers,
        psu: reported_psu(state),
        psl: cpu.psl,
    })
}
