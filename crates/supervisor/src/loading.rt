// Loading: a pattern file into an empty slot and its partition.
ghost use Rattle.std.specs.Prelude.{◌≡◌, IfOk, Ok};
ghost use Rattle.common.specs.Refusals.{refusal_by, refusal_in};
ghost use Rattle.pattern.specs.Reader.{read_result, read_of};
ghost use Rattle.supervisor.specs.Calls as calls;
ghost use Rattle.system.specs.System.{answer_outcome, system, patched};
ghost use Rattle.supervisor.specs.Calls.{refusal, outcome_of};
ghost use Rattle.supervisor.specs.Loading.{partition_for, location_conditions, load_patch};

use common::{Location, Refusal};
use pattern::Parameters;
use system::check_system_empty_slot;
use table::{Partition, RefusedCall, Slot, Table, count_free, is_clear_of_others};

#[tactic(auto, unfolding(crate::specs::Loading::partition_for))]
fn partition_for(location: Location, parameters: Parameters) -> Partition
    ensures { result ≡ partition_for location parameters }
{
    Partition {
        base: location,
        layout: parameters.layout,
        quantum: parameters.quantum,
    }
}

// What refuses a partition: it ends past the memory, or meets another.
#[tactic(auto, using(common::specs::TestLaws::tests), unfolding(common::specs::ConditionDefinitions::condition_definitions, crate::specs::Loading::location_conditions))]
fn check_location(table: Table, slot: usize, p: Partition) -> Result<(), Refusal>
    ensures { refusal_in result ≡ refusal_by (location_conditions table slot p) }
{
    if (table.size as usize) < p.end() {
        return Err(Refusal::PastEnd);
    }
    if !is_clear_of_others(table, slot, p) {
        return Err(Refusal::Meets);
    }
    Ok(())
}

// What refuses a load, in the table's order: slot, file, location. Else the file's parameters.
fn check_load(
    table: Table,
    memory: &[u8],
    slot: usize,
    location: Location,
    file: &[u8],
) -> Result<Parameters, Refusal>
    ensures refusal { refusal_in result ≡ refusal (calls.change slot (calls.load location file.now)) (system table memory.now) }
    ensures parameters { IfOk result (λ parameters. read_of file.now ≡ read_result (Ok parameters)) }
{
    check_system_empty_slot(table, memory, slot)?;
    let parameters = pattern::read(file)?;
    check_location(table, slot, partition_for(location, parameters))?;
    Ok(parameters)
}

// The accepted load: the partition's bytes, and a table with the slot taken.
fn load_slot(
    table: Table,
    memory: &mut [u8],
    slot: usize,
    location: Location,
    parameters: Parameters,
    file: &[u8],
) -> Table
    requires { read_of file.now ≡ read_result (Ok parameters) }
    ensures { system result memory.new ≡ patched (system table memory.old) slot (load_patch location file.now) }
{
    loader::put_fresh_bytes(file, memory, location);
    let input = pattern::input_body(file);
    let partition = partition_for(location, parameters);
    let state = loader::fresh_state(parameters, input.len() as u16);
    table.with_slot(slot, Slot { partition, state })
}

// Document 01's mount.
pub fn load(
    table: Table,
    memory: &mut [u8],
    slot: usize,
    location: Location,
    file: &[u8],
) -> Result<Table, RefusedCall>
    ensures { answer_outcome result memory.new ≡ outcome_of (calls.change slot (calls.load location file.now)) (system table memory.old) }
{
    let parameters = check_load(table, memory, slot, location, file).map_err(|refusal| RefusedCall {
        refusal,
        table,
    })?;
    let next = load_slot(table, memory, slot, location, parameters, file);
    Ok(count_free(next))
}
