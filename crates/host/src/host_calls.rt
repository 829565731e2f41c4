// Calls on a table that a host lends as its bytes: each decodes the table, makes the call by value, and encodes only what was accepted. Each
// tests the length and decodes by itself: a function that took the call as a closure would need longer clauses, over both lent slices.
ghost use Rattle.std.specs.Prelude.{◌≡◌, min, length};
ghost use Rattle.supervisor.specs.Calls as calls;
ghost use Rattle.supervisor.specs.Calls.{drained_count};
ghost use Rattle.common.specs.Refusals.{refusal_in};
ghost use Rattle.queries.specs.Queries.{report_answer};
ghost use Rattle.table.specs.Table.{answer_in};
ghost use Rattle.encoding.specs.TableEncoding.{table_length};
ghost use Rattle.host.specs.HostCalls.{answer_of, count_given, buffer_outcome, table_bytes_after, host_buffers, host_outcome, host_drained_buffer, host_new, host_outcome_of, host_report, host_backlog, host_fit, lent_system, report_bytes};

use common::{Location, Refusal};
use encoding::{TABLE_LENGTH, decode_table, store_table};
use queries::Report;
use table::{RefusedCall, Table};

// How many bytes a report has.
const REPORT_LENGTH: usize = 12;

// A count, or why the call is refused, in one number: the refusal's number, 0 for none, and the count.
pub(crate) fn answer(given: Result<u16, Refusal>) -> u32
    ensures { result ≡ answer_of (refusal_in given) (count_given given) }
{
    match given {
        Ok(count) => count as u32,
        Err(refusal) => refusal.number() as u32 * 65536,
    }
}

// Writes the table's bytes anew where the call was accepted, and answers with the count 0.
#[tactic(auto, using(crate::proofs::HostCallLaws::stored_accepted, crate::proofs::HostCallLaws::kept_refused))]
fn store_accepted(bytes: &mut [u8], done: Result<Table, RefusedCall>) -> u32
    requires { length bytes.old ≡ table_length }
    ensures value { result ≡ answer_of (answer_in done).refusal 0 }
    ensures bytes_after { bytes.new ≡ table_bytes_after (answer_in done).refusal (answer_in done).table bytes.old }
{
    match done {
        Ok(table) => {
            store_table(bytes, table);
            answer(Ok(0))
        }
        Err(refused) => answer(Err(refused.refusal)),
    }
}

// A new table for a memory of that length. A refusal leaves the buffer.
#[tactic(auto, using(crate::proofs::HostCallLaws::new_other, crate::proofs::HostCallLaws::new_made))]
#[unsafe(no_mangle)]
pub extern "C" fn pf_new(table: &mut [u8], length: usize) -> u32
    ensures { buffer_outcome result table.new ≡ host_new length table.old }
{
    if table.len() != TABLE_LENGTH {
        return answer(Err(Refusal::NotSound));
    }
    store_accepted(table, Table::new(length))
}

// The location of that number. Every location from the longest memory's length on is refused alike, so one stands for all of them.
fn clamp_location(location: usize) -> Location
    ensures { result.0 ≡ min location 65536 }
{
    Location(location.min(Table::MAX_MEMORY) as u32)
}

// Loads a pattern file into an empty slot.
#[tactic(auto, using(crate::proofs::HostCallLaws::other_length))]
#[unsafe(no_mangle)]
pub extern "C" fn pf_load(
    table: &mut [u8],
    memory: &mut [u8],
    slot: usize,
    location: usize,
    file: &[u8],
) -> u32
    ensures { host_outcome result table.new memory.new ≡ host_outcome_of (calls.change slot (calls.load (record { 0 = location }) file.now)) 0 (host_buffers table.old memory.old) }
{
    if table.len() != TABLE_LENGTH {
        return answer(Err(Refusal::NotSound));
    }
    let before = decode_table(table);
    let done = supervisor::load(before, memory, slot, clamp_location(location), file);
    store_accepted(table, done)
}

// Empties a slot, and sets its partition's bytes to zero.
#[tactic(auto, using(crate::proofs::HostCallLaws::other_length))]
#[unsafe(no_mangle)]
pub extern "C" fn pf_unload(table: &mut [u8], memory: &mut [u8], slot: usize) -> u32
    ensures { host_outcome result table.new memory.new ≡ host_outcome_of (calls.change slot calls.unload) 0 (host_buffers table.old memory.old) }
{
    if table.len() != TABLE_LENGTH {
        return answer(Err(Refusal::NotSound));
    }
    let before = decode_table(table);
    let done = supervisor::unload(before, memory, slot);
    store_accepted(table, done)
}

// Gives a pattern new input.
#[tactic(auto, using(crate::proofs::HostCallLaws::other_length))]
#[unsafe(no_mangle)]
pub extern "C" fn pf_feed(table: &mut [u8], memory: &mut [u8], slot: usize, input: &[u8]) -> u32
    ensures { host_outcome result table.new memory.new ≡ host_outcome_of (calls.change slot (calls.feed input.now)) 0 (host_buffers table.old memory.old) }
{
    if table.len() != TABLE_LENGTH {
        return answer(Err(Refusal::NotSound));
    }
    let before = decode_table(table);
    let done = supervisor::feed(before, memory, slot, input);
    store_accepted(table, done)
}

// Takes what a pattern has put out to the buffer's front. The count is how many bytes.
#[tactic(auto, using(crate::proofs::HostCallLaws::other_length, crate::proofs::HostCallLaws::buffer_left))]
#[unsafe(no_mangle)]
pub extern "C" fn pf_drain(table: &mut [u8], memory: &[u8], slot: usize, buffer: &mut [u8]) -> u32
    ensures memory_after { host_outcome result table.new memory.now ≡ host_outcome_of (calls.change slot (calls.drain (length buffer.old))) (drained_count (lent_system table.old memory.now) slot (length buffer.old)) (host_buffers table.old memory.now) }
    ensures buffer_after { buffer.new ≡ host_drained_buffer table.old memory.now slot buffer.old }
{
    if table.len() != TABLE_LENGTH {
        return answer(Err(Refusal::NotSound));
    }
    let before = decode_table(table);
    match supervisor::drain(before, memory, slot, buffer) {
        Ok(drained) => store_accepted(table, Ok(drained.table)) + drained.count as u32,
        Err(refused) => store_accepted(table, Err(refused)),
    }
}

// Makes so many rounds.
#[tactic(auto, using(crate::proofs::HostCallLaws::other_length))]
#[unsafe(no_mangle)]
pub extern "C" fn pf_run(table: &mut [u8], memory: &mut [u8], rounds: u16) -> u32
    ensures { host_outcome result table.new memory.new ≡ host_outcome_of (calls.run rounds) 0 (host_buffers table.old memory.old) }
{
    if table.len() != TABLE_LENGTH {
        return answer(Err(Refusal::NotSound));
    }
    let before = decode_table(table);
    let done = supervisor::run(before, memory, rounds);
    store_accepted(table, done)
}

fn encode_report(r: Report) -> [u8; REPORT_LENGTH]
    ensures { result ≡ report_bytes (report_answer r) }
{
    let [high, low] = r.counter.to_be_bytes();
    let [r0, r1, r2, r3, r4, r5, r6] = r.registers;
    [
        r.status, high, low, r0, r1, r2, r3, r4, r5, r6, r.psu, r.psl,
    ]
}

// The report to the buffer's front.
#[tactic(auto, using(crate::proofs::HostCallLaws::report_other))]
#[unsafe(no_mangle)]
pub extern "C" fn pf_report(table: &[u8], slot: usize, report: &mut [u8]) -> u32
    ensures { buffer_outcome result report.new ≡ host_report table.now slot report.old }
{
    if table.len() != TABLE_LENGTH {
        return answer(Err(Refusal::NotSound));
    }
    let made = match queries::report(decode_table(table), slot) {
        Ok(made) => made,
        Err(refusal) => return answer(Err(refusal)),
    };
    if report.len() < REPORT_LENGTH {
        return answer(Err(Refusal::Short));
    }
    slices::copy(report, 0, &encode_report(made));
    answer(Ok(0))
}

// Which slot has how many bytes to drain, most first, and the total, to the buffer's front. The count is how many bytes that fills.
#[tactic(auto, using(crate::proofs::HostCallLaws::backlog_other))]
#[unsafe(no_mangle)]
pub extern "C" fn pf_backlog(table: &[u8], buffer: &mut [u8]) -> u32
    ensures { buffer_outcome result buffer.new ≡ host_backlog table.now buffer.old }
{
    if table.len() != TABLE_LENGTH {
        return answer(Err(Refusal::NotSound));
    }
    match queries::backlog(decode_table(table), buffer) {
        Ok(length) => answer(Ok(length as u16)),
        Err(refusal) => answer(Err(refusal)),
    }
}

// Where a partition of that size fits best. The count is the start.
#[tactic(auto, using(crate::proofs::HostCallLaws::fit_other, crate::proofs::HostCallLaws::fit_made))]
#[unsafe(no_mangle)]
pub extern "C" fn pf_fit(table: &[u8], size: usize) -> u32
    ensures { result ≡ host_fit table.now size }
{
    if table.len() != TABLE_LENGTH {
        return answer(Err(Refusal::NotSound));
    }
    match queries::fit(decode_table(table), size) {
        Ok(start) => answer(Ok(start.0 as u16)),
        Err(why) => answer(Err(why)),
    }
}
