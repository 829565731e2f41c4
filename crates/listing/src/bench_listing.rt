// The bench run: a pattern file in, its text out.
ghost use Rattle.std.specs.Prelude.{false, ◌++◌, ◌≡◌, ◌≤◌, length, drop, IfOk};
ghost use Rattle.system.specs.System.{system, slot_of};
ghost use Rattle.system.specs.ConditionLaws.{SoundSystem};
ghost use Rattle.table.specs.Table.{is_empty};
ghost use Rattle.listing.specs.BenchListing.{longest_text, listing_outcome_in, listing_of, lines_after, text_of, memory_after};

use crate::text::{put_lines, put_refused};
use crate::until_stopped::run_until_stopped;
use common::{Location, Refusal};
use table::Table;

// The length of the longest text, which is that of two lines with 4,096 bytes of output; of the memory; and of the longest file.
pub const MAX_TEXT: usize = 12326;

pub const MEMORY_LENGTH: usize = 40960;

pub const MAX_FILE: usize = 36897;

// The two lines of a system whose slot 0 is loaded: reported on first, and then drained.
fn put_report_and_output(table: Table, memory: &[u8], text: &mut [u8]) -> usize
    requires sound_system { SoundSystem (system table memory.now) }
    requires memory_value { is_empty (slot_of (system table memory.now) 0) ≡ false }
    requires longest_text_in_bounds { longest_text ≤ length text.old }
    ensures value { result ≡ length (lines_after (system table memory.now)) }
    ensures text_after { text.new ≡ lines_after (system table memory.now) ++ drop result text.old }
    ensures upper_bound { result ≤ longest_text }
{
    let Ok(report) = queries::report(table, 0) else {
        unreachable!()
    };
    let mut output = [0u8; 4096];
    let Ok(drained) = supervisor::drain(table, memory, 0, &mut output) else {
        unreachable!()
    };
    put_lines(report, slices::front(&output, drained.count), text)
}

// The text of a file.
fn put_text(file: &[u8], memory: &mut [u8], text: &mut [u8]) -> usize
    requires memory_len { length memory.old ≡ 40960 }
    requires longest_text_in_bounds { longest_text ≤ length text.old }
    ensures value { result ≡ length (text_of file.now memory.old) }
    ensures memory_after { memory.new ≡ memory_after file.now memory.old }
    ensures text_after { text.new ≡ text_of file.now memory.old ++ drop result text.old }
    ensures upper_bound { result ≤ longest_text }
{
    if MAX_FILE < file.len() {
        return put_refused(Refusal::Frame, text);
    }
    let Ok(empty) = Table::new(MEMORY_LENGTH) else {
        unreachable!()
    };
    let table = match supervisor::load(empty, memory, 0, Location(0), file) {
        Ok(table) => table,
        Err(refused) => return put_refused(refused.refusal, text),
    };
    let end = run_until_stopped(table, memory);
    put_report_and_output(end, memory, text)
}

// The bench run. Whether there is room is a test of the buffer's length alone, made before anything is touched, so that a refusal
// changes neither the memory nor the buffer. The equation gives the length; that it is never above the longest is said beside it for
// callers that keep it in 16 bits.
pub fn listing(file: &[u8], memory: &mut [u8], text: &mut [u8]) -> Result<usize, Refusal>
    ensures text_after { listing_outcome_in result memory.new text.new ≡ listing_of file.now memory.old text.old }
    ensures length_le_longest_text { IfOk result (λ length. length ≤ longest_text) }
{
    if text.len() < MAX_TEXT {
        return Err(Refusal::Short);
    }
    if memory.len() != MEMORY_LENGTH {
        return Err(Refusal::OtherLength);
    }
    Ok(put_text(file, memory, text))
}
