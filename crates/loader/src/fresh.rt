// A fresh machine: its state, and the bytes of its partition.
ghost use Rattle.std.specs.Prelude.{◌++◌, ◌≡◌, ◌≤◌, length, replicate};
ghost use Rattle.common.specs.Layout.{layout_size};
ghost use Rattle.pattern.specs.Image.{padded};
ghost use Rattle.slices.specs.Slices.{copied};
ghost use Rattle.loader.specs.Fresh.{fresh_state, fresh_bytes};

use common::{Layout, Location};
use pattern::Parameters;
use registers::{Cpu, State, Status};

// A machine at the start address, with so many bytes unread.
#[tactic(auto, unfolding(crate::specs::Fresh::fresh_state))]
pub fn fresh_state(parameters: Parameters, filled: u16) -> State
    ensures { result ≡ fresh_state parameters filled }
{
    State {
        status: Status::Running.number(),
        filled,
        ..State::empty(Cpu::fresh(parameters.start))
    }
}

// Fills a part with the given bytes, and zeros behind them.
fn put_padded(part: &mut [u8], bytes: &[u8])
    requires { length bytes.now ≤ length part.old }
    ensures { part.new ≡ padded (length part.old) bytes.now }
{
    let (front, rest) = part.split_at_mut(bytes.len());
    slices::copy(front, 0, bytes);
    rest.fill(0);
}

// Fills a whole partition, part behind part.
fn put_parts(partition: &mut [u8], layout: Layout, code: &[u8], input: &[u8])
    requires code_len_bound { length code.now ≤ layout.window }
    requires input_len_bound { length input.now ≤ layout.input }
    requires partition_len { length partition.old ≡ layout_size layout }
    ensures { partition.new ≡ padded layout.window code.now ++ padded layout.input input.now ++ replicate layout.output 0 }
{
    let (window, buffers) = partition.split_at_mut(layout.window as usize);
    let (input_buffer, output_buffer) = buffers.split_at_mut(layout.input as usize);
    put_padded(window, code);
    put_padded(input_buffer, input);
    output_buffer.fill(0);
}

// Writes the partition of a file at a location: all of it, or nothing where the file is refused or the partition would pass the end.
pub fn put_fresh_bytes(file: &[u8], memory: &mut [u8], location: Location)
    ensures { memory.new ≡ copied memory.old location.0 (fresh_bytes file.now) }
{
    let Ok(parameters) = pattern::read(file) else {
        return;
    };
    let layout = parameters.layout;
    let at = location.0 as usize;
    let end = at + layout.size();
    if memory.len() < end {
        return;
    }
    put_parts(
        &mut memory[at..end],
        layout,
        pattern::code_body(file),
        pattern::input_body(file),
    );
}
