// Writing a pattern file to the front of a lent buffer.
ghost use Rattle.std.specs.Prelude.{◌≡◌, ◌+◌, ◌≤◌, ◌<◌, length};
ghost use Rattle.slices.specs.Slices.{copied};
ghost use Rattle.pattern.specs.Parameters.{form_number, form_of};
ghost use Rattle.pattern.specs.Writer.{write_result, smallest_length, records_of, write_of, written_buffer};

use crate::frame::{BOARD, FRAME_LENGTH, Mark, RecordWriter, VERSION_LENGTH};
use crate::image::trim;
use crate::parameters::{
    Form, Parameters, encode_parameters, form_of, is_in_range, parameters_length,
};
use common::Refusal;
use slices::front;

// The length of the smallest file of that form: all but the bodies of `PC` and `PI`.
fn smallest_length(form: Form) -> usize
    ensures value { result ≡ smallest_length (form_number form) }
    ensures upper_bound { result ≤ 33 }
{
    5 * FRAME_LENGTH + VERSION_LENGTH + parameters_length(form)
}

// Writes the five records to the front of `buffer`.
fn put_records(parameters: Parameters, code: &[u8], input: &[u8], buffer: &mut [u8])
    requires code_len_bound { length code.now < 65536 }
    requires input_len_bound { length input.now < 65536 }
    requires input_in_bounds { smallest_length (form_of parameters) + length code.now + length input.now ≤ length buffer.old }
    ensures { buffer.new ≡ copied buffer.old 0 (records_of parameters code.now input.now) }
{
    let form = form_of(parameters);
    let bytes = encode_parameters(parameters);
    let mut records = RecordWriter { buffer, at: 0 };
    records.put(Mark::Version, &[form.number(), BOARD]);
    // In form 1 without the locked length.
    records.put(Mark::Parameters, front(&bytes, parameters_length(form)));
    records.put(Mark::Code, code);
    records.put(Mark::Input, input);
    records.put(Mark::End, &[]);
}

// Writes the file of a pattern to the front of `buffer`, and leaves the rest; a refusal leaves all of it.
#[tactic(auto, using(crate::specs::WriterLaws::file_length, crate::specs::ImageLaws::trim_short), unfolding(crate::specs::FileDefinitions::write_definitions))]
pub fn write(
    parameters: Parameters,
    image: &[u8],
    input: &[u8],
    buffer: &mut [u8],
) -> Result<usize, Refusal>
    ensures { (write_result result ≡ write_of parameters image.now input.now (length buffer.old)) × (buffer.new ≡ written_buffer parameters image.now input.now buffer.old) }
{
    if !is_in_range(parameters) {
        return Err(Refusal::Values);
    }
    let layout = parameters.layout;
    if image.len() != layout.window as usize {
        return Err(Refusal::Values);
    }
    if (layout.input as usize) < input.len() {
        return Err(Refusal::Input);
    }
    let form = form_of(parameters);
    let code = trim(image);
    let total = smallest_length(form) + code.len() + input.len();
    if buffer.len() < total {
        return Err(Refusal::Short);
    }
    put_records(parameters, code, input, buffer);
    Ok(total)
}
