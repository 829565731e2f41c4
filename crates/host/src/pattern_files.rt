// Calls on pattern files that a host lends.
ghost use Rattle.std.specs.Prelude.{◌≡◌, ◌<◌};
ghost use Rattle.pattern.specs.Reader.{read_of};
ghost use Rattle.host.specs.HostCalls.{buffer_outcome};
ghost use Rattle.host.specs.PatternFiles.{code_stretch, host_read, host_write, input_stretch, stretch_of};

use crate::host_calls::answer;
use common::Refusal;
use pattern::Parameters;

// The file's parameters to the buffer's front.
#[unsafe(no_mangle)]
pub extern "C" fn pf_read(file: &[u8], parameters: &mut [u8]) -> u32
    ensures { buffer_outcome result parameters.new ≡ host_read (read_of file.now) parameters.old }
{
    let accepted = match pattern::read(file) {
        Ok(accepted) => accepted,
        Err(refusal) => return answer(Err(refusal)),
    };
    if parameters.len() < Parameters::LENGTH {
        return answer(Err(Refusal::Short));
    }
    slices::copy(parameters, 0, &pattern::encode_parameters(accepted));
    answer(Ok(0))
}

// A stretch of a file in one number: where it starts, and its length.
fn stretch(offset: usize, n: usize) -> u32
    requires { (offset < 65536) × (n < 65536) }
    ensures { result ≡ stretch_of offset n }
{
    offset as u32 * 65536 + n as u32
}

// Where the body of `PC` lies in the file. A refused file is read once: its bodies are not asked for.
#[unsafe(no_mangle)]
pub extern "C" fn pf_code(file: &[u8]) -> u32
    ensures { result ≡ code_stretch file.now }
{
    match pattern::read(file) {
        Ok(_) => stretch(pattern::code_offset(file), pattern::code_body(file).len()),
        Err(_) => 0,
    }
}

// Where the body of `PI` lies in the file.
#[unsafe(no_mangle)]
pub extern "C" fn pf_input(file: &[u8]) -> u32
    ensures { result ≡ input_stretch file.now }
{
    match pattern::read(file) {
        Ok(_) => stretch(pattern::input_offset(file), pattern::input_body(file).len()),
        Err(_) => 0,
    }
}

// Writes a file to the buffer's front. The count is its length.
#[tactic(auto, using(crate::proofs::HostFileLaws::write_other, crate::proofs::HostFileLaws::write_made))]
#[unsafe(no_mangle)]
pub extern "C" fn pf_write(parameters: &[u8], image: &[u8], input: &[u8], buffer: &mut [u8]) -> u32
    ensures { buffer_outcome result buffer.new ≡ host_write parameters.now image.now input.now buffer.old }
{
    if parameters.len() != Parameters::LENGTH {
        return answer(Err(Refusal::Values));
    }
    match pattern::write(pattern::decode_parameters(parameters), image, input, buffer) {
        Ok(n) => answer(Ok(n as u16)),
        Err(refusal) => answer(Err(refusal)),
    }
}
