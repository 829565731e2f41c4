// Reading a pattern file: each record's frame, then its body, then the next record.
ghost use Rattle.std.specs.Prelude.{[], ◌≡◌, IfOk};
ghost use Rattle.common.specs.Refusals.{refusal_by, refusal_in};
ghost use Rattle.pattern.specs.Frame.{body_of};
ghost use Rattle.pattern.specs.Parameters.{form_number};
ghost use Rattle.pattern.specs.Reader.{read_result, form_in, board_in, parameters_in, version_conditions, parameters_conditions, code_conditions, input_conditions, end_conditions, read_of, if_accepted, code_body_of, input_body_of, code_offset, input_offset};

use crate::frame::{
    BOARD, FRAME_LENGTH, Mark, VERSION_LENGTH, behind_record, body, body_length, has_frame,
    has_frame_of_length, record_length,
};
use crate::image::ends_in_zero;
use crate::parameters::{
    Form, Parameters, decode_parameters, form_of, is_in_range, parameters_length,
};
use common::Refusal;
use slices::{byte, front};

// The form that `PV` at the front of `s` names, and the board.
fn form_in(s: &[u8]) -> u8
    ensures { result ≡ form_in s.now }
{
    byte(body(s), 0)
}

fn board_in(s: &[u8]) -> u8
    ensures { result ≡ board_in s.now }
{
    byte(body(s), 1)
}

// The record `PV` at the front of `s`: the file's form.
#[tactic(auto, unfolding(crate::specs::Reader::version_conditions, common::specs::ConditionDefinitions::condition_definitions))]
fn read_version(s: &[u8]) -> Result<Form, Refusal>
    ensures refusal { refusal_in result ≡ refusal_by (version_conditions s.now) }
    ensures form { IfOk result (λ form. form_number form ≡ form_in s.now) }
{
    if !has_frame_of_length(s, Mark::Version, VERSION_LENGTH) {
        return Err(Refusal::Frame);
    }
    let form = Form::try_from(form_in(s))?;
    if board_in(s) != BOARD {
        return Err(Refusal::Board);
    }
    Ok(form)
}

// The record `PB` at the front of `s`, in a file of that form.
#[tactic(auto, unfolding(crate::specs::Reader::parameters_conditions, common::specs::ConditionDefinitions::condition_definitions))]
fn read_parameters(s: &[u8], form: Form) -> Result<Parameters, Refusal>
    ensures refusal { refusal_in result ≡ refusal_by (parameters_conditions (form_number form) s.now) }
    ensures parameters { IfOk result (λ parameters. parameters ≡ parameters_in s.now) }
{
    if !has_frame_of_length(s, Mark::Parameters, parameters_length(form)) {
        return Err(Refusal::Frame);
    }
    let parameters = decode_parameters(body(s));
    if !is_in_range(parameters) {
        return Err(Refusal::Values);
    }
    // Form 2 with nothing locked: that pattern has a file of form 1.
    if form_of(parameters) != form {
        return Err(Refusal::Values);
    }
    Ok(parameters)
}

// The record `PC` at the front of `s`.
#[tactic(auto, unfolding(crate::specs::Reader::code_conditions, common::specs::ConditionDefinitions::condition_definitions))]
fn read_code(s: &[u8], parameters: Parameters) -> Result<(), Refusal>
    ensures { refusal_in result ≡ refusal_by (code_conditions parameters s.now) }
{
    if !has_frame(s, Mark::Code) {
        return Err(Refusal::Frame);
    }
    if parameters.layout.window < body_length(s) {
        return Err(Refusal::Code);
    }
    if ends_in_zero(body(s)) {
        return Err(Refusal::Code);
    }
    Ok(())
}

// The record `PI` at the front of `s`.
#[tactic(auto, unfolding(crate::specs::Reader::input_conditions, common::specs::ConditionDefinitions::condition_definitions))]
fn read_input(s: &[u8], parameters: Parameters) -> Result<(), Refusal>
    ensures { refusal_in result ≡ refusal_by (input_conditions parameters s.now) }
{
    if !has_frame(s, Mark::Input) {
        return Err(Refusal::Frame);
    }
    if parameters.layout.input < body_length(s) {
        return Err(Refusal::Input);
    }
    Ok(())
}

// The record `PE` at the front of `s`, where the file ends.
#[inline(always)]
#[tactic(auto, unfolding(crate::specs::Reader::end_conditions, common::specs::ConditionDefinitions::condition_definitions))]
fn read_end(s: &[u8]) -> Result<(), Refusal>
    ensures { refusal_in result ≡ refusal_by (end_conditions s.now) }
{
    if !has_frame_of_length(s, Mark::End, 0) {
        return Err(Refusal::Frame);
    }
    if FRAME_LENGTH < s.len() {
        return Err(Refusal::Frame);
    }
    Ok(())
}

// The parameters of a pattern file, or its refusal. A refused record ends the reading by `let .. else`, the form that document 01 names for
// this place.
pub fn read(file: &[u8]) -> Result<Parameters, Refusal>
    ensures { read_result result ≡ read_of file.now }
{
    let version = read_version(file);
    let Ok(form) = version else {
        return Err(version.unwrap_err());
    };
    let from_parameters = behind_record(file);
    let answer = read_parameters(from_parameters, form);
    let Ok(parameters) = answer else {
        return answer;
    };
    let from_code = behind_record(from_parameters);
    let code = read_code(from_code, parameters);
    let Ok(()) = code else {
        return Err(code.unwrap_err());
    };
    let from_input = behind_record(from_code);
    let input = read_input(from_input, parameters);
    let Ok(()) = input else {
        return Err(input.unwrap_err());
    };
    let end = read_end(behind_record(from_input));
    let Ok(()) = end else {
        return Err(end.unwrap_err());
    };
    Ok(parameters)
}

// The body of the record at the front of `from`, which is a part of `file`; empty if the file is refused.
fn accepted_body<'a>(file: &[u8], from: &'a [u8]) -> &'a [u8]
    ensures { result.now ≡ if_accepted (read_of file.now) [] (body_of from.now) }
{
    let Ok(_) = read(file) else {
        return front(from, 0);
    };
    body(from)
}

// The body of `PC` as a part of the file itself, empty if the file is refused.
#[tactic(auto, unfolding(crate::specs::Reader::code_body_of))]
pub fn code_body(file: &[u8]) -> &[u8]
    ensures { result.now ≡ code_body_of file.now }
{
    accepted_body(file, behind_record(behind_record(file)))
}

// The body of `PI` as a part of the file itself, empty if the file is refused.
#[tactic(auto, unfolding(crate::specs::Reader::input_body_of))]
pub fn input_body(file: &[u8]) -> &[u8]
    ensures { result.now ≡ input_body_of file.now }
{
    accepted_body(file, behind_record(behind_record(behind_record(file))))
}

// Where the body of `PC` starts in the file, if the file is accepted.
pub fn code_offset(file: &[u8]) -> usize
    ensures { result ≡ code_offset file.now }
{
    record_length(file) + record_length(behind_record(file)) + FRAME_LENGTH
}

// Where the body of `PI` starts in the file, if the file is accepted.
pub fn input_offset(file: &[u8]) -> usize
    ensures { result ≡ input_offset file.now }
{
    let from_parameters = behind_record(file);
    record_length(file)
        + record_length(from_parameters)
        + record_length(behind_record(from_parameters))
        + FRAME_LENGTH
}
