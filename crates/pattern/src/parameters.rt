// The parameters of a pattern, their ranges, and how they look as bytes.
ghost use Rattle.std.specs.Prelude.{◌≡◌, ◌≤◌};
ghost use Rattle.pattern.specs.Parameters.{form_number, TakesForm, is_in_range, form_of, parameters_length, parameters_from_bytes, parameters_bytes, parameters_bytes_length};

use common::{Address, Layout, Refusal};
use slices::{byte, put_byte, put_u16, u16_at};

// What `PB` holds: how the partition is divided, the start address, and the quantum (document 01: stint).
#[derive(Clone, Copy, Debug, PartialEq, Eq)]
pub struct Parameters {
    pub layout: Layout,
    pub start: Address,
    pub quantum: u8,
}

impl Parameters {
    // How many bytes all of them are. The locked length is last, so that the front is the body of `PB` in a file of form 1.
    pub const LENGTH: usize = 11;
}

// The length of the body of `PB` in a file of form 1: all but the locked length.
const PLAIN_LENGTH: usize = Parameters::LENGTH - 2;

// The form of a file: of a pattern in which nothing is locked, and of one with a locked length.
#[derive(Clone, Copy, Debug, PartialEq, Eq)]
pub(crate) enum Form {
    Plain = 1,
    Locked = 2,
}

impl Form {
    // What `PV` holds for it.
    pub(crate) fn number(self) -> u8
        ensures { result ≡ form_number self }
    {
        self as u8
    }
}

impl TryFrom<u8> for Form {
    type Error = Refusal;

    ghost try_from_gives = { TakesForm };

    fn try_from(number: u8) -> Result<Form, Refusal> {
        match number {
            1 => Ok(Form::Plain),
            2 => Ok(Form::Locked),
            _ => Err(Refusal::Form),
        }
    }
}

// Whether each value is in its range.
#[tactic(auto, unfolding(crate::specs::Parameters::is_in_range, common::specs::Tests::and_all))]
pub(crate) fn is_in_range(parameters: Parameters) -> bool
    ensures { result ≡ is_in_range parameters }
{
    parameters.layout.is_sound()
        & (parameters.start.0 < parameters.layout.window)
        & common::is_one_to(parameters.quantum as usize, 255)
}

// The form of the file of those parameters: 1 exactly if nothing is locked.
#[tactic(auto, using(crate::specs::ParameterLaws::form_plain, crate::specs::ParameterLaws::form_locked))]
pub(crate) fn form_of(parameters: Parameters) -> Form
    ensures { form_number result ≡ form_of parameters }
{
    if parameters.layout.locked == 0 {
        Form::Plain
    } else {
        Form::Locked
    }
}

// The length of the body of `PB` in a file of that form.
#[tactic(auto, unfolding(crate::specs::Parameters::parameters_length, common::specs::ConditionDefinitions::condition_definitions))]
pub(crate) fn parameters_length(form: Form) -> usize
    ensures value { result ≡ parameters_length (form_number form) }
    ensures upper_bound { result ≤ parameters_bytes_length }
{
    match form {
        Form::Plain => PLAIN_LENGTH,
        Form::Locked => Parameters::LENGTH,
    }
}

// Those parameters as bytes: the body of `PB` in a file of form 2. No `From`, which would not say of eleven bytes that they are this body.
pub fn encode_parameters(parameters: Parameters) -> [u8; Parameters::LENGTH]
    ensures { result ≡ parameters_bytes parameters }
{
    let layout = parameters.layout;
    let mut bytes = [0u8; Parameters::LENGTH];
    put_u16(&mut bytes, 0, layout.window);
    put_u16(&mut bytes, 2, layout.input);
    put_u16(&mut bytes, 4, layout.output);
    put_u16(&mut bytes, 6, parameters.start.0);
    put_byte(&mut bytes, 8, parameters.quantum);
    put_u16(&mut bytes, 9, layout.locked);
    bytes
}

// The parameters that a body of `PB` holds, in both forms: a byte past its end counts as 0, so nine bytes lock nothing.
#[tactic(auto, unfolding(crate::specs::Parameters::parameters_from_bytes))]
pub fn decode_parameters(body: &[u8]) -> Parameters
    ensures { result ≡ parameters_from_bytes body.now }
{
    let layout = Layout {
        window: u16_at(body, 0),
        input: u16_at(body, 2),
        output: u16_at(body, 4),
        locked: u16_at(body, 9),
    };
    Parameters {
        layout,
        start: Address(u16_at(body, 6)),
        quantum: byte(body, 8),
    }
}
