// Pattern files of forms 1 and 2: reading, the two bodies, writing. A pattern is the parameters of a partition, the window's bytes and a
// first input; each has exactly one file (specs/Theorems.antt).
#![tactic(auto)]

mod frame;
mod image;
mod parameters;
mod reader;
mod writer;

pub use parameters::{Parameters, decode_parameters, encode_parameters};
pub use reader::{code_body, code_offset, input_body, input_offset, read};
pub use writer::write;
