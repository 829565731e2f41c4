// What is reported of a slot: document 01's status, counter, registers, PSU with Sense and PSL. The status is the number in the table.
#[derive(Clone, Copy, Debug, PartialEq, Eq)]
pub struct Report {
    pub status: u8,
    pub counter: u16,
    pub registers: [u8; 7],
    pub psu: u8,
    pub psl: u8,
}
