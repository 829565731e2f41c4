// The CRC-32 of zlib.

// One bit of the sum.
fn shifted(crc: u32) -> u32 {
    if crc % 2 == 1 {
        (crc >> 1) ^ 0xEDB88320
    } else {
        crc >> 1
    }
}

fn with_byte(crc: u32, byte: u8) -> u32 {
    (0..8).fold(crc ^ byte as u32, |mixed, _| shifted(mixed))
}

pub(crate) fn crc32(bytes: &[u8]) -> u32 {
    !bytes
        .iter()
        .fold(u32::MAX, |crc, byte| with_byte(crc, *byte))
}
