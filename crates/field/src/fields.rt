// Values in a data field: little-endian.
ghost use Rattle.std.specs.Prelude.{◌≡◌};
ghost use Rattle.field.specs.Fields.{word16_at, word32_at, short_count};

// The two-byte value at a place. A byte that is not there counts as 0.
pub fn word16(field: &[u8], at: usize) -> u16
    ensures { result ≡ word16_at field.now at }
{
    match field.get(at..) {
        Some([low, high, ..]) => u16::from_le_bytes([*low, *high]),
        Some([low]) => u16::from(*low),
        _ => 0,
    }
}

// The four-byte value at a place. A byte that is not there counts as 0.
pub fn word32(field: &[u8], at: usize) -> u32
    ensures { result ≡ word32_at field.now at }
{
    u32::from(word16(field, at)) + 65536 * u32::from(word16(field, at.saturating_add(2)))
}

// A one-byte count, of which 0 is 256.
pub fn short_count(byte: u8) -> u16
    ensures { result ≡ short_count byte }
{
    if byte == 0 { 256 } else { u16::from(byte) }
}
