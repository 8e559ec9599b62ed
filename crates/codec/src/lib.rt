// Little-endian numbers in bytes, the fields of an entry, and bytes put into a lent array. A place and the room from it on stand in each contract: what is
// read or put next to each other lies in one lent array.
#![tactic(auto)]

ghost use Rattle.std.specs.Prelude.{◌≡◌, true, [], ◌∷◌, ◌+◌, ◌<◌, ◌≤◌, ◌^◌, length};
ghost use Rattle.std.proofs.lemmas.List.Edits.{sets};
ghost use Rattle.codec.specs.Bytes.{is_width, little_endian, number_at};
ghost use Rattle.codec.specs.Fields.{total, entry_bytes, values_at, AllFit, are_widths};

// The number that the bytes from a place on make, the lowest byte first. Byte by byte, which compiles to one load: a part of a slice, as `first_chunk`
// gives it, would have its length tested again for each number.
pub fn number_at(bytes: &[u8], at: usize, width: usize) -> u64
    requires { (at + width ≤ length bytes.now) × (is_width width ≡ true) }
    ensures { (result ≡ number_at width bytes.now at) × (result < 256 ^ width) }
{
    match width {
        1 => u64::from(bytes[at]),
        2 => u64::from(u16::from_le_bytes([bytes[at], bytes[at + 1]])),
        4 => u64::from(u32::from_le_bytes([
            bytes[at],
            bytes[at + 1],
            bytes[at + 2],
            bytes[at + 3],
        ])),
        _ => u64::from_le_bytes([
            bytes[at],
            bytes[at + 1],
            bytes[at + 2],
            bytes[at + 3],
            bytes[at + 4],
            bytes[at + 5],
            bytes[at + 6],
            bytes[at + 7],
        ]),
    }
}

// A number's bytes from a place on; the others are kept.
pub fn put_number(out: &mut [u8], at: usize, width: usize, v: u64)
    requires { (at + width ≤ length out.old) × (is_width width ≡ true) }
    ensures { out.new ≡ sets out.old at (little_endian width v) }
{
    let low = v.to_le_bytes();
    match width {
        1 => out[at] = low[0],
        2 => out[at..at + 2].copy_from_slice(&low[..2]),
        4 => out[at..at + 4].copy_from_slice(&low[..4]),
        _ => out[at..at + 8].copy_from_slice(&low),
    }
}

// The values of an entry's fields, from a place on.
pub fn get_fields(bytes: &[u8], at: usize, widths: &[usize], values: &mut [u64])
    requires { (at + total widths.now ≤ length bytes.now) × (length values.old ≡ length widths.now) × (are_widths widths.now ≡ true) }
    ensures { (values.new ≡ values_at widths.now bytes.now at) × AllFit widths.now values.new }
{
    let mut place = at;
    // By index: of a slice written under `iter_mut().zip(..)` a proof knows the length alone.
    for (i, &width) in widths.iter().enumerate() {
        values[i] = number_at(bytes, place, width);
        place += width;
    }
}

// The bytes of an entry with these values, from a place on; the others are kept.
pub fn put_fields(out: &mut [u8], at: usize, widths: &[usize], values: &[u64])
    requires { (at + total widths.now ≤ length out.old) × (length values.now ≡ length widths.now) × (are_widths widths.now ≡ true) }
    ensures { out.new ≡ sets out.old at (entry_bytes widths.now values.now) }
{
    let mut place = at;
    for (&width, &value) in widths.iter().zip(values) {
        put_number(out, place, width, value);
        place += width;
    }
}

// A byte at a place; the others are kept.
pub fn put_byte(out: &mut [u8], at: usize, byte: u8)
    requires { at + 1 ≤ length out.old }
    ensures { out.new ≡ sets out.old at (byte ∷ []) }
{
    out[at] = byte;
}

// These bytes from a place on; the others are kept.
pub fn put_bytes(out: &mut [u8], at: usize, bytes: &[u8])
    requires { at + length bytes.now ≤ length out.old }
    ensures { out.new ≡ sets out.old at bytes.now }
{
    // Not by `copy_from_slice`, which needs `memmove` of the program that the library is linked to.
    for i in 0..bytes.len() {
        out[at + i] = bytes[i];
    }
}
