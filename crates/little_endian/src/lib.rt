// Numbers as bytes, the lowest byte first, in bytes that the caller lends (request N3). The
// functions are internal: what they require, that the numbers lie within the bytes, is what the
// layout of a file says (crate `snapshot_file`).

#![tactic(auto)]

ghost use Rattle.std.specs.Prelude.{◌≡◌, ◌+◌, ◌^◌, ◌≤◌, ◌<◌, length};
ghost use Rattle.laws.specs.Writing.{written_at};
ghost use Rattle.little_endian.specs.Numbers.{byte_range, little_endian, number_at};

// Writes a number from a place on, in as many bytes as its width says.
pub fn write_number(bytes: &mut [u8], place: usize, width: usize, n: u64)
    requires { place + width ≤ length bytes.old }
    ensures { bytes.new ≡ written_at place (little_endian width n) bytes.old }
{
    let mut rest = n;
    for i in 0..width {
        bytes[place + i] = (rest % 256) as u8;
        rest = rest / 256;
    }
}

// The number that stands from a place on, in as many bytes as its width says.
pub fn read_number(bytes: &[u8], place: usize, width: usize) -> u64
    requires { (place + width ≤ length bytes.now) × (width ≤ 8) }
    ensures { result ≡ number_at width place bytes.now }
{
    let mut n: u64 = 0;
    for i in (0..width).rev() {
        n = n * 256 + u64::from(bytes[place + i]);
    }
    n
}

// The number of a fixed width that stands from a place on: the compiler makes one load of it. Byte
// by byte, since for `copy_from_slice` the compiler may test each time whether source and copy
// overlap.
pub fn read_fixed<const WIDTH: usize>(bytes: &[u8], place: usize) -> u64
    requires { (place + WIDTH ≤ length bytes.now) × (WIDTH ≤ 8) }
    ensures { (result ≡ number_at WIDTH place bytes.now) × (result < byte_range ^ WIDTH) }
{
    let mut held = [0u8; 8];
    for i in 0..WIDTH {
        held[i] = bytes[place + i];
    }
    u64::from_le_bytes(held)
}

// Writes the lowest bytes of a number from a place on, as many as a fixed width says: the compiler
// makes one store of it.
pub fn write_fixed<const WIDTH: usize>(bytes: &mut [u8], place: usize, n: u64)
    requires { (place + WIDTH ≤ length bytes.old) × (WIDTH ≤ 8) }
    ensures { bytes.new ≡ written_at place (little_endian WIDTH n) bytes.old }
{
    bytes[place..place + WIDTH].copy_from_slice(&n.to_le_bytes()[..WIDTH]);
}
