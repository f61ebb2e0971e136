// Numbers one after another as bytes, written from lent memory and read into it (request N3). The
// functions are internal: what they require, that the numbers lie within the bytes, is what the
// layout of a file says (crate `snapshot_file`).

#![tactic(auto)]

ghost use Rattle.std.specs.Prelude.{◌≡◌, ◌+◌, ◌*◌, ◌≤◌, length, drop};
ghost use Rattle.laws.specs.Writing.{written_at};
ghost use Rattle.little_endian.specs.Numbers.{numbers_bytes, numbers_in};

use little_endian::{read_fixed, write_fixed};
use model::Word;

// Writes numbers of a site's memory from a place on, in four bytes each.
// As it is: the new form is no plainer: a trait with what a `u32` and a `u64` say would stand for
// this function beside the next, and every contract would map over it.
pub fn write_words(numbers: &[Word], bytes: &mut [u8], place: usize)
    requires { place + 4 * length numbers.now ≤ length bytes.old }
    ensures { bytes.new
        ≡ written_at place (numbers_bytes 4 numbers.now) bytes.old }
{
    for i in 0..numbers.len() {
        write_fixed::<4>(bytes, place + 4 * i, u64::from(numbers[i]));
    }
}

// Writes the lowest bytes of each of some numbers of 64 bits from a place on, as many of each as a
// fixed width says.
pub fn write_numbers<const WIDTH: usize>(numbers: &[u64], bytes: &mut [u8], place: usize)
    requires { (place + WIDTH * length numbers.now ≤ length bytes.old) × (WIDTH ≤ 8) }
    ensures { bytes.new
        ≡ written_at place (numbers_bytes WIDTH numbers.now) bytes.old }
{
    for i in 0..numbers.len() {
        write_fixed::<WIDTH>(bytes, place + WIDTH * i, numbers[i]);
    }
}

// Reads numbers of four bytes each from a place on, as many as are lent.
// As it is: the new form is no plainer, as for `write_words`.
pub fn read_words(bytes: &[u8], place: usize, numbers: &mut [Word])
    requires { place + 4 * length numbers.old ≤ length bytes.now }
    ensures { numbers.new
        ≡ numbers_in 4 (length numbers.old) (drop place bytes.now) }
{
    for i in 0..numbers.len() {
        numbers[i] = read_fixed::<4>(bytes, place + 4 * i) as Word;
    }
}

// Reads numbers of eight bytes each from a place on, as many as are lent.
pub fn read_numbers(bytes: &[u8], place: usize, numbers: &mut [u64])
    requires { place + 8 * length numbers.old ≤ length bytes.now }
    ensures { numbers.new
        ≡ numbers_in 8 (length numbers.old) (drop place bytes.now) }
{
    for i in 0..numbers.len() {
        numbers[i] = read_fixed::<8>(bytes, place + 8 * i);
    }
}
