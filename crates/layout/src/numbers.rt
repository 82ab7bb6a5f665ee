// Numbers in bytes, highest byte first, and coordinates in two's complement of 4 bytes.

ghost use Rattle.std.specs.Prelude.{◌≡◌, ◌+◌, ◌^◌, ◌≤◌, ◌<◌, length};
ghost use Rattle.integers.specs.Range.{Bounded};
ghost use Rattle.model.specs.Plane.{coordinate_limit};
ghost use Rattle.model.specs.Saved.{big_endian, complement, number_at, signed};
ghost use Rattle.finite.specs.Overwriting.{over};

// Writes the last `width` bytes of a number over the front of the lent list.
pub fn put_number(lent: &mut [u8], width: usize, value: usize)
    requires { width ≤ length lent.old }
    ensures { lent.new ≡ over (big_endian width value) lent.old }
{
    let mut rest = value;
    // By number, as the width is a parameter: `lent[..width].iter_mut().rev()` would say no more.
    for place in (0..width).rev() {
        lent[place] = (rest % 256) as u8;
        rest /= 256;
    }
}

// The number in the `width` bytes from a place on.
pub fn number_at(file: &[u8], at: usize, width: usize) -> usize
    requires { (at + width ≤ length file.now) × (width ≤ 4) }
    ensures { (result ≡ number_at file.now at width) × (result < 256 ^ width) }
{
    let mut number = 0;
    for &byte in &file[at..at + width] {
        number = number * 256 + usize::from(byte);
    }
    number
}

// A coordinate in two's complement.
pub fn complement(z: i64) -> usize
    requires { Bounded coordinate_limit z }
    ensures { result ≡ complement z }
{
    (z as i32).cast_unsigned() as usize
}

// The coordinate of a number in two's complement.
pub fn signed(number: usize) -> i64
    requires { number < 256 ^ 4 }
    ensures { result ≡ signed number }
{
    i64::from((number as u32).cast_signed())
}
