// Writing at a place of a lent list: bytes, words and whole numbers in decimal, each with its
// length. A function that writes is given room and answers the place after what it wrote. A struct of
// the list and the place would be lent as they are, and each contract would name both fields.

ghost use Rattle.std.specs.Prelude.{◌≡◌, [], ◌∷◌, ◌+◌, ◌<◌, pos, length};
ghost use Rattle.model.specs.Spelling.{digit_zero, spelt};
ghost use Rattle.printing.specs.Writing.{Room, PutAt};

// Writes one byte.
pub fn put_byte(lent: &mut [u8], at: usize, b: u8) -> usize
    requires { Room lent.old at (b ∷ []) }
    ensures { PutAt lent.old at (b ∷ []) lent.new result }
{
    lent[at] = b;
    at + 1
}

// Writes a list of bytes.
// Byte by byte and no `copy_from_slice`: where a word's length is not seen, that calls `memmove`, and the archive for C
// needs `memcpy` and `memset` alone.
pub fn put_word(lent: &mut [u8], at: usize, word: &[u8]) -> usize
    requires { Room lent.old at word.now }
    ensures { PutAt lent.old at word.now lent.new result }
{
    for i in 0..word.len() {
        lent[at + i] = word[i];
    }
    at + word.len()
}

// Writes a number in decimal, with a minus where it is negative.
pub fn put_number(lent: &mut [u8], at: usize, z: i64) -> usize
    requires { Room lent.old at (spelt z) }
    ensures { PutAt lent.old at (spelt z) lent.new result }
{
    if z < 0 {
        let digits = put_byte(lent, at, b'-');
        put_natural(lent, digits, z.unsigned_abs())
    } else {
        put_natural(lent, at, z.unsigned_abs())
    }
}

// How many bytes a number takes in decimal.
pub fn number_length(z: i64) -> usize
    ensures { result ≡ length (spelt z) }
{
    if z < 0 {
        1 + natural_length(z.unsigned_abs())
    } else {
        natural_length(z.unsigned_abs())
    }
}

// Writes a number without a sign in decimal, from its last digit to its first.
// By hand and no `write!`: the promise is `spelt`, at a place of the lent list.
pub fn put_natural(lent: &mut [u8], at: usize, n: u64) -> usize
    requires { Room lent.old at (spelt (pos n)) }
    ensures { PutAt lent.old at (spelt (pos n)) lent.new result }
{
    let end = at + natural_length(n);
    let mut rest = n;
    // By number: `lent[at + 1..end].iter_mut().rev()` would say no more.
    for place in (at + 1..end).rev() {
        lent[place] = digit(rest % 10);
        rest /= 10;
    }
    lent[at] = digit(rest);
    end
}

// How many digits a number without a sign takes. Few digits are told by comparison, without a
// division.
pub fn natural_length(n: u64) -> usize
    ensures { result ≡ length (spelt (pos n)) }
{
    match n {
        0..10 => 1,
        10..100 => 2,
        100..1000 => 3,
        1000..10000 => 4,
        10000..100000 => 5,
        _ => 4 + natural_length(n / 10000),
    }
}

// The byte of a digit.
fn digit(n: u64) -> u8
    requires { n < 10 }
    ensures { result ≡ digit_zero + n }
{
    b'0' + n as u8
}
