// Reads the numbers that a person types.
#![tactic(auto)]

ghost use Rattle.std.specs.Prelude.{◌+◌, ◌*◌, min, ◌≡◌};
ghost use Rattle.numeral.specs.Numeral.{digit_of, are_digits, value, numeral};

// Every byte is asked, whatever the ones before it are: a compiler then asks many at once, where `all` would ask them one by one.
fn are_digits(text: &[u8]) -> bool
    ensures { result ≡ are_digits text.now }
{
    text.iter()
        .fold(true, |digits, byte| digits & byte.is_ascii_digit())
}

// The number and one digit more, or `most` where that is above it.
fn lengthened(number: u32, digit: u8, most: u32) -> u32
    ensures { result ≡ min (10 * number + digit_of digit) most }
{
    let longer = 10 * u64::from(number) + u64::from(digit.saturating_sub(b'0'));
    longer.min(u64::from(most)) as u32
}

fn value_of(digits: &[u8], most: u32) -> u32
    ensures { result ≡ min (value digits.now) most }
{
    digits
        .iter()
        .fold(0, |number, digit| lengthened(number, *digit, most))
}

// The number that digits stand for; one above `most` counts as `most`. What has another byte than digits, or none, is no number.
#[tactic(auto, unfolding(crate::specs::Numeral::numeral))]
pub fn read(digits: &[u8], most: u32) -> Option<u32>
    ensures { result ≡ numeral digits.now most }
{
    (!digits.is_empty() && are_digits(digits)).then(|| value_of(digits, most))
}
