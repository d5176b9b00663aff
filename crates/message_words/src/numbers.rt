//! The numbers that words stand for.
//!
//! Any word stands for some number here. A word that isn't the decimal digits of its number is found when the words of what
//! was read are compared with the line.
ghost use Rattle.std.specs.Prelude.{◌≡◌, ◌≤◌, ◌^◌, pos, neg_ℤ};
ghost use Rattle.message_words.specs.Numbers as numbers;
ghost use Rattle.message_words.specs.Numbers.{with_digit, number_from};

use hk_base::Value;

/// The number of 32 bits that a word stands for.
pub fn number_in(word: &str) -> u32
    ensures { result ≡ numbers.number_in word.now }
{
    number_up_to(u128::from(u32::MAX), word.as_bytes()) as u32
}

/// The number of 64 bits that a word stands for.
pub fn wide_number_in(word: &str) -> u64
    ensures { result ≡ numbers.wide_number_in word.now }
{
    number_up_to(u128::from(u64::MAX), word.as_bytes()) as u64
}

/// The value that a word stands for, negative behind a minus.
pub fn value_in(word: &str) -> Value
    ensures { result ≡ numbers.value_in word.now }
{
    match word.as_bytes() {
        [b'-', digits @ ..] => below_zero(number_up_to(1 << 127, digits)),
        digits => number_up_to((1 << 127) - 1, digits) as Value,
    }
}

/// The value that is as much below zero.
fn below_zero(number: u128) -> Value
    requires { number ≤ 2 ^ 127 }
    ensures { result ≡ neg_ℤ (pos number) }
{
    match number {
        0 => 0,
        _ => -((number - 1) as Value) - 1,
    }
}

/// The number that digits stand for, up to the most.
fn number_up_to(most: u128, digits: &[u8]) -> u128
    ensures value { result ≡ number_from most 0 digits.now }
    ensures few { result ≤ most }
{
    let mut number = 0;
    for digit in digits {
        number = next_number(most, number, *digit);
    }
    number
}

fn next_number(most: u128, number: u128, digit: u8) -> u128
    ensures { result ≡ with_digit most number digit }
{
    number
        .saturating_mul(10)
        .saturating_add(u128::from(digit.saturating_sub(b'0')))
        .min(most)
}

/// The number of a digit to the base 16.
pub fn hex_value(word: &str) -> u8
    ensures { result ≡ numbers.hex_value word.now }
{
    match word.as_bytes() {
        [digit, ..] if *digit < 58 => digit.saturating_sub(b'0'),
        [digit, ..] => digit.saturating_sub(87),
        [] => 0,
    }
}
