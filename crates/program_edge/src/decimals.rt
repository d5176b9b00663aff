//! Numbers among the words of a command.
ghost use Rattle.std.specs.Prelude.{◌≡◌, ◌≤◌, IfSome};
ghost use Rattle.std.specs.List.{list_all};
ghost use Rattle.program_edge.specs.Decimals.{has_leading_zero, is_decimal, is_digit, number_within};

use message_words::wide_number_in;

/// The number that a word is, if it is decimal digits without sign or leading zero, and within these bounds.
pub fn decimal_within(least: u64, most: u64, word: &str) -> Option<u64>
    ensures value { result ≡ number_within least most word.now }
    ensures few { IfSome result (λ number. number ≤ most) }
{
    let number = wide_number_in(word);
    let is_within = least <= number && number <= most;
    if is_decimal(word.as_bytes()) && is_within {
        return Some(number);
    }
    None
}

/// Whether octets are decimal digits without a sign, and without a zero in front of others.
fn is_decimal(word: &[u8]) -> bool
    ensures { result ≡ is_decimal word.now }
{
    !word.is_empty() && !has_leading_zero(word) && are_digits(word)
}

/// Whether a zero stands in front of others.
fn has_leading_zero(word: &[u8]) -> bool
    ensures { result ≡ has_leading_zero word.now }
{
    match word {
        [first, _, ..] => *first == b'0',
        _ => false,
    }
}

/// Whether all are decimal digits.
fn are_digits(word: &[u8]) -> bool
    ensures { result ≡ list_all is_digit word.now }
{
    word.iter().all(|octet| is_digit(*octet))
}

fn is_digit(octet: u8) -> bool
    ensures { result ≡ is_digit octet }
{
    octet >= 48 && octet <= 57
}
