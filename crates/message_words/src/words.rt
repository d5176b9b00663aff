//! Words at the end of a line.
ghost use Rattle.std.specs.Prelude.{◌≡◌, ◌∷◌, ◌++◌, ◌<◌, ◌≤◌, ◌-◌, ◌/◌, ◌%◌, ◌^◌, [], length, map, OnOk};
ghost use Rattle.std.specs.String.{string_bytes};
ghost use Rattle.std.specs.Fmt.{decimal, signed_decimal};
ghost use Rattle.message_words.specs.Words as spelling;
ghost use Rattle.message_words.specs.Words.{hex};
ghost use Rattle.message_words.specs.Tails.{tail};

use hk_base::{Kind, Value};
use std::alloc::AllocError;
use std::fmt::Write;

/// Appends a word.
pub fn push_word(line: &mut String, word: &str) -> Result<(), AllocError>
    ensures { OnOk result (string_bytes line.new ≡ string_bytes line.old ++ tail (word.now ∷ [])) }
{
    write!(line, " {word}")?;
    Ok(())
}

/// Appends a number.
pub fn push_number(line: &mut String, number: u32) -> Result<(), AllocError>
    ensures { OnOk result (string_bytes line.new ≡ string_bytes line.old ++ tail (decimal number ∷ [])) }
{
    write!(line, " {number}")?;
    Ok(())
}

/// Appends a number that may be negative.
pub fn push_value(line: &mut String, value: Value) -> Result<(), AllocError>
    ensures { OnOk result (string_bytes line.new ≡ string_bytes line.old ++ tail (signed_decimal value ∷ [])) }
{
    write!(line, " {value}")?;
    Ok(())
}

/// Appends numbers.
pub fn push_numbers(line: &mut String, numbers: &[u32]) -> Result<(), AllocError>
    ensures { OnOk result (string_bytes line.new ≡ string_bytes line.old ++ tail (map decimal numbers.now)) }
{
    for number in numbers {
        push_number(line, *number)?;
    }
    Ok(())
}

/// Appends a word and a number.
pub fn push_named(line: &mut String, name: &str, number: u32) -> Result<(), AllocError>
    ensures { OnOk result (string_bytes line.new ≡ string_bytes line.old ++ tail (name.now ∷ decimal number ∷ [])) }
{
    write!(line, " {name} {number}")?;
    Ok(())
}

/// Appends a word and how many there are of something.
pub fn push_count(line: &mut String, name: &str, count: usize) -> Result<(), AllocError>
    ensures { OnOk result (string_bytes line.new ≡ string_bytes line.old ++ tail (name.now ∷ decimal count ∷ [])) }
{
    write!(line, " {name} {count}")?;
    Ok(())
}

/// The word of a kind of structures.
pub fn kind_word(kind: Kind) -> &'static str
    ensures { result.now ≡ spelling.kind_word kind }
{
    match kind {
        Kind::Housekeeping => "hk",
        Kind::Diagnostic => "diag",
    }
}

/// Appends a number as so many digits to the base 16.
pub fn push_hex(line: &mut String, places: u32, number: u32) -> Result<(), AllocError>
    requires { places ≤ 8 }
    ensures { OnOk result (string_bytes line.new ≡ string_bytes line.old ++ tail (hex places number ∷ [])) }
{
    line.push(' ')?;
    for place in 0..places {
        line.push(hex_digit(number, places - 1 - place))?;
    }
    Ok(())
}

/// The digit of a number to the base 16 that so many stand behind, in lower case.
fn hex_digit(number: u32, behind: u32) -> char
    requires { behind < 8 }
    ensures digit { result ≡ spelling.hex_digit (number / 16 ^ behind % 16) }
    ensures ascii { result < 128 }
{
    let digit = number / 16u32.pow(behind) % 16;
    char::from(glyph(digit as u8))
}

/// A digit to the base 16 as an octet of a text.
fn glyph(digit: u8) -> u8
    requires { digit < 16 }
    ensures value { result ≡ spelling.hex_digit digit }
    ensures ascii { result < 128 }
{
    if digit < 10 {
        b'0' + digit
    } else {
        b'a' + (digit - 10)
    }
}
