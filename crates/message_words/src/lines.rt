//! Lines as words.
ghost use Rattle.std.specs.Prelude.{◌≡◌, ◌==◌, map, Some, None, IfOk, if◌then◌else◌};
ghost use Rattle.std.specs.List.{slice_split};
ghost use Rattle.std.specs.Option.{option_copied};
ghost use Rattle.std.specs.Str.{bytes_eq};
ghost use Rattle.message_words.specs.Lines.{texts};
ghost use Rattle.message_words.specs.Reading.{is_ascii};

use std::alloc::{AllocError, Global};

/// The line as a text, if it is ASCII.
pub fn ascii_text(line: &[u8]) -> Option<&str>
    ensures { option_copied result ≡ (if is_ascii line.now then Some line.now else None) }
{
    if !is_ascii(line) {
        return None;
    }
    match str::from_utf8(line) {
        Ok(text) => Some(text),
        Err(_) => None,
    }
}

fn is_ascii(line: &[u8]) -> bool
    ensures { result ≡ is_ascii line.now }
{
    line.iter().all(|octet| *octet < 128)
}

/// The words of a line, which one blank divides.
pub fn words_in(alloc: Global, line: &str) -> Result<Vec<&str>, AllocError>
    ensures { IfOk result (λ words. texts words.items ≡ slice_split (λ octet. octet == 32) line.now) }
{
    line.split(' ').collect(alloc)
}

/// The words up to the first one that is the mark, and those behind each.
pub fn sections_in<'a, 't>(
    alloc: Global,
    words: &'a [&'t str],
    mark: &str,
) -> Result<Vec<&'a [&'t str]>, AllocError>
    ensures { IfOk result (λ parts. map (λ part. texts part.now) parts.items ≡ slice_split (λ word. bytes_eq word mark.now) (texts words.now)) }
{
    words.split(|word| *word == mark).collect(alloc)
}
