//! What a program's `main` does around its call.
use hk_base::{Memory, Octets};
use std::env::{Env, FillError};
use std::io::Write;

/// The most octets of a word, with one more.
const WORD_OCTETS: usize = 131_073;

/// A word that stands for every one that isn't UTF-8: no form has it, and no file can have it as its name.
const NO_WORD: &str = "\0";

/// The words after the program's name. One that isn't UTF-8 stands as a word of no form, which is the name of no file.
pub fn words(rt: &HostRuntime) -> Result<Vec<String>, Memory> {
    let mut words = Vec::new(rt.alloc());
    let mut octets = vec![in rt.alloc(); 0u8; WORD_OCTETS]?;
    for number in 1..usize::MAX {
        match rt.arg(number, &mut octets) {
            Ok(count) => words.push(word_of(rt, &octets[..count])?)?,
            Err(FillError::TooLong) => words.push(String::from_str(rt.alloc(), NO_WORD)?)?,
            Err(FillError::NotPresent) => break,
        }
    }
    Ok(words)
}

/// The word of these octets.
fn word_of(rt: &HostRuntime, octets: &[u8]) -> Result<String, Memory> {
    Ok(String::from_str(rt.alloc(), str::from_utf8(octets).unwrap_or(NO_WORD))?)
}

/// Prints a text as a line on standard error, and nothing of an empty one.
pub fn complain(rt: &HostRuntime, text: &Octets) {
    if text.as_slice().is_empty() {
        return;
    }
    let mut errors = rt.stderr();
    let _ = errors.write_all(text.as_slice());
    let _ = errors.write_all(b"\n");
}
