//! A hint as a terminal may get it. Words and paths come from others, and a word may be a key in place of its file's
//! name.
use std::alloc::{AllocError, Global};

/// From so many hexadecimal digits on a word may be a secret: 32 are a seed of 16 bytes.
const LEAST_SECRET: usize = 32;

/// The most characters of a hint.
const MOST: usize = 500;

/// The beginning of a PEM file: a key in base64 follows.
const PEM: &str = "-----BEGIN ";

/// The text without control characters, which a terminal would obey, and without long runs of hexadecimal digits. It is
/// cut if it is long, and before the text of a PEM file.
pub(crate) fn shown(alloc: Global, text: &str) -> Result<String, AllocError> {
    let mut line = String::new(alloc);
    let mut digits = String::new(alloc);
    let front = text.split(PEM).next().unwrap_or("");
    for c in front.chars().take(MOST) {
        if c.is_ascii_hexdigit() {
            digits.push(c)?;
        } else {
            push_digits(&mut line, &digits)?;
            digits.clear();
            line.push(printable(c))?;
        }
    }
    if front.len() == text.len() && text.chars().count() <= MOST {
        push_digits(&mut line, &digits)?;
    } else {
        line.push_str(" ..")?;
    }
    line.push_str("\n")?;
    Ok(line)
}

/// Adds a run of digits, or a word in its place if it may be a secret.
fn push_digits(line: &mut String, digits: &String) -> Result<(), AllocError> {
    if digits.len() < LEAST_SECRET {
        line.push_str(digits.as_str())
    } else {
        line.push_str("(digits)")
    }
}

/// The character, or a question mark in place of one that does more than to be seen.
fn printable(c: char) -> char {
    if c == ' ' || c.is_ascii_graphic() || c.is_alphanumeric() {
        c
    } else {
        '?'
    }
}
