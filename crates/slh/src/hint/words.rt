//! Hints on arguments that are no command: the text of `clap`, in one line.
use super::Hint;
use clap::Error;
use std::alloc::{AllocError, Global};

/// The text of `clap` on the arguments of a command, if they begin with one, and the help that has their form.
pub(super) fn hint(alloc: Global, command: Option<&str>, error: &Error) -> Hint {
    let text = error.to_string(alloc)?;
    let mut line = said(alloc, text.as_str())?;
    let advice = advice_on(line.as_str());
    line.push_str(advice)?;
    line.push_str("; see `slh ")?;
    if let Some(name) = command {
        line.push_str(name)?;
        line.push_str(" ")?;
    }
    line.push_str("--help`")?;
    Ok(Some(line))
}

/// The paragraphs of `clap`'s text up to the usage, in one line. Its tip to write `--` before a value fits no command
/// here, since each value follows its option.
fn said(alloc: Global, text: &str) -> Result<String, AllocError> {
    let mut line = String::new(alloc);
    for part in text.split('\n') {
        let part = part.trim().trim_start_matches("error: ");
        if part.starts_with("Usage: ") || part.starts_with("For more ") {
            break;
        }
        if part.is_empty() || part.contains("as a value, use ") {
            continue;
        }
        if part.starts_with("tip: ") {
            line.push_str(";")?;
        }
        if !line.is_empty() {
            line.push_str(" ")?;
        }
        line.push_str(part.trim_start_matches("tip: "))?;
    }
    Ok(line)
}

/// Advice on three mistakes that `clap` can't know: a value that begins with `-`, a file name without its option, and a
/// shell variable that is empty.
fn advice_on(line: &str) -> &'static str {
    if line.starts_with("unexpected argument '--") {
        ""
    } else if line.starts_with("unexpected argument '-") {
        "; a value that begins with - goes after =, as --message=-letter.txt"
    } else if line.starts_with("unexpected argument '") {
        "; a file goes after its option, as --key FILE, and a name with spaces into quotes"
    } else if line.starts_with("a value is required for") {
        "; is a shell variable empty?"
    } else {
        ""
    }
}
