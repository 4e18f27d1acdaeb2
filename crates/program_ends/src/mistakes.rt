//! Invalid arguments.

use std::alloc::{AllocError, Global};

/// The text about invalid arguments as one line: what is wrong, then the parser's tips, then which help
/// to try.
///
/// # Errors
/// If memory runs out.
pub fn one_line(alloc: Global, text: &str, command: Option<&str>) -> Result<String, AllocError> {
    let mut line = mistake(alloc, text)?;
    line.push_str("; try: tokentree help")?;
    if let Some(command) = command {
        line.push_str(" ")?;
        line.push_str(command)?;
    }
    Ok(line)
}

/// What is wrong, then the parser's tips.
fn mistake(alloc: Global, text: &str) -> Result<String, AllocError> {
    let mut line = String::new(alloc);
    for paragraph in text.split("\n\n") {
        let paragraph = paragraph.trim();
        if let Some(mistake) = paragraph.strip_prefix("error: ") {
            add_words(&mut line, mistake)?;
        } else if paragraph.starts_with("tip: ") {
            line.push_str("; ")?;
            add_words(&mut line, paragraph)?;
        }
    }
    Ok(line)
}

/// Adds the words of a text, separated by single spaces.
fn add_words(line: &mut String, text: &str) -> Result<(), AllocError> {
    for (place, word) in text.split_ascii_whitespace().enumerate() {
        if place > 0 {
            line.push_str(" ")?;
        }
        line.push_str(word)?;
    }
    Ok(())
}
