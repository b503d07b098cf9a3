//! The parts of a text that a test reads.

/// Takes the text before the separator off the front. Without a separator it takes all.
pub fn cut<'a>(text: &mut &'a str, separator: &str) -> &'a str {
    let (part, rest) = text.split_once(separator).unwrap_or((text, ""));
    *text = rest;
    part
}
