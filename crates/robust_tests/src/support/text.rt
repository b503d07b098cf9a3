//! Lines of text that tests read: words, and numbers.

use test_support::text::cut;

/// The part with this number, from 0, of a text whose parts are separated by `; `. An empty one, where there are fewer.
pub fn part(text: &str, at: usize) -> &str {
    let mut rest = text;
    for _ in 0..at {
        cut(&mut rest, "; ");
    }
    cut(&mut rest, "; ")
}

/// Takes a word off the front. A word that is no number counts as the greatest u64.
pub fn number(text: &mut &str) -> u64 {
    cut(text, " ").parse::<u64>().unwrap_or(u64::MAX)
}

/// The position of a name among names separated by `|`.
pub fn place(names: &str, name: &str) -> Option<u64> {
    let mut rest = names;
    for at in 0..names.len() as u64 {
        if rest.is_empty() {
            break;
        }
        if cut(&mut rest, "|") == name {
            return Some(at);
        }
    }
    None
}
