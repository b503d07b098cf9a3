//! Texts that ask for much: they are refused, or read in bounded time.

use crate::bad_texts;
use crate::support::number;
use std::alloc::{AllocError, Global};
use std::test::Fail;

/// Texts with a part that stands there many times, and where their reading fails: first it says how often, what is repeated
/// stands after `@`, and a line feed ends the text.
pub const HOSTILE: &str = "\
repeat in texts that are refused\n\
== 100000 10 MB in a line\n@xxxxxxxxxxxxxxxxxxxxxxxxxxxxxxxxxxxxxxxxxxxxxxxxxxxxxxxxxxxxxxxxxxxxxxxxxxxxxxxxxxxxxxxxxxxxxxxxxxxx--\nline 1: fault 16\n\
== 1000000 10 MB of empty lines\n@\n\n\n\n\n\n\n\n\n\n--\nline 4097: fault 16\n\
== 5000 comments alone\n@#\n--\nline 4097: fault 16\n\
== 2000 too many lines\nalgorithm a for 2 processes\npromises exclusion\nshared x\ncall lock\nv := x\n@v := x\n--\nline 1025: fault 16\n\
== 500 a long name\nalgorithm @n--\nline 1: fault 16\n\
== 10000 a name of 10,000 letters\nalgorithm @n--\nline 1: fault 16\n\
== 100 a long number\n@9--\nline 1: fault 16\n\
== 20 a number above 2^64 - 1\n@9--\nline 1: fault 16\n\
== 3 NUL\n@\0--\nline 1: fault 2\n\
== 900 brackets\nalgorithm a for 2 processes\npromises exclusion\nshared x\ncall lock\nv := @(--\nline 5: fault 16\n\
== 1000 blocks\nalgorithm a for 2 processes\npromises exclusion\nshared x\ncall lock\nv := x\n@if v = 0 then\n--\nline 22: fault 16\n\
";

/// A long text that is read. What stands after a second `@` comes once, at its end.
pub const LONG: &str =
    "repeat in a long text\n== 1000 a long text\nalgorithm a for 2 processes\npromises exclusion\nshared x\ncall unlock\nx := 0 this is leave\ndone\ncall lock\n@v := x\n@this is enter\ndone--\nread\n";

/// Writes the text that a case gives, with its repeated part.
fn put_whole(times: u64, given: &str, whole: &mut String) -> Result<(), AllocError> {
    let (head, rest) = given.split_once('@').unwrap_or((given, ""));
    let (part, tail) = rest.split_once('@').unwrap_or((rest, ""));
    whole.push_str(head)?;
    for _ in 0..times {
        whole.push_str(part)?;
    }
    whole.push_str(tail)?;
    whole.push_str("\n")
}

/// Writes what the reading of a text with a repeated part comes to.
pub fn put_reading(
    alloc: Global,
    words: &[&str; 8],
    given: &str,
    text: &mut String,
) -> Result<(), Fail> {
    let mut whole = String::new(alloc);
    put_whole(number(words[0]), given, &mut whole)?;
    bad_texts::put_reading(alloc, whole.as_bytes(), text)
}
