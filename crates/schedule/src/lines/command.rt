//! The first words of a schedule's lines.

ghost use Rattle.std.specs.Prelude.{◌≡◌};
ghost use Rattle.schedule.specs.Words.{value_of_name};
ghost use Rattle.schedule.specs.Commands.{commands_by_name};

/// The first word of a line: a call that a process starts, or `step`, or `crash`.
#[derive(Clone, Copy)]
pub enum Keyword {
    Lock,
    Unlock,
    Consistent,
    Recover,
    Append,
    Close,
    Put,
    Get,
    Withdraw,
    Step,
    Crash,
}

/// The command that a word names.
pub fn command_at(word: &[u8]) -> Option<Keyword>
    ensures { result ≡ value_of_name commands_by_name word.now }
{
    if word == b"lock".as_slice() {
        Some(Keyword::Lock)
    } else if word == b"unlock".as_slice() {
        Some(Keyword::Unlock)
    } else if word == b"consistent".as_slice() {
        Some(Keyword::Consistent)
    } else if word == b"recover".as_slice() {
        Some(Keyword::Recover)
    } else if word == b"append".as_slice() {
        Some(Keyword::Append)
    } else if word == b"close".as_slice() {
        Some(Keyword::Close)
    } else if word == b"put".as_slice() {
        Some(Keyword::Put)
    } else if word == b"get".as_slice() {
        Some(Keyword::Get)
    } else if word == b"withdraw".as_slice() {
        Some(Keyword::Withdraw)
    } else if word == b"step".as_slice() {
        Some(Keyword::Step)
    } else if word == b"crash".as_slice() {
        Some(Keyword::Crash)
    } else {
        None
    }
}
