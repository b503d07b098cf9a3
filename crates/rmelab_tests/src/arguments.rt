//! The words of command lines, and the help that they ask for. Each names public functions of `cli`.

pub mod helps;
mod words;
