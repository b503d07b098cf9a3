//! The rules of an image (docs/dev/texts.md, Image).

ghost use Rattle.std.specs.Prelude.{◌≡◌, ◌≤◌};

/// A rule that an image has to keep, in the order in which they are checked.
#[derive(Clone, Copy)]
pub enum Rule {
    Form,
    Version,
    Sizes,
    Length,
    Rows,
    Inside,
    Heads,
    List,
    Record,
}

impl Rule {
    ghost use Rattle.cli.specs.Names.{number_of_rule};

    /// The rule's number, from 1 to 9.
    pub fn number(self) -> u64
        ensures reports { result ≡ number_of_rule self }
        ensures few { result ≤ 9 }
    {
        match self {
            Rule::Form => 1,
            Rule::Version => 2,
            Rule::Sizes => 3,
            Rule::Length => 4,
            Rule::Rows => 5,
            Rule::Inside => 6,
            Rule::Heads => 7,
            Rule::List => 8,
            Rule::Record => 9,
        }
    }
}
