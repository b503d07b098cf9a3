//! The work that the command line asks for.

ghost use Rattle.std.specs.Prelude.{IfSome, IsNone};
ghost use Rattle.rmebench.specs.declared.order.Order.{Order as OrderOf};
ghost use Rattle.rmebench.specs.Sizes.{Asks, IsFit};

/// The most messages of a mailbox.
pub const MOST_MESSAGES: u64 = 65_536;

/// The work, and how often it is done.
#[derive(Clone, Copy, Debug, PartialEq, Eq)]
pub enum Order {
    /// `threads` of an arena's members lock and unlock, each on a thread of its own.
    Lock {
        procs: u64,
        threads: u64,
        rounds: u64,
    },
    /// One member of an arena appends messages of this width.
    Append {
        procs: u64,
        width: u64,
        rounds: u64,
    },
}

impl Order {
    /// The work that the words ask for; the first word is the program's name. None: they ask for no work.
    pub fn of_words(words: &[String]) -> Option<Order>
        ensures { IfSome result IsFit }
    {
        if words.len() != 5 {
            return None;
        }
        let procs = words[2].parse::<u64>().ok()?;
        let second = words[3].parse::<u64>().ok()?;
        let rounds = words[4].parse::<u64>().ok()?;
        Order::of(words[1].as_str(), procs, second, rounds)
    }

    /// The work with this name and these numbers, if they are in range.
    fn of(name: &str, procs: u64, second: u64, rounds: u64) -> Option<Order>
        ensures fits { IfSome result IsFit }
        ensures asked { IfSome result (Asks name.now procs second rounds) }
        ensures none { IsNone result → (order : OrderOf) → Asks name.now procs second rounds order → IsFit order → ⊥ }
    {
        if procs == 0 || procs > 64 || second == 0 {
            return None;
        }
        match name {
            "lock" if second <= procs => Some(Order::Lock {
                procs,
                threads: second,
                rounds,
            }),
            "append" if second <= 8 && rounds <= MOST_MESSAGES => Some(Order::Append {
                procs,
                width: second,
                rounds,
            }),
            _ => None,
        }
    }

    /// The name of what is counted.
    pub fn counted_name(&self) -> &str {
        match self {
            Order::Lock { .. } => "entries",
            Order::Append { .. } => "messages",
        }
    }
}
