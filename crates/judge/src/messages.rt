//! A list of messages.

ghost use Rattle.std.specs.Prelude.{◌≡◌};

use redomail::Message;
use std::marker::Model;

/// Messages by rising place. In contracts they are a list.
#[derive(Debug, Drop)]
pub struct Messages {
    items: Vec<Message>,
}

impl Model for Messages {
    ghost use Rattle.std.specs.Prelude.{List};
    ghost use Rattle.redomail.specs.declared.message.Message.{Message};

    ghost Value = { List Message };

    ghost view = { λ a. a.items.items };
}

impl Messages {
    /// The messages of a vector.
    pub fn new(items: Vec<Message>) -> Messages
        ensures { result ≡ items.items }
    {
        Messages { items }
    }

    /// The messages, for reading.
    pub fn as_slice(&self) -> &[Message]
        ensures { result.now ≡ self.now }
    {
        self.items.as_slice()
    }

    /// The vector of the messages.
    pub fn into_vec(self) -> Vec<Message>
        ensures { result.items ≡ self }
    {
        let items = self.items;
        items
    }
}
