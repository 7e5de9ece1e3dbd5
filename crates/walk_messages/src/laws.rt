//! A law of messages, proved from the definition of their bytes.
ghost use Rattle.std.specs.Prelude.{◌≡◌};
ghost use Rattle.walk_messages.specs.declared.message.Message.{Message};
ghost use Rattle.walk_messages.specs.Messages.{IsMessage, message_text};

/// Two messages with equal bytes are equal.
pub fn a_message_has_one_text()
    ensures { (m n : Message) → IsMessage m → IsMessage n → message_text m ≡ message_text n → m ≡ n }
{}
