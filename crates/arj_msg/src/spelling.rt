// The law of spellings.
ghost use Rattle.std.specs.Prelude.{◌≡◌};
ghost use Rattle.std.specs.List.{concat};
ghost use Rattle.arj_msg.specs.Layout.{message_bytes, message_fields, MessageInForm};
ghost use Rattle.arj_msg.specs.declared.message.Message.{Message};

/// No two messages have one spelling, and the spelling of a message is that of its fields, one behind the other. It
/// does nothing when it runs.
pub fn one_spelling()
    ensures once { (m n : Message) → MessageInForm m → MessageInForm n → message_bytes m ≡ message_bytes n → m ≡ n }
    ensures fields { (m : Message) → MessageInForm m → concat (message_fields m) ≡ message_bytes m }
{}
