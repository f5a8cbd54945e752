//! The law that joins the length of a message with its text.

ghost use Rattle.std.specs.Prelude.{◌≡◌, length};
ghost use Rattle.mon_wire.specs.Message.Length.{message_length};
ghost use Rattle.mon_wire.specs.Message.Whole.{text, IsMessage};
ghost use Rattle.mon_wire.specs.declared.message.Message.{Message};

/// The length of a message by its parts is the length of its text.
pub fn law_length()
    ensures { (m : Message) → IsMessage m → message_length m.monitors m.body ≡ length (text m) }
{}
