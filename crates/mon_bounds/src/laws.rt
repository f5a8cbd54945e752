ghost use Rattle.std.specs.Prelude.{ℕ, List, IfOk, IsTrue, ◌↔◌};
ghost use Rattle.mon_bounds.specs.Fitting.{IsBounded, IsValidInput};
ghost use Rattle.mon_bounds.specs.Remembered.{MayPropose, MayRemember};
ghost use Rattle.mon_msg.specs.Protocol.Length.{fits};
ghost use Rattle.mon_msg.specs.Protocol.Reaction.{reaction};
ghost use Rattle.mon_msg.specs.Protocol.Records.{may_begin};
ghost use Rattle.mon_msg.specs.Protocol.State.{State, booting};
ghost use Rattle.mon_msg.specs.declared.input.Input.{Input};
ghost use Rattle.mon_msg.specs.declared.view.Me.{Me};
ghost use Rattle.mon_tx.specs.Map.{Store};
ghost use Rattle.mon_tx.specs.declared.op.Op.{Op};
ghost use Rattle.mon_wire.specs.Message.Whole.{HasText, IsMessage};
ghost use Rattle.mon_wire.specs.declared.message.Message.{Message};

/// What a monitor writes and sends is never too long. At boot its state is one that a monitor may have. Whatever its
/// store holds, however broken, and whatever input comes at whatever time: a store takes the transaction; each
/// message may be sent, with the one that carries a reply to a client's monitor; and the new state is again one that
/// a monitor may have. A BEGIN with a value of those that it remembers may be sent.
pub fn law_reaction_fits()
    ensures boot { (me : Me) → MayRemember me (booting me.member.rank) }
    ensures begins { (value : List Op) → MayPropose value → IsTrue (may_begin value) }
    ensures stays { (me : Me) (now : ℕ) (m : Store) (s : State) (came : Input) → MayRemember me s → IsValidInput came
        → IfOk (reaction me now m s came) (IsBounded me) }
{}

/// A message has an encoding if and only if it has the form of messages and fits: what was decoded may come, and what
/// may be sent can be encoded.
pub fn law_message_fits()
    ensures { (m : Message) → HasText m ↔ (IsMessage m × IsTrue (fits m.monitors m.body)) }
{}
