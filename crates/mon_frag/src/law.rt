//! What an assembly answers, whatever the network does.

ghost use Rattle.mon_frag.specs.Whole.{AllWhole};

/// Let datagrams come from peers. Those of one peer are datagrams of messages that it sent. No two of its messages that
/// are longer than a datagram share their two numbers, and none of its messages begins with the byte 02. What comes from
/// other peers are any bytes. Then each answer to that peer is a whole message that it sent, whatever is lost, comes
/// again or comes late.
pub fn law_whole()
    ensures { AllWhole }
{}
