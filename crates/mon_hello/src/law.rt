//! What identities and hellos keep apart.

ghost use Rattle.mon_hello.specs.Laws.{AnswersEnd, HelloOnly, HelloReadBack, HelloShort, IdentitiesApart};

/// Two identities never have one encoding.
pub fn law_identity()
    ensures { IdentitiesApart }
{}

/// A hello is read from its encoding, and from nothing else. Its encoding has at most 385 bytes. The
/// answer to a hello isn't answered.
pub fn law_hello()
    ensures back { HelloReadBack }
    ensures only { HelloOnly }
    ensures short { HelloShort }
    ensures ends { AnswersEnd }
{}
