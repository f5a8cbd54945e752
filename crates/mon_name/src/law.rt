//! What frames and numbers keep apart.

ghost use Rattle.mon_name.specs.Laws.{FrameComesOff, TagsApart, PiecesRenumbered, LivesApart};

/// The frame comes off what was framed. What is in the frame of another tag is never taken.
pub fn law_frame()
    ensures off { FrameComesOff }
    ensures apart { TagsApart }
{}

/// Renumbering the pieces that a message has under a boot gives its pieces under the number of the life.
pub fn law_renumber()
    ensures { PiecesRenumbered }
{}

/// Two lives with different numbers never send pieces with the same number of a life and the same seq, whatever they
/// are given to send.
pub fn law_lives_apart()
    ensures { LivesApart }
{}
