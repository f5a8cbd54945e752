use mon_types::Version;

/// What a reply was for a follower.
#[derive(Clone, Copy, PartialEq, Eq)]
pub enum Took {
    /// The copy is now at this version.
    Newer { version: Version },
    /// The reply has nothing newer than the copy, which is at this version.
    Known { version: Version },
    /// The reply's incrementals begin after this version, which is above the copy's: those between are missing.
    Ahead { from: Version },
    /// The incremental at this place of the reply's list, counted from 0, isn't one. The copy is unchanged.
    Bad { index: u64 },
    /// The reply isn't a map or incrementals of this service.
    Other,
}
