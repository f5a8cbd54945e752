//! The lines that say how another monitor differs.

ghost use Rattle.std.specs.Prelude.{◌<◌};

use crate::hello::Hello;
use election_rules::Rule;
use mon_link::Address;
use mon_types::{Rank, RankSet};
use std::alloc::{AllocError, Global};
use std::fmt::Write;

/// A receiver of lines.
pub trait Say {
    /// Says a line, which is given without its end.
    fn say(&mut self, line: &str);
}

/// In what another monitor differs.
#[derive(Clone, Copy, PartialEq, Eq)]
pub(crate) enum Reason {
    Name,
    Monitors,
    Rule,
    Addresses,
    Version,
    Unnamed,
}

impl Reason {
    /// The differences that a hello can show.
    pub(crate) const IN_HELLO: [Reason; 5] = [
        Reason::Name,
        Reason::Monitors,
        Reason::Rule,
        Reason::Addresses,
        Reason::Version,
    ];

    /// The place of the reason among all six.
    pub(crate) fn place(self) -> usize
        ensures { result < 6 }
    {
        match self {
            Reason::Name => 0,
            Reason::Monitors => 1,
            Reason::Rule => 2,
            Reason::Addresses => 3,
            Reason::Version => 4,
            Reason::Unnamed => 5,
        }
    }
}

/// The line that says how a monitor's hello differs from one's own for this reason. It is empty if it doesn't differ.
pub(crate) fn line_of(
    alloc: Global,
    reason: Reason,
    from: Rank,
    theirs: &Hello,
    ours: &Hello,
) -> Result<String, AllocError> {
    let mut line = String::new(alloc);
    match reason {
        Reason::Name => put_name(&mut line, from, theirs, ours)?,
        Reason::Monitors => put_monitors(&mut line, from, theirs, ours)?,
        Reason::Rule => put_rules(&mut line, from, theirs, ours)?,
        Reason::Addresses => put_addresses(&mut line, from, theirs, ours)?,
        Reason::Version => put_version(&mut line, from, theirs, ours)?,
        Reason::Unnamed => {}
    }
    Ok(line)
}

/// The line about a monitor whose datagrams have no frame, or the frame of another quorum.
pub(crate) fn unnamed_line(alloc: Global, from: Rank) -> Result<String, AllocError> {
    let mut line = String::new(alloc);
    let rank = from.get();
    write!(
        line,
        "monitor {rank} sends datagrams of another quorum or of a program without names"
    )?;
    Ok(line)
}

// A name may have any characters, also those that control a terminal: it is quoted.
fn put_name(line: &mut String, from: Rank, theirs: &Hello, ours: &Hello) -> Result<(), AllocError> {
    let (rank, name, own) = (
        from.get(),
        theirs.identity.name.as_str(),
        ours.identity.name.as_str(),
    );
    if name == own {
        return Ok(());
    }
    write!(
        line,
        "monitor {rank} is of another quorum: name {name:?}, not {own:?}"
    )
}

fn put_monitors(
    line: &mut String,
    from: Rank,
    theirs: &Hello,
    ours: &Hello,
) -> Result<(), AllocError> {
    let (rank, count, own) = (from.get(), theirs.identity.monitors, ours.identity.monitors);
    if count == own {
        return Ok(());
    }
    write!(line, "monitor {rank} has {count} monitors, not {own}")
}

fn put_ranks(line: &mut String, ranks: RankSet) -> Result<(), AllocError> {
    let mut first = true;
    for rank in ranks.iter() {
        let rank = rank.get();
        if first {
            write!(line, "={rank}")?;
        } else {
            write!(line, ",{rank}")?;
        }
        first = false;
    }
    Ok(())
}

fn put_rule(line: &mut String, rule: &Rule) -> Result<(), AllocError> {
    match rule {
        Rule::Classic => line.push_str("classic"),
        Rule::Disallow(ranks) => {
            line.push_str("disallow")?;
            put_ranks(line, *ranks)
        }
        Rule::Connectivity(ranks) => {
            line.push_str("connectivity")?;
            put_ranks(line, *ranks)
        }
    }
}

fn put_rules(
    line: &mut String,
    from: Rank,
    theirs: &Hello,
    ours: &Hello,
) -> Result<(), AllocError> {
    if theirs.identity.rule == ours.identity.rule {
        return Ok(());
    }
    let rank = from.get();
    write!(line, "monitor {rank} has another rule: ")?;
    put_rule(line, &theirs.identity.rule)?;
    line.push_str(", not ")?;
    put_rule(line, &ours.identity.rule)
}

fn put_address(line: &mut String, address: &Address) -> Result<(), AllocError> {
    let [a, b, c, d] = address.host;
    let port = address.port;
    write!(line, "{a}.{b}.{c}.{d}:{port}")
}

/// The first rank at which two lists of addresses differ.
fn first_other(theirs: &[Address], ours: &[Address]) -> Option<usize> {
    for place in 0..theirs.len().min(ours.len()) {
        if theirs[place] != ours[place] {
            return Some(place);
        }
    }
    None
}

fn put_addresses(
    line: &mut String,
    from: Rank,
    theirs: &Hello,
    ours: &Hello,
) -> Result<(), AllocError> {
    let (theirs, ours) = (theirs.addresses.as_slice(), ours.addresses.as_slice());
    let Some(place) = first_other(theirs, ours) else {
        return Ok(());
    };
    if let (Some(address), Some(own)) = (theirs.get(place), ours.get(place)) {
        let rank = from.get();
        write!(line, "monitor {rank} knows monitor {place} at ")?;
        put_address(line, address)?;
        line.push_str(", not ")?;
        put_address(line, own)?;
    }
    Ok(())
}

fn put_version(
    line: &mut String,
    from: Rank,
    theirs: &Hello,
    ours: &Hello,
) -> Result<(), AllocError> {
    let (rank, version, own) = (from.get(), theirs.version.as_str(), ours.version.as_str());
    if version == own {
        return Ok(());
    }
    write!(line, "monitor {rank} runs version {version}, not {own}")
}
