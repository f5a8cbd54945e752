//! Shows the prover that entries in messages are named as they must be. The type of an entry says so, and no code
//! changes anything: these walks are for the proof alone.

ghost use Rattle.std.specs.List.{AllByRecursion};
ghost use Rattle.mon_bounds.specs.Fitting.{IsNamed};
ghost use Rattle.mon_core.specs.Reacts.{SendsNamed};

use mon_bytes::Entry;
use mon_msg::Body;
use mon_msg::plan::Sent;

fn see_entry(entry: &Entry)
    ensures { IsNamed entry.now }
{
    entry.prefix.as_slice();
    entry.key.as_slice();
}

fn see_entries(entries: &[Entry])
    ensures { AllByRecursion IsNamed entries.now }
{
    for entry in entries {
        see_entry(entry);
    }
}

fn see_sent(sent: &Sent)
    ensures { SendsNamed sent.now }
{
    let Sent::Message { message, .. } = sent else {
        return;
    };
    match &message.body {
        Body::Chunk { entries, .. } => see_entries(entries.as_slice()),
        Body::LastChunk { entries, .. } => see_entries(entries.as_slice()),
        _ => {}
    }
}

/// Each message that is sent.
pub(crate) fn see_named(out: &[Sent])
    ensures { AllByRecursion SendsNamed out.now }
{
    for sent in out {
        see_sent(sent);
    }
}
