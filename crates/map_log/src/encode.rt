ghost use Rattle.std.specs.Prelude.{◌≡◌, ◌++◌, IfOk, OnOk};
ghost use Rattle.map_log.specs.Text.{inc_text, IncIsShort, IncFits};

use crate::inc::LogInc;
use mon_bytes::{Out, OutOfMemory, write_text};
use std::alloc::Global;

/// Appends an entry.
pub(crate) fn put_inc(out: &mut Out, inc: &LogInc) -> Result<(), OutOfMemory>
    requires { IncIsShort inc.now }
    ensures bytes { OnOk result (out.new ≡ out.old ++ inc_text inc.now) }
    ensures form { OnOk result (IncFits inc.now) }
{
    out.put_u8(inc.rank.get())?;
    write_text(out, &inc.text)
}

impl LogInc {
    /// The entry's encoding. The text must have fewer than 2 ^ 32 bytes.
    pub fn encode(&self, alloc: Global) -> Result<Vec<u8>, OutOfMemory>
        requires { IncIsShort self.now }
        ensures text { IfOk result (λ bytes. bytes.items ≡ inc_text self.now) }
        ensures form { IfOk result (λ _. IncFits self.now) }
    {
        let mut out = Out::new(alloc);
        put_inc(&mut out, self)?;
        Ok(out.into_bytes())
    }
}
