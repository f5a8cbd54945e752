ghost use Rattle.std.specs.Prelude.{◌≡◌, ◌++◌, IsTrue, IfOk, OnOk};
ghost use Rattle.mon_bytes.specs.Texts.{is_name};
ghost use Rattle.map_kv.specs.Text.{key_text, inc_text, IncIsShort, IncFits};

use crate::inc::KvInc;
use mon_bytes::{Out, OutOfMemory, write_text};
use std::alloc::Global;

/// Appends a name with its length in one byte.
pub(crate) fn put_name(out: &mut Out, name: &str) -> Result<(), OutOfMemory>
    requires { IsTrue (is_name name.now) }
    ensures { OnOk result (out.new ≡ out.old ++ key_text name.now) }
{
    out.put_word(name.as_bytes())
}

impl KvInc {
    /// The incremental's encoding. The value must have fewer than 2 ^ 32 bytes.
    pub fn encode(&self, alloc: Global) -> Result<Vec<u8>, OutOfMemory>
        requires { IncIsShort self.now }
        ensures text { IfOk result (λ bytes. bytes.items ≡ inc_text self.now) }
        ensures form { IfOk result (λ _. IncFits self.now) }
    {
        let mut out = Out::new(alloc);
        match self {
            KvInc::Set { key, value } => {
                out.put_u8(1)?;
                put_name(&mut out, key.as_str())?;
                write_text(&mut out, value)?;
            }
            KvInc::Remove { key } => {
                out.put_u8(2)?;
                put_name(&mut out, key.as_str())?;
            }
        }
        Ok(out.into_bytes())
    }
}
