ghost use Rattle.std.specs.Prelude.{◌≡◌, ℕ, ◌≤◌, ◌<◌, ◌+◌, ◌^◌, List, [], ◌∷◌, ◌++◌, length, IfOk, OnOk, OnErr};
ghost use Rattle.map_log.specs.Map.{with_inc, trimmed};
ghost use Rattle.map_log.specs.Text.{map_text, MapFits, MapIsShort};

use crate::encode::put_inc;
use crate::inc::LogInc;
use crate::surplus::{inc_size, surplus};
use mon_bytes::{Out, OutOfMemory, write_count};
use mon_types::GREATEST;
use std::alloc::Global;
use std::marker::Model;

/// The entries of the cluster log, the oldest first.
#[derive(Drop)]
pub struct LogMap {
    alloc: Global,
    entries: Vec<LogInc>,
    size: u64,
}

impl Model for LogMap {
    ghost use Rattle.std.specs.Prelude.{List};
    ghost use Rattle.map_log.specs.declared.inc.LogInc.{LogInc};
    ghost use Rattle.map_log.specs.Text.{IsKept};

    ghost Value = { List LogInc };

    ghost view = { λ m. m.entries.items };

    ghost invariant = { λ m. IsKept m.entries.items m.size };
}

impl LogMap {
    /// The empty map. It takes no memory.
    pub fn new(alloc: Global) -> LogMap
        ensures { result ≡ [] }
    {
        LogMap {
            alloc,
            entries: Vec::new(alloc),
            size: 4,
        }
    }

    /// The entries, the oldest first.
    pub fn entries(&self) -> &[LogInc]
        ensures { result.now ≡ self.now }
    {
        self.entries.as_slice()
    }

    /// An equal map.
    pub fn copy(&self) -> Result<LogMap, OutOfMemory>
        ensures { IfOk result (λ map. map ≡ self.now) }
    {
        let mut copied = LogMap::new(self.alloc);
        for inc in &self.entries {
            copied.push(inc.copy(self.alloc)?)?;
        }
        Ok(copied)
    }

    /// The length of the encoded map. It takes no memory.
    pub fn size(&self) -> u64
        ensures size { result ≡ length (map_text self.now) }
        ensures most { result ≤ 2 ^ 62 }
        ensures short { result < 2 ^ 32 → MapIsShort self.now }
    {
        self.size
    }

    /// Appends an entry and drops none. After `OutOfMemory` the map is unchanged.
    pub(crate) fn push(&mut self, inc: LogInc) -> Result<(), OutOfMemory>
        ensures ok { OnOk result (self.new ≡ self.old ++ inc ∷ []) }
        ensures err { OnErr result (self.new ≡ self.old) }
    {
        let size = self.size + inc_size(&inc);
        if size > GREATEST {
            return Err(OutOfMemory);
        }
        self.entries.push(inc)?;
        self.size = size;
        Ok(())
    }

    /// Drops entries from the front while the map is above its limits.
    fn trim(&mut self)
        ensures { self.new ≡ trimmed self.old }
    {
        let (gone, size) = surplus(self.entries.as_slice(), self.size);
        drop(self.entries.drain(..gone));
        self.size = size;
    }

    /// Appends the entry, and then drops entries from the front while there are more than 500 or the encoded map is
    /// longer than 12,288 bytes. After `OutOfMemory` the map is unchanged.
    pub fn apply(&mut self, inc: &LogInc) -> Result<(), OutOfMemory>
        ensures ok { OnOk result (self.new ≡ with_inc self.old inc.now) }
        ensures err { OnErr result (self.new ≡ self.old) }
    {
        let inc = inc.copy(self.alloc)?;
        self.push(inc)?;
        self.trim();
        Ok(())
    }

    /// The map's encoding. There must be fewer than 2 ^ 32 entries, each with a text of fewer than 2 ^ 32 bytes.
    pub fn encode(&self) -> Result<Vec<u8>, OutOfMemory>
        requires { MapIsShort self.now }
        ensures text { IfOk result (λ bytes. bytes.items ≡ map_text self.now) }
        ensures form { IfOk result (λ _. MapFits self.now) }
    {
        let mut out = Out::new(self.alloc);
        write_count(&mut out, self.entries.len() as u32)?;
        for inc in &self.entries {
            put_inc(&mut out, inc)?;
        }
        Ok(out.into_bytes())
    }
}
