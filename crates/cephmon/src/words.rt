//! The arguments that the program was called with.

ghost use Rattle.std.specs.Prelude.{◌≡◌, ◌⊎◌, IfErr};
ghost use Rattle.run_status.specs.declared.status.Status.TheVariants.{Words, OutOfMemory};

use cephmon_run::Status;
use std::env::{Env, FillError};
use std::str;
use task_words::LONGEST_WORD;

/// The argument at this place, or nothing after the last one. An argument that is too long or isn't UTF-8 is refused.
fn word_at(rt: &(impl Env + AllocGlobal), place: usize) -> Result<Option<String>, Status>
    ensures { IfErr result (λ s. (s ≡ Words) ⊎ (s ≡ OutOfMemory)) }
{
    let mut bytes = [0; LONGEST_WORD];
    let count = match rt.arg(place, &mut bytes) {
        Ok(count) => count,
        Err(FillError::TooLong) => return Err(Status::Words),
        Err(FillError::NotPresent) => return Ok(None),
    };
    let Ok(text) = str::from_utf8(&bytes[..count]) else {
        return Err(Status::Words);
    };
    match String::from_str(rt.alloc(), text) {
        Ok(word) => Ok(Some(word)),
        Err(_) => Err(Status::OutOfMemory),
    }
}

/// The arguments after the program's name, which itself isn't read, or how the program ends if one of them is
/// refused.
pub fn words_of(rt: &(impl Env + AllocGlobal)) -> Result<Vec<String>, Status>
    ensures { IfErr result (λ s. (s ≡ Words) ⊎ (s ≡ OutOfMemory)) }
{
    let mut words = Vec::new(rt.alloc());
    for place in 1..usize::MAX {
        let Some(word) = word_at(rt, place)? else {
            break;
        };
        if words.push(word).is_err() {
            return Err(Status::OutOfMemory);
        }
    }
    Ok(words)
}
