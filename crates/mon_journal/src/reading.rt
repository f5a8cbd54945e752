//! What a file holds, from its bytes.

ghost use Rattle.std.specs.Prelude.{◌≡◌, ℕ, ◌≤◌, ◌<◌, ◌^◌, List, IfOk, IfErr, ◌==◌};
ghost use Rattle.std.specs.List.{list_all};
ghost use Rattle.std.specs.Str.{bytes_eq};
ghost use Rattle.mon_journal.specs.Fields.{first_word, second_word, form_at, owner_at, zeros_at, generation_at, Reads};
ghost use Rattle.mon_journal.specs.Content.{header_of, header_at, IsOfForm};

use crate::journal::{Form, Journal};
use crate::stop::JournalStop;
use mon_bytes::Cursor;
use mon_types::{GREATEST, Member, Rank};

fn is_first_word(bytes: &[u8]) -> bool
    ensures { result ≡ bytes_eq bytes.now first_word }
{
    bytes == b"CEPHMON1".as_slice()
}

fn is_second_word(bytes: &[u8]) -> bool
    ensures { result ≡ bytes_eq bytes.now second_word }
{
    bytes == b"CEPHMON2".as_slice()
}

#[tactic(auto, unfolding(crate::specs::Fields::form_at))]
fn form_at(cursor: &mut Cursor<'_>) -> Result<Form, JournalStop>
    ensures word { Reads (λ form. form) result cursor.new (form_at cursor.old) }
    ensures form { IfErr result IsOfForm }
{
    let at = cursor.at();
    let word = cursor.take_bytes(8)?;
    if is_second_word(word) {
        return Ok(Form::Second);
    }
    if is_first_word(word) {
        return Ok(Form::First);
    }
    Err(JournalStop::NotAStore { at: at as u64 })
}

/// Reads the rank and the number of monitors from a header, or from any text that encodes a member in the same way.
/// `NotAStore` names the first byte of the first of the two that is missing or invalid. It takes no memory.
#[tactic(auto, unfolding(crate::specs::Fields::owner_at))]
pub fn read_owner(cursor: &mut Cursor<'_>) -> Result<Member, JournalStop>
    ensures owner { Reads (λ member. record { rank = member.rank; monitors = member.monitors }) result cursor.new
        (owner_at cursor.old) }
    ensures form { IfErr result IsOfForm }
{
    let at = cursor.at();
    let number = cursor.take_u8()?;
    let behind = cursor.at();
    let monitors = cursor.take_u8()?;
    if number >= monitors {
        return Err(JournalStop::NotAStore { at: at as u64 });
    }
    if monitors > 15 {
        return Err(JournalStop::NotAStore { at: behind as u64 });
    }
    let rank = Rank::known(number);
    Ok(Member { rank, monitors })
}

fn are_zeros(bytes: &[u8]) -> bool
    ensures { result ≡ list_all (λ b. b == 0) bytes.now }
{
    bytes.iter().all(|b| *b == 0)
}

#[tactic(auto, unfolding(crate::specs::Fields::zeros_at))]
fn zeros_at<'a>(cursor: &mut Cursor<'a>, count: usize) -> Result<&'a [u8], JournalStop>
    ensures zeros { Reads (λ zeros. zeros.now) result cursor.new (zeros_at count cursor.old) }
    ensures form { IfErr result IsOfForm }
{
    let at = cursor.at();
    let zeros = cursor.take_bytes(count)?;
    if !are_zeros(zeros) {
        return Err(JournalStop::NotAStore { at: at as u64 });
    }
    Ok(zeros)
}

#[tactic(auto, unfolding(crate::specs::Fields::generation_at))]
fn generation_at(cursor: &mut Cursor<'_>) -> Result<u64, JournalStop>
    ensures number { Reads (λ n. n) result cursor.new (generation_at cursor.old) }
    ensures most { IfOk result (λ n. n ≤ 2 ^ 62) }
    ensures form { IfErr result IsOfForm }
{
    let at = cursor.at();
    let generation = cursor.take_u64()?;
    if generation < 1 || generation > GREATEST {
        return Err(JournalStop::NotAStore { at: at as u64 });
    }
    Ok(generation)
}

/// The header, as a journal whose first closed gate is the one after it.
#[tactic(auto, unfolding(crate::specs::Content::header_at))]
pub fn header_at(cursor: &mut Cursor<'_>) -> Result<Journal, JournalStop>
    ensures header { Reads (λ journal. header_of journal) result cursor.new (header_at cursor.old) }
    ensures form { IfErr result IsOfForm }
{
    let form = form_at(cursor)?;
    let member = read_owner(cursor)?;
    zeros_at(cursor, 6)?;
    let generation = generation_at(cursor)?;
    Ok(Journal {
        member,
        generation,
        next_gate: cursor.at() as u64,
        form,
    })
}
