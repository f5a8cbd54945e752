//! The bytes of a header and of a record.

ghost use Rattle.std.specs.Prelude.{◌≡◌, ◌<◌, ◌^◌, ◌++◌, [], ◌∷◌, length, OnOk, IfOk, option_map};
ghost use Rattle.mon_bytes.specs.Forms.{u32_bytes};
ghost use Rattle.std.specs.Option.{ForSome};
ghost use Rattle.mon_journal.specs.Written.{payload_bytes, generation_bytes, header_bytes, first_record, head_bytes, owner_of};

use mon_bytes::{Out, OutOfMemory, write_count};
use mon_types::Member;
use std::alloc::Global;

/// Appends the bytes of a record after its gate: the payload's length, and the payload.
pub fn put_payload(out: &mut Out, payload: &[u8]) -> Result<(), OutOfMemory>
    requires { length payload.now < 2 ^ 32 }
    ensures { OnOk result (out.new ≡ out.old ++ payload_bytes payload.now) }
{
    write_count(out, payload.len() as u32)?;
    out.put_bytes(payload)
}

/// The bytes of a record after its gate, and the next gate, closed.
pub fn record_body(alloc: Global, payload: &[u8]) -> Result<Vec<u8>, OutOfMemory>
    requires { length payload.now < 2 ^ 32 }
    ensures { IfOk result (λ body. body.items ≡ payload_bytes payload.now ++ 0 ∷ []) }
{
    let mut out = Out::new(alloc);
    put_payload(&mut out, payload)?;
    out.put_u8(0)?;
    Ok(out.into_bytes())
}

#[tactic(auto, unfolding(crate::specs::Written::generation_bytes))]
fn put_header(out: &mut Out, member: &Member, generation: u64) -> Result<(), OutOfMemory>
    ensures { OnOk result (out.new ≡ out.old ++ header_bytes (owner_of member.now) generation) }
{
    out.put_bytes(b"CEPHMON2")?;
    out.put_u8(member.rank.get())?;
    out.put_u8(member.monitors)?;
    out.put_bytes(&[0; 6])?;
    out.put_u64(generation)?;
    Ok(())
}

fn put_first(out: &mut Out, first: Option<&[u8]>) -> Result<(), OutOfMemory>
    requires { ForSome first (λ payload. length payload.now < 2 ^ 32) }
    ensures { OnOk result (out.new ≡ out.old ++ first_record (option_map (λ payload. payload.now) first.entry)) }
{
    let Some(payload) = first else {
        return Ok(());
    };
    out.put_u8(1)?;
    put_payload(out, payload)
}

/// The bytes of a new file after its first gate: the header, the first record if there is one, and a closed gate.
pub fn head_bytes(
    alloc: Global,
    member: &Member,
    generation: u64,
    first: Option<&[u8]>,
) -> Result<Vec<u8>, OutOfMemory>
    requires { ForSome first (λ payload. length payload.now < 2 ^ 32) }
    ensures { IfOk result (λ bytes. bytes.items
        ≡ head_bytes (owner_of member.now) generation (option_map (λ payload. payload.now) first.entry)) }
{
    let mut out = Out::new(alloc);
    put_header(&mut out, member, generation)?;
    put_first(&mut out, first)?;
    out.put_u8(0)?;
    Ok(out.into_bytes())
}
