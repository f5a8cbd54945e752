//! The fields of messages, encoded.

ghost use Rattle.std.specs.Prelude.{◌≡◌, ℕ, ◌<◌, ◌^◌, ◌∷◌, [], ◌++◌, length, OnOk};
ghost use Rattle.mon_bytes.specs.Forms.{text_bytes};
ghost use Rattle.mon_tx.specs.Text.{text as transaction_text};
ghost use Rattle.mon_tx.specs.Decode.{HasText};
ghost use Rattle.mon_wire.specs.Message.Format.{u16_bytes};
ghost use Rattle.mon_wire.specs.Message.Fields.{number_bytes, flag_byte, set_bytes, service_byte};

use crate::request::Service;
use mon_bytes::{Out, OutOfMemory, write_count};
use mon_tx::{EncodeRefused, Transaction};
use mon_types::RankSet;

#[tactic(auto, unfolding(crate::specs::Message::Fields::number_bytes))]
pub(crate) fn write_number(out: &mut Out, number: u64) -> Result<(), OutOfMemory>
    ensures { OnOk result (out.new ≡ out.old ++ number_bytes number) }
{
    out.put_u64(number)
}

#[tactic(auto, unfolding(mon_bytes::specs::Format::u16_bytes))]
pub(crate) fn write_u16(out: &mut Out, count: u16) -> Result<(), OutOfMemory>
    ensures { OnOk result (out.new ≡ out.old ++ u16_bytes count) }
{
    out.put_u16(count)
}

pub(crate) fn write_flag(out: &mut Out, flag: bool) -> Result<(), OutOfMemory>
    ensures { OnOk result (out.new ≡ out.old ++ flag_byte flag ∷ []) }
{
    if flag { out.put_u8(1) } else { out.put_u8(0) }
}

#[tactic(auto, unfolding(crate::specs::Message::Fields::set_bytes))]
pub(crate) fn write_set(out: &mut Out, ranks: RankSet) -> Result<(), OutOfMemory>
    ensures { OnOk result (out.new ≡ out.old ++ set_bytes ranks) }
{
    out.put_u16(ranks.to_bits())
}

pub(crate) fn write_bytes(out: &mut Out, bytes: &[u8]) -> Result<(), OutOfMemory>
    requires { length bytes.now < 2 ^ 32 }
    ensures { OnOk result (out.new ≡ out.old ++ text_bytes bytes.now) }
{
    write_count(out, bytes.len() as u32)?;
    out.put_bytes(bytes)
}

pub(crate) fn write_value(out: &mut Out, value: &Transaction) -> Result<(), OutOfMemory>
    requires { HasText value.now }
    ensures { OnOk result (out.new ≡ out.old ++ text_bytes (transaction_text value.now)) }
{
    match value.encode() {
        Ok(text) => write_bytes(out, &text),
        Err(EncodeRefused::OutOfMemory) => Err(OutOfMemory),
        Err(EncodeRefused::TooLong { .. }) => unreachable!(),
    }
}

pub(crate) fn write_service(out: &mut Out, service: Service) -> Result<(), OutOfMemory>
    ensures { OnOk result (out.new ≡ out.old ++ service_byte service ∷ []) }
{
    match service {
        Service::Kv => out.put_u8(1),
        Service::Log => out.put_u8(2),
    }
}
