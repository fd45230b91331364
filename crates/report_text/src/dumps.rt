// The line of a dump.
ghost use Rattle.std.specs.Prelude.{◌≡◌, ◌++◌, IfOk, string_bytes};
ghost use Rattle.std.specs.List.{flat_map};
ghost use Rattle.svm_model.specs.Formats.Text.{byte_digits, dump_line};

use std::alloc::{AllocError, Global};
use svm_model::{GuestId, NoMemory};

/// The line `dump event=N guest=G at=HEX bytes=BYTES`: bytes of a guest's memory from an address on, in their order and two
/// digits each, as they are at the event of that number.
pub fn dump_text(
    alloc: Global,
    event: u32,
    guest: GuestId,
    address: u64,
    bytes: &[u8],
) -> Result<Vec<u8>, NoMemory>
    ensures { IfOk result (λ text. text.items ≡ dump_line event guest.0 address bytes.now) }
{
    let Ok(text) = format_dump(alloc, event, guest.0, address, bytes) else {
        return Err(NoMemory);
    };
    Ok(text.into_bytes())
}

#[tactic(auto, unfolding(svm_model::specs::Formats::Text::dump_line))]
fn format_dump(
    alloc: Global,
    event: u32,
    guest: u8,
    address: u64,
    bytes: &[u8],
) -> Result<String, AllocError>
    ensures { IfOk result (λ text. string_bytes text ≡ dump_line event guest address bytes.now) }
{
    let mut text = format!(in alloc; "dump event={event} guest={guest} at={address:x} bytes=")?;
    push_bytes(alloc, &mut text, bytes)?;
    text.push_str("\n")?;
    Ok(text)
}

#[tactic(auto, using(std::proofs::lemmas::List::take_more, std::proofs::lemmas::List::flat_map_more))]
pub fn push_bytes(alloc: Global, text: &mut String, bytes: &[u8]) -> Result<(), AllocError>
    ensures { IfOk result (λ _. string_bytes text.new ≡ string_bytes text.old ++ flat_map byte_digits bytes.now) }
{
    for byte in bytes {
        push_byte(alloc, text, *byte)?;
    }
    Ok(())
}

/// Writes a byte in two digits.
fn push_byte(alloc: Global, text: &mut String, byte: u8) -> Result<(), AllocError>
    ensures { IfOk result (λ _. string_bytes text.new ≡ string_bytes text.old ++ byte_digits byte) }
{
    let high = byte / 16;
    let low = byte % 16;
    let digits = format!(in alloc; "{high:x}{low:x}")?;
    text.push_str(digits.as_str())
}
