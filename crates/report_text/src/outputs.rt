// The lines of what went out by ports.
ghost use Rattle.std.specs.Prelude.{◌≡◌, ◌++◌, IfOk, string_bytes};
ghost use Rattle.std.specs.List.{flat_map};
ghost use Rattle.svm_model.specs.Formats.Text.{guest_out_line, out_line, out_lines, sent_text};

use std::alloc::{AllocError, Global};
use svm_model::{GuestId, NoMemory, PortWrite};

/// The line `out G.V event=N port=HEX width=N value=HEX` of a write to a port; the width is in bytes.
pub fn out_text(alloc: Global, write: &PortWrite) -> Result<Vec<u8>, NoMemory>
    ensures { IfOk result (λ text. text.items ≡ out_line write.now) }
{
    let Ok(text) = format_out(alloc, write) else {
        return Err(NoMemory);
    };
    Ok(text.into_bytes())
}

/// The lines of a guest's writes to ports, in order.
#[tactic(auto, using(std::proofs::lemmas::List::take_more, std::proofs::lemmas::List::flat_map_more), unfolding(svm_model::specs::Formats::Text::out_lines))]
pub fn outs_text(alloc: Global, guest: GuestId, writes: &[PortWrite]) -> Result<Vec<u8>, NoMemory>
    ensures { IfOk result (λ text. text.items ≡ out_lines guest.0 writes.now) }
{
    let mut text = Vec::new(alloc);
    for write in writes {
        push_out(alloc, &mut text, guest, write)?;
    }
    Ok(text)
}

/// Appends the line of a write that is the guest's.
fn push_out(
    alloc: Global,
    text: &mut Vec<u8>,
    guest: GuestId,
    write: &PortWrite,
) -> Result<(), NoMemory>
    ensures { IfOk result (λ _. text.new.items ≡ text.old.items ++ guest_out_line guest.0 write.now) }
{
    if write.vcpu.guest.0 != guest.0 {
        return Ok(());
    }
    let line = out_text(alloc, write)?;
    if text.extend_from_slice(&line).is_err() {
        return Err(NoMemory);
    }
    Ok(())
}

#[tactic(auto, unfolding(svm_model::specs::Formats::Text::out_line))]
fn format_out(alloc: Global, write: &PortWrite) -> Result<String, AllocError>
    ensures { IfOk result (λ text. string_bytes text ≡ out_line write.now) }
{
    let guest = write.vcpu.guest.0;
    let index = write.vcpu.index;
    let event = write.event;
    let sent = format_sent(alloc, write.port, write.width, write.value)?;
    let sent = sent.as_str();
    format!(in alloc; "out {guest}.{index} event={event}{sent}")
}

/// What was written, and where.
fn format_sent(alloc: Global, port: u16, width: u8, value: u32) -> Result<String, AllocError>
    ensures { IfOk result (λ text. string_bytes text ≡ sent_text port width value) }
{
    format!(in alloc; " port={port:x} width={width} value={value:x}\n")
}
