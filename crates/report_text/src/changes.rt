// The lines of the bytes of memory that an event changed.
ghost use Rattle.std.specs.Prelude.{◌≡◌, ◌+◌, ◌≤◌, ◌^◌, ◌++◌, [], ◌∷◌, length, IfOk, string_bytes};
ghost use Rattle.svm_model.specs.Formats.Trace.{changed_lines, memory_line, stretch_line};

use crate::dumps::push_bytes;
use std::alloc::{AllocError, Global};
use svm_model::{GuestId, NoMemory};

/// The lines `mem G at=HEX bytes=BYTES` of the bytes in which a part of a guest's memory differs from what it was, one for
/// each stretch of them, with the bytes as they are now. The part begins at an address.
pub fn memory_text(
    alloc: Global,
    guest: GuestId,
    address: u64,
    old: &[u8],
    new: &[u8],
) -> Result<Vec<u8>, NoMemory>
    requires same { length old.now ≡ length new.now }
    requires fits { address + length new.now ≤ 2 ^ 63 }
    ensures { IfOk result (λ text. text.items ≡ changed_lines guest.0 address [] old.now new.now) }
{
    let mut text = Vec::new(alloc);
    let mut stretch = Vec::new(alloc);
    for place in 0..new.len() {
        if old[place] != new[place] {
            push_changed(&mut stretch, new[place])?;
        } else if !stretch.is_empty() {
            end_stretch(
                alloc,
                &mut text,
                guest,
                address + place as u64,
                &mut stretch,
            )?;
        }
    }
    end_stretch(
        alloc,
        &mut text,
        guest,
        address + new.len() as u64,
        &mut stretch,
    )?;
    Ok(text)
}

/// Appends a changed byte to the stretch that it goes on with.
fn push_changed(stretch: &mut Vec<u8>, byte: u8) -> Result<(), NoMemory>
    ensures { IfOk result (λ _. stretch.new.items ≡ stretch.old.items ++ byte ∷ []) }
{
    let Ok(()) = stretch.push(byte) else {
        return Err(NoMemory);
    };
    Ok(())
}

/// Ends a stretch before an address: appends its line, where it has bytes, and empties it.
fn end_stretch(
    alloc: Global,
    text: &mut Vec<u8>,
    guest: GuestId,
    end: u64,
    stretch: &mut Vec<u8>,
) -> Result<(), NoMemory>
    requires { length stretch.old.items ≤ end }
    ensures line { IfOk result (λ _. text.new.items ≡ text.old.items ++ stretch_line guest.0 end stretch.old.items) }
    ensures ended { IfOk result (λ _. stretch.new.items ≡ []) }
{
    if stretch.is_empty() {
        return Ok(());
    }
    let Ok(line) = format_memory(alloc, guest.0, end - stretch.len() as u64, stretch) else {
        return Err(NoMemory);
    };
    if text.extend_from_slice(line.as_bytes()).is_err() {
        return Err(NoMemory);
    }
    stretch.clear();
    Ok(())
}

#[tactic(auto, unfolding(svm_model::specs::Formats::Trace::memory_line))]
fn format_memory(alloc: Global, guest: u8, address: u64, bytes: &[u8]) -> Result<String, AllocError>
    ensures { IfOk result (λ text. string_bytes text ≡ memory_line guest address bytes.now) }
{
    let mut text = format!(in alloc; "mem {guest} at={address:x} bytes=")?;
    push_bytes(alloc, &mut text, bytes)?;
    text.push_str("\n")?;
    Ok(text)
}
