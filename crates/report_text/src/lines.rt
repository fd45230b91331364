// The lines of a report.
ghost use Rattle.std.specs.Prelude.{◌≡◌, ℕ, List, ◌++◌, IfOk, string_bytes};
ghost use Rattle.std.specs.List.{flat_map};
ghost use Rattle.svm_model.specs.Formats.Text.{events_line, guest_line, vcpu_line, register_text, registers_text, end_name, end_value, state_name};

use std::alloc::{AllocError, Global};
use svm_model::{End, Ended, GuestId, NoMemory, Registers, VcpuId};

/// The line `events N` of a report.
pub fn events_text(alloc: Global, count: u32) -> Result<Vec<u8>, NoMemory>
    ensures { IfOk result (λ text. text.items ≡ events_line count) }
{
    let Ok(text) = format_events(alloc, count) else {
        return Err(NoMemory);
    };
    Ok(text.into_bytes())
}

/// The line of a guest: `guest G live`, or how it was ended, at which vcpu and event.
pub fn guest_text(alloc: Global, guest: GuestId, ended: Option<Ended>) -> Result<Vec<u8>, NoMemory>
    ensures { IfOk result (λ text. text.items ≡ guest_line guest.0 ended) }
{
    let Ok(text) = format_guest(alloc, guest.0, ended) else {
        return Err(NoMemory);
    };
    Ok(text.into_bytes())
}

/// The line `vcpu G.V LEVEL STATE` of a vcpu, with ` name=HEX` for each shown register that is not 0. The level is 1, or 2
/// for a vcpu that runs a guest of its own.
pub fn vcpu_text(
    alloc: Global,
    vcpu: VcpuId,
    level: u8,
    halted: bool,
    registers: &Registers,
) -> Result<Vec<u8>, NoMemory>
    ensures { IfOk result (λ text. text.items ≡ vcpu_line vcpu.guest.0 vcpu.index level halted registers.now) }
{
    let Ok(text) = format_vcpu(alloc, vcpu.guest.0, vcpu.index, level, halted, registers) else {
        return Err(NoMemory);
    };
    Ok(text.into_bytes())
}

#[tactic(auto, unfolding(svm_model::specs::Formats::Text::events_line))]
fn format_events(alloc: Global, count: u32) -> Result<String, AllocError>
    ensures { IfOk result (λ text. string_bytes text ≡ events_line count) }
{
    format!(in alloc; "events {count}\n")
}

#[tactic(auto, unfolding(svm_model::specs::Formats::Text::guest_line))]
fn format_guest(alloc: Global, guest: u8, ended: Option<Ended>) -> Result<String, AllocError>
    ensures { IfOk result (λ text. string_bytes text ≡ guest_line guest ended) }
{
    match ended {
        None => format!(in alloc; "guest {guest} live\n"),
        Some(ended) => {
            let name = name_of_end(ended.end);
            let value = value_of_end(ended.end);
            let vcpu = ended.vcpu;
            let event = ended.event;
            format!(in alloc;
                "guest {guest} ended {name} value={value:x} vcpu={vcpu} event={event}\n"
            )
        }
    }
}

fn name_of_end(end: End) -> &'static str
    ensures { result.now ≡ end_name end }
{
    match end {
        End::Unlisted { .. } => "Unlisted",
        End::OutsideMemory { .. } => "OutsideMemory",
        End::ApicAccess { .. } => "ApicAccess",
        End::Mode { .. } => "Mode",
        End::Shutdown => "Shutdown",
    }
}

fn value_of_end(end: End) -> u64
    ensures { result ≡ end_value end }
{
    match end {
        End::Unlisted { byte } => byte as u64,
        End::OutsideMemory { address } => address,
        End::ApicAccess { offset } => offset as u64,
        End::Mode { rule } => rule as u64,
        End::Shutdown => 0,
    }
}

fn name_of_state(halted: bool) -> &'static str
    ensures { result.now ≡ state_name halted }
{
    if halted { "halted" } else { "ready" }
}

#[tactic(auto, unfolding(svm_model::specs::Formats::Text::vcpu_line))]
fn format_vcpu(
    alloc: Global,
    guest: u8,
    index: u8,
    level: u8,
    halted: bool,
    registers: &Registers,
) -> Result<String, AllocError>
    ensures { IfOk result (λ text. string_bytes text ≡ vcpu_line guest index level halted registers.now) }
{
    let state = name_of_state(halted);
    let mut text = format!(in alloc; "vcpu {guest}.{index} l{level} {state}")?;
    push_shown(alloc, &mut text, registers)?;
    text.push_str("\n")?;
    Ok(text)
}

/// Writes the registers that are not 0.
#[tactic(auto, unfolding(svm_model::specs::Formats::Text::registers_text))]
fn push_shown(alloc: Global, text: &mut String, registers: &Registers) -> Result<(), AllocError>
    ensures { IfOk result (λ _. string_bytes text.new ≡ string_bytes text.old ++ registers_text registers.now) }
{
    let shown = [
        ("rip", registers.rip),
        ("rfl", registers.rflags),
        ("rax", registers.general[0]),
        ("rcx", registers.general[1]),
        ("rdx", registers.general[2]),
        ("rbx", registers.general[3]),
        ("rsp", registers.general[4]),
        ("rbp", registers.general[5]),
        ("rsi", registers.general[6]),
        ("rdi", registers.general[7]),
        ("r8", registers.general[8]),
        ("r9", registers.general[9]),
        ("r10", registers.general[10]),
        ("r11", registers.general[11]),
        ("r12", registers.general[12]),
        ("r13", registers.general[13]),
        ("r14", registers.general[14]),
        ("r15", registers.general[15]),
        ("cr0", registers.cr0),
        ("cr2", registers.cr2),
        ("cr3", registers.cr3),
        ("cr4", registers.cr4),
        ("efer", registers.efer),
    ];
    push_registers(alloc, text, &shown)
}

#[tactic(auto, using(std::proofs::lemmas::List::take_more, std::proofs::lemmas::List::flat_map_more))]
fn push_registers(alloc: Global, text: &mut String, shown: &[(&str, u64)]) -> Result<(), AllocError>
    ensures { IfOk result (λ _. string_bytes text.new
        ≡ string_bytes text.old ++ flat_map (λ n. register_text (n.0.now, n.1)) shown.now) }
{
    for (name, value) in shown {
        push_register(alloc, text, name, *value)?;
    }
    Ok(())
}

fn push_register(alloc: Global, text: &mut String, name: &str, value: u64) -> Result<(), AllocError>
    ensures { IfOk result (λ _. string_bytes text.new ≡ string_bytes text.old ++ register_text (name.now, value)) }
{
    if value != 0 {
        text.push_str(" ")?;
        text.push_str(name)?;
        text.push_str("=")?;
        let digits = format!(in alloc; "{value:x}")?;
        text.push_str(digits.as_str())?;
    }
    Ok(())
}
