// The script for a generated image: each vcpu is placed, and runs to its halt.

ghost use Rattle.std.specs.Prelude.{◌≡◌, ℕ, ◌≤◌, length, IfOk};
ghost use Rattle.std.specs.List.{flat_map, range_with_len};
ghost use Rattle.svm_model.specs.Formats.Script.{IsLawful, events_of};
ghost use Rattle.svm_model.specs.Formats.ScriptLines.{line_of};
ghost use Rattle.svm_model.specs.Machine.Shapes.{image_shape};
ghost use Rattle.workload.specs.Generated.{vcpu_count, size_limit, cpu_for, events_each, vcpu_lines, made_image, made_script};

use crate::image::{CPU_COUNT, VCPU_COUNT};
use script_format::Script;
use std::alloc::{AllocError, Global};
use svm_model::{CpuId, Event, GuestId, NoMemory, ScriptLine, VcpuId};

/// The only guest of a generated image.
pub const GUEST: GuestId = GuestId(0);

// The processor of a vcpu.
fn cpu_for(vcpu: u8) -> CpuId
    ensures { result ≡ cpu_for vcpu }
{
    CpuId(vcpu % CPU_COUNT)
}

// A line of one event, so many times from a number on.
fn line_of(event: Event, first: u32, times: u32) -> ScriptLine
    ensures { result ≡ line_of event first times }
{
    ScriptLine {
        event,
        first,
        times,
        each: false,
    }
}

// The events of each vcpu: its placing, each number that it adds, and the halt.
fn events_each(size: u32) -> u32
    requires { size ≤ size_limit }
    ensures { result ≡ events_each size }
{
    size + 2
}

// The lines of a vcpu: it is placed, and runs.
fn vcpu_lines(size: u32, vcpu: u8) -> [ScriptLine; 2]
    requires { size ≤ size_limit }
    ensures { result ≡ vcpu_lines size vcpu }
{
    let cpu = cpu_for(vcpu);
    let place = Event::Place {
        cpu,
        vcpu: VcpuId {
            guest: GUEST,
            index: vcpu,
        },
    };
    let first = events_each(size) * u32::from(vcpu);
    [
        line_of(place, first, 1),
        line_of(Event::Run { cpu }, first + 1, size + 1),
    ]
}

// The lines of all vcpus.
#[tactic(auto, using(crate::proofs::Ranges::ranges))]
fn lines(alloc: Global, size: u32) -> Result<Vec<ScriptLine>, AllocError>
    requires { size ≤ size_limit }
    ensures { IfOk result (λ lines. lines.items ≡ flat_map (vcpu_lines size) (range_with_len 0 vcpu_count)) }
{
    let mut lines = Vec::new(alloc);
    for vcpu in 0..VCPU_COUNT {
        lines.extend_from_slice(&vcpu_lines(size, vcpu))?;
    }
    Ok(lines)
}

// The lines with the number of their events.
#[tactic(auto, unfolding(crate::specs::Generated::made_script))]
fn script_of(alloc: Global, size: u32) -> Result<Script, AllocError>
    requires { size ≤ size_limit }
    ensures { IfOk result (λ script. script ≡ made_script size) }
{
    let lines = lines(alloc, size)?;
    Ok(Script {
        lines,
        events: events_each(size) * u32::from(VCPU_COUNT),
    })
}

/// The script for the image of a size, 0 to 100,000, and of any seed: each vcpu in turn is placed, the odd ones on processor 1,
/// and runs to its halt. It is refused for want of memory alone.
pub fn made_script(alloc: Global, size: u32) -> Result<Script, NoMemory>
    requires { size ≤ size_limit }
    ensures exact { IfOk result (λ script. script ≡ made_script size) }
    ensures lawful { (seed : ℕ) → IfOk result (IsLawful (image_shape (made_image seed size))) }
    ensures count { (seed : ℕ) → IfOk result (λ script. length (events_of (made_image seed size).cpus script) ≡ script.events) }
{
    let Ok(script) = script_of(alloc, size) else {
        return Err(NoMemory);
    };
    Ok(script)
}
