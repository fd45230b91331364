// Which vcpu stands on which processor.
ghost use Rattle.std.specs.Prelude.{◌≡◌, ℕ, ◌<◌, List, Some, None, length, map, replicate, slice_get, slice_set, IfOk, IfSome};
ghost use Rattle.svm_model.specs.Machine.Events.{is_vcpu as same_vcpu, without as without_vcpu};
ghost use Rattle.plain_machine.specs.Slots.{AreThere, IsThere};

use std::alloc::Global;
use svm_model::{CpuId, NoMemory, VcpuId};

fn is_vcpu(a: VcpuId, b: VcpuId) -> bool
    ensures { result ≡ same_vcpu a b }
{
    a.guest.0 == b.guest.0 && a.index == b.index
}

/// What stands on a processor that the vcpu leaves.
fn without(vcpu: VcpuId, other: Option<VcpuId>) -> Option<VcpuId>
    ensures { result ≡ without_vcpu vcpu other }
{
    match other {
        None => None,
        Some(id) => { if is_vcpu(vcpu, id) { None } else { Some(id) } }
    }
}

/// The vcpu stands on no processor any more.
fn take_off(placing: &mut [Option<VcpuId>], vcpu: VcpuId)
    ensures { placing.new ≡ map (without_vcpu vcpu) placing.old }
{
    for i in 0..placing.len() {
        placing[i] = without(vcpu, placing[i]);
    }
}

/// The vcpu stands on the processor, and on no other.
#[tactic(auto, using(crate::proofs::PlacingLemmas::placings))]
pub fn place_on(placing: &mut [Option<VcpuId>], cpu: CpuId, vcpu: VcpuId)
    requires { cpu.0 < length placing.old }
    ensures placed { placing.new ≡ slice_set (map (without_vcpu vcpu) placing.old) cpu.0 (Some vcpu) }
    ensures there { (counts : List ℕ) → IsThere counts vcpu → AreThere counts placing.old → AreThere counts placing.new }
{
    take_off(placing, vcpu);
    placing[usize::from(cpu.0)] = Some(vcpu);
}

/// The vcpu that stands on a processor.
#[tactic(auto, using(crate::proofs::PlacingLemmas::placings))]
pub fn placed_at(placing: &[Option<VcpuId>], cpu: CpuId) -> Option<VcpuId>
    requires { cpu.0 < length placing.now }
    ensures placed { slice_get placing.now cpu.0 ≡ Some result }
    ensures there { (counts : List ℕ) → AreThere counts placing.now → IfSome result (IsThere counts) }
{
    placing[usize::from(cpu.0)]
}

/// So many processors, on which no vcpu stands.
pub fn none_placed(alloc: Global, cpus: u8) -> Result<Vec<Option<VcpuId>>, NoMemory>
    ensures { IfOk result (λ placing. placing.items ≡ replicate cpus None) }
{
    let mut placing = Vec::new(alloc);
    for _cpu in 0..cpus {
        let Ok(()) = placing.push(None) else {
            return Err(NoMemory);
        };
    }
    Ok(placing)
}
