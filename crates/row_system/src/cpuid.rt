// CPUID (volume 3, 'CPUID').
ghost use Rattle.std.specs.Prelude.{◌≡◌, ◌%◌, ◌^◌, []};
ghost use Rattle.svm_model.specs.Instructions.ControlRows.{with_leaf};
ghost use Rattle.svm_model.specs.Instructions.Cpuid.{leaf_of, svm_features};
ghost use Rattle.svm_model.specs.Instructions.Operands.{rax, state, whole_register};
ghost use Rattle.svm_model.specs.Instructions.SystemState.{at_next};
ghost use Rattle.row_system.specs.Named.{leaf_in};

use crate::registers::{RAX, RBX, RDX, step_over};
use register_file::{RCX, whole_register, write_register};
use svm_model::{Facts, Registers, Width};

/// What a leaf holds in the four registers.
#[derive(Clone, Copy)]
struct CpuidLeaf {
    eax: u32,
    ebx: u32,
    ecx: u32,
    edx: u32,
}

/// The features of SVM: NRIP save and virtual GIF, and FlushByAsid where the image offers it by bit 0 of its features.
fn svm_features(features: u32) -> u32
    ensures { result ≡ svm_features features }
{
    if features & 1 == 1 {
        0x1_0069
    } else {
        0x1_0029
    }
}

/// A row of the table of leaves.
fn leaf(eax: u32, ebx: u32, ecx: u32, edx: u32) -> CpuidLeaf
    ensures { result ≡ record { eax = eax; ebx = ebx; ecx = ecx; edx = edx } }
{
    CpuidLeaf { eax, ebx, ecx, edx }
}

/// What a leaf tells. The vendor is AuthenticAMD; leaves that are not listed are 0.
#[tactic(auto, unfolding(svm_model::specs::Instructions::Cpuid::leaf_of))]
#[rattlefmt::skip]
fn leaf_of(facts: &Facts, number: u64) -> CpuidLeaf
    ensures { leaf_of facts.now number ≡ leaf_in number result }
{
    match number {
        0 => leaf(1, 0x6874_7541, 0x444d_4163, 0x6974_6e65),
        1 => leaf(0, u32::from(facts.apic_id) * 0x100_0000, 0, 0xa278),
        0x8000_0000 => leaf(0x8000_000a, 0x6874_7541, 0x444d_4163, 0x6974_6e65),
        0x8000_0001 => leaf(0, 0, 4, 0x2410_0000),
        0x8000_0008 => leaf(0x3028, 0, 0, 0),
        0x8000_000a => leaf(1, 16, 0, svm_features(facts.features)),
        _ => leaf(0, 0, 0, 0),
    }
}

fn write_leaf(registers: &mut Registers, leaf: CpuidLeaf)
    ensures { registers.new ≡ (with_leaf (leaf_in 0 leaf) (state registers.old [])).registers }
{
    write_register(registers, Width::W32, RAX, false, u64::from(leaf.eax));
    write_register(registers, Width::W32, RBX, false, u64::from(leaf.ebx));
    write_register(registers, Width::W32, RCX, false, u64::from(leaf.ecx));
    write_register(registers, Width::W32, RDX, false, u64::from(leaf.edx));
}

/// CPUID, of the leaf that EAX names.
pub fn identify(registers: &mut Registers, next_rip: u64, facts: &Facts)
    ensures { registers.new ≡ (at_next next_rip (with_leaf (leaf_of facts.now (whole_register rax registers.old % 2 ^ 32)) (state registers.old []))).registers }
{
    let number = whole_register(registers, RAX) % 0x1_0000_0000;
    write_leaf(registers, leaf_of(facts, number));
    step_over(registers, next_rip);
}
