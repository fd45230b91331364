// The modes that are not offered.
ghost use Rattle.std.specs.Prelude.{◌≡◌};
ghost use Rattle.svm_model.specs.Svm.VmcbRules.{is_other_mode as other_mode, unoffered_mode as mode_of};

use crate::bits::has_some;
use svm_model::Field::*;
use vmcb_layout::Fields;

/// Another mode than 64-bit mode with paging, or alignment checks, single steps or virtual-8086 mode.
fn is_other_mode(v: &Fields) -> bool
    ensures { result ≡ other_mode v.now }
{
    let is_active = v.has_bit(Efer, 8) && v.has_bit(Efer, 10);
    let is_paged = v.has_bit(Cr0, 31) && v.has_bit(Cr0, 0) && v.has_bit(Cr4, 5);
    let is_64_bit = is_active && is_paged && v.has_bit(CsAttributes, 9);
    !is_64_bit
        || v.has_bit(CsAttributes, 10)
        || v.has_bit(Cr0, 18)
        || has_some(v.value(Rflags), 0x6_0100)
}

/// The number of the first mode that a legal VMCB asks for and that is not offered: 4, another mode than 64-bit mode with
/// paging, or CR0.AM, RFLAGS.TF, VM or AC; 6, breakpoints in DR7; 8, the selective intercept of CR0 (volume 2, 'VMCB
/// Layout'). None where all that it asks for is offered.
#[tactic(auto, unfolding(svm_model::specs::Svm::VmcbRules::unoffered_mode))]
pub fn unoffered_mode(fields: &Fields) -> Option<u8>
    ensures { result ≡ mode_of fields.now }
{
    if is_other_mode(fields) {
        return Some(4);
    }
    if has_some(fields.value(Dr7), 0x20ff) {
        return Some(6);
    }
    if fields.has_bit(InterceptWordC, 5) {
        return Some(8);
    }
    None
}
