// The rules of a legal VMCB.
ghost use Rattle.std.specs.Prelude.{◌≡◌};
ghost use Rattle.svm_model.specs.Svm.VmcbRules.{broken, first_broken as least_broken, is_long as long_mode, offers_flush as flush_offered, rules as rules_of};
ghost use Rattle.vmcb_checks.specs.Answers.{checked};

use crate::bits::{exceeds, is_past_width};
use crate::injection::is_illegal_injection;
use svm_model::Field::*;
use svm_model::{Checked, Offered};
use vmcb_layout::Fields;

/// Long mode with paging: EFER.LME and CR0.PG.
fn is_long(fields: &Fields) -> bool
    ensures { result ≡ long_mode fields.now }
{
    fields.has_bit(Efer, 8) && fields.has_bit(Cr0, 31)
}

/// Whether a value of TLB_CONTROL is offered: 0 and 1 always, 3 and 7 where flushing by ASID is.
fn offers_flush(offered: Offered, control: u64) -> bool
    ensures { result ≡ flush_offered offered control }
{
    control <= 1 || (offered.flush_by_asid && (control == 3 || control == 7))
}

/// Whether each rule is broken, in their order.
#[rattlefmt::skip]
fn rules(v: &Fields, offered: Offered) -> [bool; 17]
    ensures { result ≡ rules_of v.now offered }
{
    [
        // 1 EFER.SVME is 0
        !v.has_bit(Efer, 12),
        // 2 CR0.NW is 1 and CR0.CD is 0
        v.has_bit(Cr0, 29) && !v.has_bit(Cr0, 30),
        // 3 CR0 bits 63:32 are not 0
        exceeds(Cr0, 0xffff_ffff, v),
        // 4 CR3 bits 63:40 are not 0
        exceeds(Cr3, 0xff_ffff_ffff, v),
        // 5 CR4 has a bit outside those that are offered
        exceeds(Cr4, 0x6b4, v),
        // 6 EFER has a bit outside those that are offered
        exceeds(Efer, 0x1d01, v),
        // 7 DR6 bits 63:32 are not 0
        exceeds(Dr6, 0xffff_ffff, v),
        // 8 DR7 bits 63:32 are not 0
        exceeds(Dr7, 0xffff_ffff, v),
        // 9 long mode with paging, without PAE
        is_long(v) && !v.has_bit(Cr4, 5),
        // 10 long mode with paging, without PE
        is_long(v) && !v.has_bit(Cr0, 0),
        // 11 long mode with paging and PAE, in a code segment with both L and D
        is_long(v) && v.has_bit(Cr4, 5) && v.has_bit(CsAttributes, 9) && v.has_bit(CsAttributes, 10),
        // 12 the VMRUN intercept is clear
        !v.has_bit(InterceptWord10, 0),
        // 13 the ASID is 0
        v.value(Asid) == 0,
        // 14 the ASID is not offered
        v.value(Asid) >= u64::from(offered.asids),
        // 15 a permission map, 12 KiB for ports and 8 KiB for MSRs, ends past the physical width
        is_past_width(IopmBase, 0x3000, v) || is_past_width(MsrpmBase, 0x2000, v),
        // 16 EVENTINJ is illegal
        is_illegal_injection(v.value(EventInj)),
        // 17 TLB_CONTROL is not offered
        !offers_flush(offered, v.value(TlbControl)),
    ]
}

/// The number of the first rule that is broken, from 1 on.
fn first_broken(rules: &[bool; 17]) -> Checked
    ensures { result ≡ checked (least_broken 1 rules.now) }
{
    for i in 0..17u8 {
        if rules[usize::from(i)] {
            return Checked::Illegal { rule: i + 1 };
        }
    }
    Checked::Legal
}

/// Whether a VMRUN may enter with these fields (volume 2, 'Canonicalization and Consistency Checks'), by what is offered:
/// Legal exactly where no rule is broken, else the least number of a broken one, 1 to 17.
#[tactic(auto, unfolding(svm_model::specs::Svm::VmcbRules::broken))]
pub fn check(fields: &Fields, offered: Offered) -> Checked
    ensures { result ≡ checked (broken fields.now offered) }
{
    first_broken(&rules(fields, offered))
}
