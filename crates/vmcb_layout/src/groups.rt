// The groups of clean bits.
ghost use Rattle.std.specs.Prelude.{◌≡◌, ◌<◌};
ghost use Rattle.svm_model.specs.Svm.VmcbLayout.{group_fields as fields_of_group};

use svm_model::Field::{self, *};

/// The fields of a group, by the number of its clean bit, 0 to 11, in the order of its line (volume 2, 'VMCB Clean Bits').
/// The four parts of a register stand in the order selector, attributes, limit, base. Group 10, for last-branch records,
/// has none.
#[rattlefmt::skip]
#[tactic(auto, unfolding(svm_model::specs::Svm::VmcbLayout::group_fields))]
pub fn group_fields(group: u8) -> &'static [Field]
    requires { group < 12 }
    ensures { result.now ≡ fields_of_group group }
{
    match group {
        // intercepts and TSC_OFFSET
        0 => &[CrIntercepts, DrIntercepts, ExceptionIntercepts, InterceptWordC, InterceptWord10, TscOffset],
        // permission maps
        1 => &[IopmBase, MsrpmBase],
        // ASID
        2 => &[Asid],
        // virtual interrupt
        3 => &[VirtualInterrupt],
        // nested paging
        4 => &[NpEnable, NCr3, GPat],
        // control registers
        5 => &[Cr0, Cr3, Cr4, Efer],
        // debug registers
        6 => &[Dr6, Dr7],
        // descriptor tables
        7 => &[
            GdtrSelector, GdtrAttributes, GdtrLimit, GdtrBase,
            IdtrSelector, IdtrAttributes, IdtrLimit, IdtrBase,
        ],
        // segments and CPL
        8 => &[
            EsSelector, EsAttributes, EsLimit, EsBase,
            CsSelector, CsAttributes, CsLimit, CsBase,
            SsSelector, SsAttributes, SsLimit, SsBase,
            DsSelector, DsAttributes, DsLimit, DsBase,
            Cpl,
        ],
        // CR2
        9 => &[Cr2],
        // last-branch records
        10 => &[],
        // AVIC
        _ => &[AvicBar, BackingPage, LogicalTable, PhysicalTable],
    }
}
