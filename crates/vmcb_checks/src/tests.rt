// Tables from volume 2, 'Canonicalization and Consistency Checks', 'VMCB Layout' and 'Event Injection'.

use crate::{Checked, Injection, Offered, check, read_injection, unoffered_mode};
use std::process::Abort;
use svm_model::Cause;
use svm_model::Field::{self, *};
use vmcb_layout::{Fields, place};

const OFFERED: Offered = Offered {
    asids: 16,
    flush_by_asid: false,
};

/// A field and its value.
type Set = (Field, u64);

/// A legal VMCB in 64-bit mode; all other fields are 0.
#[rattlefmt::skip]
const LEGAL: [Set; 7] = [
    (Efer, 0x1500), (Cr0, 0x8000_0011), (Cr3, 0x1000), (Cr4, 0x20), (CsAttributes, 0x29b), (InterceptWord10, 1),
    (Asid, 1),
];

/// What is changed of it, alone, and the rule that is broken then; 0 stands for none.
#[rattlefmt::skip]
const CHANGES: [(Set, u8); 69] = [
    // SVME
    ((Efer, 0x500), 1), ((Efer, 0), 1), ((Efer, 0xffff_ffff_ffff_efff), 1), ((Efer, 0x1500), 0),
    // cache disable and not write-through
    ((Cr0, 0xa000_0011), 2), ((Cr0, 0xe000_0011), 0), ((Cr0, 0xc000_0011), 0), ((Cr0, 0xffff_ffff_bfff_ffff), 2),
    // upper halves and reserved bits
    ((Cr0, 0x1_8000_0011), 3), ((Cr0, 0x8000_0000_8000_0011), 3), ((Cr0, 0xffff_ffff), 0),
    ((Cr3, 0x100_0000_0000), 4), ((Cr3, 0x8000_0000_0000_0000), 4), ((Cr3, 0xff_ffff_ffff), 0),
    ((Cr4, 0x21), 5), ((Cr4, 0x28), 5), ((Cr4, 0x60), 5), ((Cr4, 0x120), 5), ((Cr4, 0x820), 5), ((Cr4, 0x4_0020), 5),
    ((Cr4, 0x8000_0000_0000_0020), 5), ((Cr4, 0x1_0000), 5), ((Cr4, 0x6b4), 0),
    ((Efer, 0x1502), 6), ((Efer, 0x1700), 6), ((Efer, 0x3500), 6), ((Efer, 0x8000_0000_0000_1500), 6), ((Efer, 0x1d01), 0),
    ((Dr6, 0x1_0000_0000), 7), ((Dr6, 0x8000_0000_0000_0000), 7), ((Dr6, 0xffff_ffff), 0),
    ((Dr7, 0x1_0000_0000), 8), ((Dr7, 0x8000_0000_0000_0000), 8), ((Dr7, 0xffff_ffff), 0),
    // long mode with paging needs PAE and PE, and is not both 64-bit and 32-bit
    ((Cr4, 0), 9), ((Cr4, 0x694), 9), ((Cr0, 0x8000_0010), 10), ((Cr0, 0x10), 0), ((Efer, 0x1000), 0),
    ((CsAttributes, 0x69b), 11), ((CsAttributes, 0xffff), 11), ((CsAttributes, 0x49b), 0), ((CsAttributes, 0), 0),
    // the intercept of VMRUN
    ((InterceptWord10, 0), 12), ((InterceptWord10, 0xffff_fffe), 12), ((InterceptWord10, 0xffff_ffff), 0),
    // the address-space identifier
    ((Asid, 0), 13), ((Asid, 15), 0), ((Asid, 16), 14), ((Asid, 17), 14), ((Asid, 0x1_0001), 14), ((Asid, 0xffff_ffff), 14),
    // the permission maps
    ((IopmBase, 0xff_ffff_d000), 0), ((IopmBase, 0xff_ffff_dfff), 0), ((IopmBase, 0xff_ffff_e000), 15),
    ((IopmBase, 0xffff_ffff_ffff_ffff), 15), ((MsrpmBase, 0xff_ffff_efff), 0), ((MsrpmBase, 0xff_ffff_f000), 15),
    ((MsrpmBase, 0x100_0000_0000), 15),
    // the event to be injected
    ((EventInj, 0x8000_0120), 16), ((EventInj, 0x8000_0302), 16), ((EventInj, 0x8000_0320), 16), ((EventInj, 0x120), 0),
    ((EventInj, 0x8000_02ff), 0),
    // TLB_CONTROL
    ((TlbControl, 1), 0), ((TlbControl, 2), 17), ((TlbControl, 3), 17), ((TlbControl, 7), 17), ((TlbControl, 0xff), 17),
];

/// Sets a field of any width.
fn set<R: Abort>(rt: &R, fields: &mut Fields, field: Field, value: u64) {
    match place(field).1 {
        1 => assert!(rt; value < 1 << 8),
        2 => assert!(rt; value < 1 << 16),
        4 => assert!(rt; value < 1 << 32),
        width => assert!(rt; width == 8),
    }
    fields.set(field, value);
}

fn legal<R: Abort>(rt: &R) -> Fields {
    let mut fields = Fields::zeros();
    for &(field, value) in &LEGAL {
        set(rt, &mut fields, field, value);
    }
    fields
}

fn answer(rule: u8) -> Checked {
    if rule == 0 {
        Checked::Legal
    } else {
        Checked::Illegal { rule }
    }
}

#[test]
fn each_rule_is_broken_alone(rt: HostRuntime) {
    assert_eq!(rt; check(&legal(&rt), OFFERED), Checked::Legal);
    for &((field, value), rule) in &CHANGES {
        let mut fields = legal(&rt);
        set(&rt, &mut fields, field, value);
        assert!(rt;
            check(&fields, OFFERED) == answer(rule),
            "rule {rule}, {value}"
        );
    }
}

/// One change for each rule that can be broken along with all behind it.
#[rattlefmt::skip]
const ORDER: [(Set, u8); 13] = [
    ((TlbControl, 2), 17), ((EventInj, 0x8000_0700), 16), ((IopmBase, 0x100_0000_0000), 15), ((Asid, 16), 14),
    ((InterceptWord10, 0), 12), ((CsAttributes, 0x69b), 11), ((Cr0, 0x8000_0010), 10), ((Cr4, 0), 9),
    ((Dr7, 0x1_0000_0000), 8), ((Dr6, 0x1_0000_0000), 7), ((Cr4, 1), 5), ((Cr3, 0x100_0000_0000), 4),
    ((Efer, 0x502), 1),
];

#[test]
fn the_least_broken_rule_is_told(rt: HostRuntime) {
    let mut fields = legal(&rt);
    for &((field, value), rule) in &ORDER {
        set(&rt, &mut fields, field, value);
        assert!(rt; check(&fields, OFFERED) == answer(rule), "rule {rule}");
    }
    // Within one field: CR0 by rules 2, 3 and 10, EFER by 1 and 6, CR4 by 5 and 9.
    for ((field, value), rule) in [
        ((Cr0, 0x1_a000_0010), 2),
        ((Cr0, 0x1_8000_0010), 3),
        ((Efer, 0x502), 1),
        ((Cr4, 0x1), 5),
    ] {
        let mut fields = legal(&rt);
        set(&rt, &mut fields, field, value);
        assert!(rt;
            check(&fields, OFFERED) == answer(rule),
            "within, rule {rule}"
        );
    }
}

/// What is offered, the ASID, TLB_CONTROL, and the rule that is broken.
#[rattlefmt::skip]
const OFFERS: [(u8, bool, u64, u64, u8); 14] = [
    (16, true, 1, 3, 0), (16, true, 1, 7, 0), (16, true, 1, 2, 17), (16, true, 1, 4, 17), (16, true, 1, 5, 17),
    (16, true, 1, 6, 17), (16, true, 1, 0x83, 17), (16, false, 15, 0, 0), (16, false, 16, 0, 14),
    (0, false, 0, 0, 13), (0, false, 1, 0, 14), (1, false, 1, 0, 14), (2, false, 1, 1, 0), (255, false, 254, 1, 0),
];

#[test]
fn rules_go_by_what_is_offered(rt: HostRuntime) {
    for &(asids, flush_by_asid, asid, control, rule) in &OFFERS {
        let mut fields = legal(&rt);
        set(&rt, &mut fields, Asid, asid);
        set(&rt, &mut fields, TlbControl, control);
        let offered = Offered {
            asids,
            flush_by_asid,
        };
        assert!(rt;
            check(&fields, offered) == answer(rule),
            "{asids} {asid} {control}"
        );
    }
}

/// What is changed of the legal VMCB, and the mode that is not offered then.
#[rattlefmt::skip]
const MODES: [(Set, Option<u8>); 21] = [
    ((Efer, 0x1400), Some(4)), ((Efer, 0x1100), Some(4)), ((Cr0, 0x11), Some(4)), ((Cr0, 0x8000_0010), Some(4)),
    ((Cr4, 0), Some(4)), ((CsAttributes, 0x9b), Some(4)), ((CsAttributes, 0x69b), Some(4)),
    ((Cr0, 0x8004_0011), Some(4)), ((Rflags, 0x102), Some(4)), ((Rflags, 0x2_0002), Some(4)),
    ((Rflags, 0x4_0002), Some(4)), ((Rflags, 0xffff_ffff_fff9_feff), None), ((CsAttributes, 0xfbff), None),
    ((Dr7, 1), Some(6)), ((Dr7, 0x80), Some(6)), ((Dr7, 0x2000), Some(6)), ((Dr7, 0x400), None),
    ((Dr7, 0xffff_df00), None), ((InterceptWordC, 0x20), Some(8)), ((InterceptWordC, 0xffff_ffdf), None),
    ((Efer, 0x1d01), None),
];

#[test]
fn modes_that_are_not_offered_are_told_in_order(rt: HostRuntime) {
    for &((field, value), mode) in &MODES {
        let mut fields = legal(&rt);
        set(&rt, &mut fields, field, value);
        assert!(rt; unoffered_mode(&fields) == mode, "{value}");
    }
    let mut fields = legal(&rt);
    for ((field, value), mode) in [
        ((InterceptWordC, 0x20), 8),
        ((Dr7, 1), 6),
        ((Rflags, 0x102), 4),
    ] {
        set(&rt, &mut fields, field, value);
        assert!(rt; unoffered_mode(&fields) == Some(mode), "mode {mode}");
    }
}

/// What a word holds: None, or an event by its vector, code and type, or Illegal.
#[derive(Clone, Copy, PartialEq)]
enum Told {
    None,
    Event(u8, Option<u32>, u8),
    Illegal,
}

fn event_of(word: u64) -> Told {
    match read_injection(word) {
        Injection::None => Told::None,
        Injection::Illegal => Told::Illegal,
        Injection::Event(trap) => Told::Event(
            trap.vector,
            trap.code,
            match trap.cause {
                Cause::External => 0,
                Cause::Nmi => 2,
                Cause::Fault => 3,
                Cause::Software => 4,
            },
        ),
    }
}

#[rattlefmt::skip]
const WORDS: [(u64, Told); 27] = [
    // V is 0
    (0, Told::None), (0x7fff_ffff, Told::None), (0xffff_ffff_7fff_ffff, Told::None),
    // interrupts
    (0x8000_0000, Told::Event(0, None, 0)), (0x8000_00ff, Told::Event(255, None, 0)),
    (0x8000_0820, Told::Event(0x20, Some(0), 0)), (0xffff_ffff_ffff_f820, Told::Event(0x20, Some(0xffff_ffff), 0)),
    // NMI, whose vector is 2
    (0x8000_0202, Told::Event(2, None, 2)), (0x8000_0200, Told::Event(2, None, 2)), (0x8000_02ff, Told::Event(2, None, 2)),
    // exceptions
    (0x8000_0300, Told::Event(0, None, 3)), (0x8000_0301, Told::Event(1, None, 3)), (0x8000_0302, Told::Illegal),
    (0x8000_0b0e, Told::Event(14, Some(0), 3)), (0x1234_5678_8000_0b0d, Told::Event(13, Some(0x1234_5678), 3)),
    (0x1234_5678_8000_030d, Told::Event(13, None, 3)), (0x8000_031f, Told::Event(31, None, 3)),
    (0x8000_0320, Told::Illegal), (0x8000_03ff, Told::Illegal),
    // software
    (0x8000_0402, Told::Event(2, None, 4)), (0x8000_0480, Told::Event(0x80, None, 4)), (0x8000_04ff, Told::Event(255, None, 4)),
    // other types
    (0x8000_0100, Told::Illegal), (0x8000_0520, Told::Illegal), (0x8000_0620, Told::Illegal), (0x8000_0702, Told::Illegal),
    (0xffff_ffff_ffff_ffff, Told::Illegal),
];

#[test]
fn eventinj_is_read(rt: HostRuntime) {
    for &(word, wanted) in &WORDS {
        assert!(rt; event_of(word) == wanted, "{word}");
    }
}
