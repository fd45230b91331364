// Tables from volume 2, 'VMRUN Instruction' and '#VMEXIT', and volume 3, 'VMLOAD' and 'VMSAVE'.
ghost use Rattle.std.specs.Prelude.{◌≡◌, ◌<◌};
ghost use Rattle.svm_model.specs.Memory.Bytes.{IsWithin};

use crate::{Exit, Turn, Work, enter, leave, next_work, vmload, vmsave};
use host_memory::{GuestWindow, HostMemory, OutsideMemory, Steps, counted_from};
use std::alloc::{AllocError, Global};
use std::marker::Brand;
use std::process::Abort;
use std::sync::ledger::{Blank, Ledger};
use svm_model::Field::{self, *};
use svm_model::{Cause, Kept, LAYOUT, Registers, Segment, Trap};
use vmcb_layout::{Fields, get, place};

/// A number for each register: 0 to 15 the general registers; then RIP, RFLAGS, CR0, CR2, CR3, CR4, EFER, DR6, DR7, CPL,
/// KernelGsBase, STAR, LSTAR, CSTAR, SFMASK, the three of SYSENTER, PAT, VM_HSAVE_PA, what is added to the time-stamp
/// counter, and the interrupt shadow; from 38 on the four parts of ES, CS, SS, DS, GDTR, IDTR, FS, GS, TR and LDTR.
type Numbers = [u64; 78];

/// The numbers from this one on.
fn numbers(first: u64) -> Numbers {
    let mut numbers = [0; 78];
    for i in 0..78u8 {
        numbers[usize::from(i)] = first.wrapping_add(u64::from(i));
    }
    numbers
}

fn segment_of(parts: [u64; 4]) -> Segment {
    Segment {
        selector: (parts[0] & 0xffff) as u16,
        attributes: (parts[1] & 0xffff) as u16,
        limit: (parts[2] & 0xffff_ffff) as u32,
        base: parts[3],
    }
}

/// The registers of these numbers; CPL takes the low byte of its number, and the interrupt shadow bit 0.
#[rattlefmt::skip]
fn registers_of(n: &Numbers) -> Registers {
    Registers {
        general: [
            n[0], n[1], n[2], n[3], n[4], n[5], n[6], n[7], n[8], n[9], n[10], n[11], n[12], n[13], n[14], n[15],
        ],
        rip: n[16], rflags: n[17], cr0: n[18], cr2: n[19], cr3: n[20], cr4: n[21], efer: n[22], dr6: n[23], dr7: n[24],
        cpl: (n[25] & 0xff) as u8, kernel_gs: n[26], star: n[27], lstar: n[28], cstar: n[29], sfmask: n[30], sysenter_cs: n[31],
        sysenter_esp: n[32], sysenter_eip: n[33], pat: n[34], hsave: n[35], tsc_add: n[36], shadow: n[37] & 1 == 1,
        es: segment_of([n[38], n[39], n[40], n[41]]),
        cs: segment_of([n[42], n[43], n[44], n[45]]),
        ss: segment_of([n[46], n[47], n[48], n[49]]),
        ds: segment_of([n[50], n[51], n[52], n[53]]),
        gdtr: segment_of([n[54], n[55], n[56], n[57]]),
        idtr: segment_of([n[58], n[59], n[60], n[61]]),
        fs: segment_of([n[62], n[63], n[64], n[65]]),
        gs: segment_of([n[66], n[67], n[68], n[69]]),
        tr: segment_of([n[70], n[71], n[72], n[73]]),
        ldtr: segment_of([n[74], n[75], n[76], n[77]]),
    }
}

#[rattlefmt::skip]
fn numbers_of(r: &Registers) -> Numbers {
    let g = &r.general;
    [
        g[0], g[1], g[2], g[3], g[4], g[5], g[6], g[7], g[8], g[9], g[10], g[11], g[12], g[13], g[14], g[15],
        r.rip, r.rflags, r.cr0, r.cr2, r.cr3, r.cr4, r.efer, r.dr6, r.dr7, r.cpl as u64,
        r.kernel_gs, r.star, r.lstar, r.cstar, r.sfmask, r.sysenter_cs, r.sysenter_esp, r.sysenter_eip,
        r.pat, r.hsave, r.tsc_add, r.shadow as u64,
        r.es.selector as u64, r.es.attributes as u64, r.es.limit as u64, r.es.base,
        r.cs.selector as u64, r.cs.attributes as u64, r.cs.limit as u64, r.cs.base,
        r.ss.selector as u64, r.ss.attributes as u64, r.ss.limit as u64, r.ss.base,
        r.ds.selector as u64, r.ds.attributes as u64, r.ds.limit as u64, r.ds.base,
        r.gdtr.selector as u64, r.gdtr.attributes as u64, r.gdtr.limit as u64, r.gdtr.base,
        r.idtr.selector as u64, r.idtr.attributes as u64, r.idtr.limit as u64, r.idtr.base,
        r.fs.selector as u64, r.fs.attributes as u64, r.fs.limit as u64, r.fs.base,
        r.gs.selector as u64, r.gs.attributes as u64, r.gs.limit as u64, r.gs.base,
        r.tr.selector as u64, r.tr.attributes as u64, r.tr.limit as u64, r.tr.base,
        r.ldtr.selector as u64, r.ldtr.attributes as u64, r.ldtr.limit as u64, r.ldtr.base,
    ]
}

/// A register of the guest's state, with the field that it is loaded from and stored in.
#[rattlefmt::skip]
const STATE: [(usize, Field); 36] = [
    (0, Rax), (4, Rsp), (16, Rip), (17, Rflags), (18, Cr0), (19, Cr2), (20, Cr3), (21, Cr4), (22, Efer), (23, Dr6),
    (24, Dr7), (25, Cpl),
    (38, EsSelector), (39, EsAttributes), (40, EsLimit), (41, EsBase),
    (42, CsSelector), (43, CsAttributes), (44, CsLimit), (45, CsBase),
    (46, SsSelector), (47, SsAttributes), (48, SsLimit), (49, SsBase),
    (50, DsSelector), (51, DsAttributes), (52, DsLimit), (53, DsBase),
    (54, GdtrSelector), (55, GdtrAttributes), (56, GdtrLimit), (57, GdtrBase),
    (58, IdtrSelector), (59, IdtrAttributes), (60, IdtrLimit), (61, IdtrBase),
];

/// A register that VMLOAD and VMSAVE move, with its field.
#[rattlefmt::skip]
const MOVED: [(usize, Field); 24] = [
    (26, KernelGsBase), (27, Star), (28, Lstar), (29, Cstar), (30, Sfmask), (31, SysenterCs), (32, SysenterEsp),
    (33, SysenterEip),
    (62, FsSelector), (63, FsAttributes), (64, FsLimit), (65, FsBase),
    (66, GsSelector), (67, GsAttributes), (68, GsLimit), (69, GsBase),
    (70, TrSelector), (71, TrAttributes), (72, TrLimit), (73, TrBase),
    (74, LdtrSelector), (75, LdtrAttributes), (76, LdtrLimit), (77, LdtrBase),
];

/// The registers that a #VMEXIT brings back: RAX, RSP, RIP, RFLAGS, CR0, CR3, CR4, EFER, and the six of segments and tables.
#[rattlefmt::skip]
const BACK: [usize; 32] = [
    0, 4, 16, 17, 18, 20, 21, 22,
    38, 39, 40, 41, 42, 43, 44, 45, 46, 47, 48, 49, 50, 51, 52, 53, 54, 55, 56, 57, 58, 59, 60, 61,
];

const PAT: usize = 34;

const SHADOW: usize = 37;

/// Sets a field of any width.
fn set<R: Abort>(rt: &R, fields: &mut Fields, field: Field, value: u64) {
    match place(field).1 {
        1 => assert!(rt; value < 1 << 8),
        2 => assert!(rt; value < 1 << 16),
        4 => assert!(rt; value < 1 << 32),
        width => assert!(rt; width == 8),
    }
    fields.set(field, value);
}

/// A value of its own for each field: no two have the same one.
fn own(field: Field) -> u64 {
    (field as u64).wrapping_add(0x80)
}

/// A VMCB in which each field has its own value, but for NP_ENABLE.
fn filled<R: Abort>(rt: &R, nested: bool) -> Fields {
    let mut fields = Fields::zeros();
    for line in &LAYOUT {
        set(rt, &mut fields, line.field, own(line.field));
    }
    set(rt, &mut fields, NpEnable, 0xfe | u64::from(nested));
    fields
}

fn put<R: Abort>(rt: &R, numbers: &mut Numbers, at: usize, value: u64) {
    assert!(rt; at < 78);
    numbers[at] = value;
}

fn same<R: Abort>(rt: &R, found: &Numbers, wanted: &Numbers) {
    for (at, (one, other)) in found.iter().zip(wanted.iter()).enumerate() {
        assert!(rt; one == other, "register {at}");
    }
}

#[test]
fn what_vmrun_loads_and_keeps(rt: HostRuntime) {
    for nested in [false, true] {
        let mut fields = filled(&rt, nested);
        let mut registers = registers_of(&numbers(0x1000));
        let before = numbers_of(&registers);
        let kept = enter(&mut registers, &fields, 0x12_3456_7000, 0x6789);
        let mut wanted = before;
        for &(at, field) in &STATE {
            put(&rt, &mut wanted, at, own(field));
        }
        if nested {
            wanted[PAT] = own(GPat);
        }
        wanted[SHADOW] = 1;
        same(&rt, &numbers_of(&registers), &wanted);
        let mut caller = before;
        caller[16] = 0x6789;
        same(&rt, &numbers_of(&kept.registers), &caller);
        assert_eq!(rt; kept.vmcb, 0x12_3456_7000);
        // Of SHADOW bit 0 alone counts.
        set(&rt, &mut fields, Shadow, 0xffff_ffff_ffff_fffe);
        let _ = enter(&mut registers, &fields, 0, 0);
        assert!(rt; !registers.shadow);
    }
}

const EXIT: Exit = Exit {
    code: 0x400,
    info1: 0x1_0000_0006,
    info2: 0x7654_3000,
    next_rip: 0x8888_8888_8888_8888,
};

/// The registers after a #VMEXIT.
fn back<R: Abort>(rt: &R, guest: &Numbers, kept: &Numbers, nested: bool) -> Numbers {
    let mut wanted = *guest;
    for &at in &BACK {
        assert!(rt; at < 78);
        wanted[at] = kept[at];
    }
    if nested {
        wanted[PAT] = kept[PAT];
    }
    // DR7, CPL and the interrupt shadow
    wanted[24] = 0x400;
    wanted[25] = 0;
    wanted[SHADOW] = 0;
    wanted
}

/// The field has this value, and is given its own one again, so that all fields have theirs once each was looked at.
fn stored<R: Abort>(rt: &R, fields: &mut Fields, field: Field, value: u64) {
    let offset = place(field).0;
    assert!(rt; fields.value(field) == value, "at {offset}");
    set(rt, fields, field, own(field));
}

#[test]
fn what_an_exit_stores_and_brings_back(rt: HostRuntime) {
    for nested in [false, true] {
        let mut fields = filled(&rt, nested);
        set(&rt, &mut fields, EventInj, 0xffff_ffff_8000_0b0d);
        let mut registers = registers_of(&numbers(0x1000));
        let guest = numbers_of(&registers);
        let kept = Kept {
            registers: registers_of(&numbers(0x2080)),
            vmcb: 0,
        };
        set(&rt, &mut fields, Shadow, 0xffff_ffff_ffff_fffe);
        leave(&mut registers, &kept, &EXIT, None, &mut fields);
        same(
            &rt,
            &numbers_of(&registers),
            &back(&rt, &guest, &numbers_of(&kept.registers), nested),
        );
        for &(at, field) in &STATE {
            assert!(rt; at < 78);
            stored(&rt, &mut fields, field, guest[at]);
        }
        stored(
            &rt,
            &mut fields,
            GPat,
            if nested { guest[PAT] } else { own(GPat) },
        );
        stored(&rt, &mut fields, ExitCode, 0x400);
        stored(&rt, &mut fields, ExitInfo1, 0x1_0000_0006);
        stored(&rt, &mut fields, ExitInfo2, 0x7654_3000);
        stored(&rt, &mut fields, NextRip, 0x8888_8888_8888_8888);
        stored(&rt, &mut fields, ExitIntInfo, 0);
        stored(&rt, &mut fields, EventInj, 0xffff_ffff_0000_0b0d);
        stored(&rt, &mut fields, Shadow, 0xffff_ffff_ffff_ffff);
        stored(&rt, &mut fields, NpEnable, 0xfe | u64::from(nested));
        // The others are as they were.
        for line in &LAYOUT {
            let value = fields.value(line.field);
            let offset = line.offset;
            assert!(rt; value == own(line.field), "at {offset}");
        }
        // There is no interrupt shadow now: bit 0 alone of SHADOW changes.
        set(&rt, &mut fields, Shadow, 0xffff_ffff_ffff_ffff);
        leave(&mut registers, &kept, &EXIT, None, &mut fields);
        assert_eq!(rt; fields.value(Shadow), 0xffff_ffff_ffff_fffe);
    }
}

/// The event that was in delivery, by its vector, its code and its cause, and EXITINTINFO.
#[rattlefmt::skip]
const DELIVERED: [(u8, Option<u32>, Cause, u64); 7] = [
    (0x30, None, Cause::External, 0x8000_0030),
    (0xff, None, Cause::External, 0x8000_00ff),
    (2, None, Cause::Nmi, 0x8000_0202),
    (6, None, Cause::Fault, 0x8000_0306),
    (14, Some(6), Cause::Fault, 0x6_8000_0b0e),
    (13, Some(0xffff_ffff), Cause::Fault, 0xffff_ffff_8000_0b0d),
    (3, None, Cause::Software, 0x8000_0403),
];

#[test]
fn an_event_in_delivery_is_told(rt: HostRuntime) {
    for &(vector, code, cause, word) in &DELIVERED {
        let mut fields = filled(&rt, false);
        let mut registers = registers_of(&numbers(0x1000));
        let kept = Kept { registers, vmcb: 0 };
        let trap = Trap {
            vector,
            code,
            address: Some(0x5555),
            cause,
        };
        leave(&mut registers, &kept, &EXIT, Some(trap), &mut fields);
        assert!(rt; fields.value(ExitIntInfo) == word, "vector {vector}");
    }
}

/// The turn of these bits, in the order of the table below.
fn turn_of(bits: u16) -> Turn {
    Turn {
        injection: bits & 0x100 != 0,
        nmi: bits & 0x80 != 0,
        nmi_blocked: bits & 0x40 != 0,
        gif: bits & 0x20 != 0,
        interrupt: if bits & 0x10 != 0 { Some(0) } else { None },
        interrupt_flag: bits & 8 != 0,
        virtual_ready: bits & 4 != 0,
        shadow: bits & 2 != 0,
        halted: bits & 1 != 0,
    }
}

/// An injection; an NMI, NMIs blocked; GIF; an interrupt, its flag; a virtual interrupt; a shadow, a halt; and the work.
#[rattlefmt::skip]
const TURNS: [(u16, Work); 24] = [
    // an injection comes first, whatever else there is
    (0b1_11_1_11_1_11, Work::Inject), (0b1_00_0_00_0_00, Work::Inject), (0b1_10_1_11_1_00, Work::Inject),
    // an NMI, if GIF is 1 and none is in service, in an interrupt shadow too
    (0b0_10_1_11_1_11, Work::Nmi), (0b0_10_1_00_0_00, Work::Nmi), (0b0_10_0_11_1_00, Work::Instruction),
    (0b0_11_1_00_0_00, Work::Instruction), (0b0_01_1_00_0_00, Work::Instruction),
    // an interrupt, with its flag and no shadow
    (0b0_11_1_11_1_00, Work::Interrupt), (0b0_00_1_11_1_01, Work::Interrupt), (0b0_00_1_11_0_00, Work::Interrupt),
    (0b0_00_1_10_0_00, Work::Instruction), (0b0_00_1_01_0_00, Work::Instruction),
    (0b0_00_0_11_0_00, Work::Instruction), (0b0_00_1_11_1_10, Work::Instruction),
    // a virtual interrupt, with no shadow
    (0b0_00_1_10_1_00, Work::Virtual), (0b0_00_1_01_1_01, Work::Virtual), (0b0_00_0_00_1_00, Work::Instruction),
    (0b0_00_1_00_1_10, Work::Instruction),
    // a halt, and an instruction
    (0b0_00_1_00_0_01, Work::Nothing), (0b0_11_0_11_1_11, Work::Nothing), (0b0_00_1_00_1_11, Work::Nothing),
    (0b0_00_0_00_0_00, Work::Instruction), (0b0_11_1_10_0_10, Work::Instruction),
];

#[test]
fn the_work_of_a_turn_is_the_first_that_applies(rt: HostRuntime) {
    for &(bits, work) in &TURNS {
        assert!(rt; next_work(&turn_of(bits)) == work, "{bits}");
    }
}

/// The second and third of three pages, and the address of a VMCB there.
const WINDOW: GuestWindow = GuestWindow {
    base: 4096,
    size: 8192,
};

const ADDRESS: u64 = 0xff8;

#[test]
fn what_vmsave_stores_vmload_loads(rt: HostRuntime) -> Result<(), AllocError> {
    save_and_load::<Brand, HostRuntime>(&rt, rt.alloc(), Blank::new(1))
}

#[tactic(auto, using(svm_model::proofs::WindowLemmas::windows))]
fn save_and_load<L: Ledger, R: Abort>(rt: &R, alloc: Global, blank: Blank) -> Result<(), AllocError>
    requires name { blank.name ≡ L.name }
    requires parts { blank.parts ≡ L.parts }
    requires some { 0 < blank.parts }
{
    let mut steps: Steps<L> = counted_from(blank);
    let mut memory = HostMemory::new(alloc, 3)?;
    let registers = registers_of(&numbers(0x1000));
    assert!(rt; vmsave(&registers, &mut memory, WINDOW, ADDRESS) == Ok(()));
    let saved = numbers_of(&registers);
    let mut others = registers_of(&numbers(0x2080));
    let mut wanted = numbers_of(&others);
    assert!(rt; vmload(&mut others, &memory, WINDOW, ADDRESS, &mut steps) == Ok(()));
    for &(at, field) in &MOVED {
        assert!(rt; at < 78);
        wanted[at] = saved[at];
        let found = get(&memory, WINDOW, ADDRESS, field, &mut steps);
        assert!(rt; found == Ok(saved[at]), "register {at}");
    }
    same(rt, &numbers_of(&others), &wanted);
    for &(at, field) in &STATE {
        let found = get(&memory, WINDOW, ADDRESS, field, &mut steps);
        assert!(rt; found == Ok(0), "register {at}");
    }
    Ok(())
}

/// The size of the guest's memory, the address of a VMCB, and the first byte outside that is told.
#[rattlefmt::skip]
const MISSING: [(u64, u64, u64); 6] = [
    (4096, 1, 4096), (4095, 0, 4095), (4096, 0x1000, 0x1440), (0x440, 0, 0x440), (0, 0, 0x440),
    (8192, 0xff_ffff_f000, 0xff_ffff_f440),
];

#[test]
fn what_is_outside_is_refused(rt: HostRuntime) -> Result<(), AllocError> {
    refuse_each::<Brand, HostRuntime>(&rt, rt.alloc(), Blank::new(1))
}

fn refuse_each<L: Ledger, R: Abort>(rt: &R, alloc: Global, blank: Blank) -> Result<(), AllocError>
    requires name { blank.name ≡ L.name }
    requires parts { blank.parts ≡ L.parts }
    requires some { 0 < blank.parts }
{
    let mut steps: Steps<L> = counted_from(blank);
    for &(size, address, outside) in &MISSING {
        assert!(rt; size <= 8192 && address < 1 << 40);
        let mut memory = HostMemory::new(alloc, 3)?;
        let window = GuestWindow { base: 4096, size };
        let mut registers = registers_of(&numbers(0x1000));
        let before = numbers_of(&registers);
        let wanted = Err(OutsideMemory { address: outside });
        let loaded = vmload(&mut registers, &memory, window, address, &mut steps);
        assert!(rt; loaded == wanted, "{size} {address}");
        same(rt, &numbers_of(&registers), &before);
        let saved = vmsave(&registers, &mut memory, window, address);
        assert!(rt; saved == wanted, "{size} {address}");
    }
    Ok(())
}
