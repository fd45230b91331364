// Rows with values from the manual: what each answers, and what stands in the registers behind it.

use crate::system;
use svm_model::{
    End, Facts, Form, GuestId, Op, Operand, Outside, Registers, Row, Segment, VcpuId, Width,
};

const NEXT: u64 = 0x2000_0002;

/// A row's answer: done, what it asks for, the rule by which it ends the guest, or the vector of its fault.
#[derive(Clone, Copy, PartialEq, Eq)]
enum Told {
    Done,
    Shadow,
    Local,
    Asid,
    Page(u64),
    Priority(u8),
    PortRead(u16, u8),
    Mode(u8),
    Fault(u8),
    Other,
}

const SEGMENT: Segment = Segment {
    selector: 0,
    attributes: 0,
    limit: 0,
    base: 0,
};

const REGISTERS: Registers = Registers {
    general: [0; 16],
    rip: 0x2000_0000,
    rflags: 2,
    cr0: 0x8000_0011,
    cr2: 0,
    cr3: 0x1000,
    cr4: 0x20,
    efer: 0x500,
    dr6: 0xffff_0ff0,
    dr7: 0x400,
    es: SEGMENT,
    cs: SEGMENT,
    ss: SEGMENT,
    ds: SEGMENT,
    fs: SEGMENT,
    gs: SEGMENT,
    ldtr: SEGMENT,
    tr: SEGMENT,
    gdtr: SEGMENT,
    idtr: SEGMENT,
    cpl: 0,
    kernel_gs: 0,
    star: 0,
    lstar: 0,
    cstar: 0,
    sfmask: 0,
    sysenter_cs: 0,
    sysenter_esp: 0,
    sysenter_eip: 0,
    pat: 0x0007_0406_0007_0406,
    hsave: 0,
    tsc_add: 0,
    shadow: true,
};

const FACTS: Facts = Facts {
    vcpu: VcpuId {
        guest: GuestId(0),
        index: 0,
    },
    event: 7,
    tsc: 7,
    apic_id: 0,
    features: 0,
    tpr: 0x50,
};

const ROW: Row = Row {
    op: Op::Pause,
    form: Form::PauseF390,
    width: Width::W8,
    lock: false,
    register: 0,
    operand: Operand::None,
    immediate: 0,
    condition: 0,
};

const RAX: Operand = Operand::Register {
    index: 0,
    high: false,
};

const AT_RBX: Operand = Operand::Memory {
    base: Some(3),
    index: None,
    scale: 1,
    displacement: 0,
    next: false,
    segment: 0,
};

fn told_of(outside: Outside) -> Told {
    match outside {
        Outside::None => Told::Done,
        Outside::Shadow => Told::Shadow,
        Outside::DropLocal => Told::Local,
        Outside::DropAsid => Told::Asid,
        Outside::DropPage { address } => Told::Page(address),
        Outside::Priority { value } => Told::Priority(value),
        Outside::PortRead { port, width } => Told::PortRead(port, width),
        Outside::Ends(End::Mode { rule }) => Told::Mode(rule),
        _ => Told::Other,
    }
}

/// What a row answers.
fn tell(
    row: &Row,
    registers: &mut Registers,
    values: [u64; 2],
    results: &mut [u64; 8],
    facts: &Facts,
) -> Told {
    let values = [values[0], values[1], 0, 0, 0, 0, 0, 0];
    match system(row, registers, NEXT, &values, results, facts) {
        Ok(outside) => told_of(outside),
        Err(trap) => Told::Fault(trap.vector),
    }
}

/// A row alone, of this instruction, at this level.
fn does(op: Op, registers: &mut Registers, values: [u64; 2]) -> Told {
    let row = Row {
        op,
        operand: AT_RBX,
        ..ROW
    };
    tell(&row, registers, values, &mut [0; 8], &FACTS)
}

/// Writes to control and debug registers: the instruction, the register, the value and the answer.
const CONTROL_WRITES: [(Op, u8, u64, Told); 18] = [
    // PG without PE, NW without CD, a bit above 31; PG 0, AM 1; CR0 as it should be
    (Op::MovCr, 0, 0x8000_0010, Told::Fault(13)),
    (Op::MovCr, 0, 0xa000_0011, Told::Fault(13)),
    (Op::MovCr, 0, 0x1_8000_0011, Told::Fault(13)),
    (Op::MovCr, 0, 0x11, Told::Mode(1)),
    (Op::MovCr, 0, 0x8004_0011, Told::Mode(1)),
    (Op::MovCr, 0, 0x8000_0001, Told::Done),
    // any address in CR2; a physical address of at most 40 bits in CR3
    (Op::MovCr, 2, 0x0001_0000_0000_0000, Told::Done),
    (Op::MovCr, 3, 0x100_0000_0000, Told::Fault(13)),
    (Op::MovCr, 3, 0xff_ffff_f000, Told::Local),
    // VMXE; PAE 0; PGE is new; PGE stays
    (Op::MovCr, 4, 0x2020, Told::Fault(13)),
    (Op::MovCr, 4, 0x10, Told::Mode(2)),
    (Op::MovCr, 4, 0xa0, Told::Asid),
    (Op::MovCr, 4, 0x6a0 - 0x80, Told::Done),
    // the priority
    (Op::MovCr, 8, 16, Told::Fault(13)),
    (Op::MovCr, 8, 15, Told::Priority(15)),
    // a bit above 31; GD; no breakpoint
    (Op::MovDr, 6, 0x1_ffff_0ff0, Told::Fault(13)),
    (Op::MovDr, 7, 0x2400, Told::Mode(6)),
    (Op::MovDr, 7, 0x400, Told::Done),
];

#[test]
fn control_registers_take_what_is_offered(rt: HostRuntime) {
    for (number, (op, register, value, told)) in CONTROL_WRITES.iter().enumerate() {
        let form = if *op == Op::MovCr {
            Form::MovCr0F22
        } else {
            Form::MovDr0F23
        };
        let row = Row {
            op: *op,
            form,
            width: Width::W64,
            register: *register,
            operand: RAX,
            ..ROW
        };
        let mut registers = REGISTERS;
        registers.general[0] = *value;
        let answer = tell(&row, &mut registers, [0, 0], &mut [0; 8], &FACTS);
        assert!(rt; answer == *told, "case {number}");
        let moved = !matches!(answer, Told::Fault(_) | Told::Mode(_));
        assert!(rt; (registers.rip == NEXT) == moved, "RIP of case {number}");
    }
    let mut registers = REGISTERS;
    let read = Row {
        op: Op::MovCr,
        form: Form::MovCr0F20,
        width: Width::W64,
        register: 8,
        operand: RAX,
        ..ROW
    };
    assert!(rt; tell(&read, &mut registers, [0, 0], &mut [0; 8], &FACTS) == Told::Done);
    assert!(rt; registers.general[0] == 5);
}

/// Writes of MSRs: the number, the value, the answer, and what is read then.
const MSR_WRITES: [(u64, u64, Told, u64); 17] = [
    (0x10, 1000, Told::Done, 1000),
    (0x1b, 0xfee0_0900, Told::Done, 0xfee0_0900),
    (0x1b, 0xfee1_0900, Told::Mode(7), 0xfee0_0900),
    (0x176, 0x1_2345_6789, Told::Done, 0x2345_6789),
    (
        0x277,
        0x0106_0507_0400_0001,
        Told::Done,
        0x0106_0507_0400_0001,
    ),
    (
        0x277,
        0x0207_0406_0007_0406,
        Told::Fault(13),
        0x0007_0406_0007_0406,
    ),
    (0xc000_0080, 0x502, Told::Fault(13), 0x500),
    (0xc000_0080, 0x001, Told::Mode(3), 0x500),
    (0xc000_0080, 0x901, Told::Done, 0xd01),
    (0xc000_0082, 0x8000_0000_0000, Told::Fault(13), 0),
    (
        0xc000_0082,
        0xffff_8000_0000_0000,
        Told::Done,
        0xffff_8000_0000_0000,
    ),
    (0xc000_0101, 0x7fff_ffff_ffff, Told::Done, 0x7fff_ffff_ffff),
    (0xc001_0114, 0x10, Told::Done, 0),
    (0xc001_0117, 0x1800, Told::Fault(13), 0),
    (0xc001_0117, 0x100_0000_0000, Told::Fault(13), 0),
    (0xc001_0117, 0x3000, Told::Done, 0x3000),
    (0x1_0000_0010, 3, Told::Done, 3),
];

#[test]
fn msrs_keep_what_they_take(rt: HostRuntime) {
    for (number, (msr, value, told, read)) in MSR_WRITES.iter().enumerate() {
        let mut registers = REGISTERS;
        registers.general[0] = *value;
        registers.general[1] = *msr;
        registers.general[2] = *value >> 32;
        let answer = does(Op::Wrmsr, &mut registers, [0, 0]);
        assert!(rt; answer == *told, "case {number}");
        // the counter in this turn
        let facts = Facts {
            tsc: registers.tsc_add.wrapping_add(7),
            ..FACTS
        };
        let row = Row {
            op: Op::Rdmsr,
            ..ROW
        };
        let answer = tell(&row, &mut registers, [0, 0], &mut [0; 8], &facts);
        assert!(rt; answer == Told::Done, "read of case {number}");
        let [low, _, high, ..] = registers.general;
        assert!(rt;
            low == *read & 0xffff_ffff && high == *read >> 32,
            "case {number}"
        );
    }
    let mut registers = REGISTERS;
    registers.general[1] = 0x2ff;
    assert!(rt; does(Op::Rdmsr, &mut registers, [0, 0]) == Told::Fault(13));
    assert!(rt; does(Op::Wrmsr, &mut registers, [0, 0]) == Told::Fault(13));
}

/// CPUID: what EAX holds, the image's features, and EAX, EBX, ECX and EDX behind it.
const LEAVES: [(u64, u32, [u64; 4]); 5] = [
    (0, 0, [1, 0x6874_7541, 0x444d_4163, 0x6974_6e65]),
    (1, 0, [0, 0x300_0000, 0, 0xa278]),
    (0x8000_000a, 0, [1, 16, 0, 0x1_0029]),
    (0xf_8000_000a, 3, [1, 16, 0, 0x1_0069]),
    (2, 1, [0, 0, 0, 0]),
];

#[test]
fn leaves_are_told(rt: HostRuntime) {
    for (number, (leaf, features, told)) in LEAVES.iter().enumerate() {
        let mut registers = REGISTERS;
        registers.general = [0xffff_ffff_ffff_ffff; 16];
        registers.general[0] = *leaf;
        let facts = Facts {
            apic_id: 3,
            features: *features,
            ..FACTS
        };
        let row = Row {
            op: Op::Cpuid,
            ..ROW
        };
        let answer = tell(&row, &mut registers, [0, 0], &mut [0; 8], &facts);
        assert!(rt; answer == Told::Done, "leaf {number}");
        let [eax, ecx, edx, ebx, ..] = registers.general;
        assert!(rt; [eax, ebx, ecx, edx] == *told, "registers of leaf {number}");
    }
}

#[test]
fn flags_change_where_they_may(rt: HostRuntime) {
    // POPFQ at CPL 3 with IOPL 0: of IF, IOPL and CF only CF is new; at CPL 0 all are
    let mut registers = Registers {
        cpl: 3,
        ..REGISTERS
    };
    assert!(rt; does(Op::Popfq, &mut registers, [0x3201, 0]) == Told::Done);
    assert!(rt; registers.rflags == 3 && registers.general[4] == 8);
    assert!(rt; registers.rip == NEXT && !registers.shadow);
    let mut registers = REGISTERS;
    assert!(rt; does(Op::Popfq, &mut registers, [0x3201, 0]) == Told::Done);
    assert!(rt; registers.rflags == 0x3203);
    assert!(rt; does(Op::Popfq, &mut registers, [0x102, 0]) == Told::Mode(6));
    // STI twice: the second casts no shadow
    let mut registers = REGISTERS;
    assert!(rt; does(Op::Sti, &mut registers, [0, 0]) == Told::Shadow);
    assert!(rt; does(Op::Sti, &mut registers, [0, 0]) == Told::Done);
    assert!(rt; registers.rflags == 0x202);
    assert!(rt; does(Op::Cli, &mut registers, [0, 0]) == Told::Done);
    assert!(rt; registers.rflags == 2);
    registers.cpl = 3;
    assert!(rt; does(Op::Cli, &mut registers, [0, 0]) == Told::Fault(13));
    // PUSHFQ writes RFLAGS without RF and VM
    let mut registers = Registers {
        rflags: 0x3_0202,
        ..REGISTERS
    };
    registers.general[4] = 0x4000;
    let row = Row {
        op: Op::Pushfq,
        ..ROW
    };
    let mut results = [0; 8];
    assert!(rt; tell(&row, &mut registers, [0, 0], &mut results, &FACTS) == Told::Done);
    assert!(rt; results[0] == 0x202 && registers.general[4] == 0x3ff8);
}

#[test]
fn tables_and_pages(rt: HostRuntime) {
    let mut registers = REGISTERS;
    let base = 0xffff_8000_0000_1000;
    assert!(rt; does(Op::Lgdt, &mut registers, [0x7f, base]) == Told::Done);
    assert!(rt; registers.gdtr.limit == 0x7f && registers.gdtr.base == base);
    assert!(rt; does(Op::Lidt, &mut registers, [0xfff, 0x5000]) == Told::Done);
    assert!(rt; registers.idtr.limit == 0xfff && registers.idtr.base == 0x5000);
    let answer = does(Op::Lgdt, &mut registers, [0, 0x8000_0000_0000]);
    assert!(rt; answer == Told::Fault(13) && registers.gdtr.limit == 0x7f);

    registers.general[3] = 0x1234;
    assert!(rt; does(Op::Invlpg, &mut registers, [0, 0]) == Told::Page(0x1234));
    registers.general[3] = 0x8000_0000_0000;
    assert!(rt; does(Op::Invlpg, &mut registers, [0, 0]) == Told::Done);

    registers.gs.base = 0x10;
    registers.kernel_gs = 0x20;
    assert!(rt; does(Op::Swapgs, &mut registers, [0, 0]) == Told::Done);
    assert!(rt; registers.gs.base == 0x20 && registers.kernel_gs == 0x10);

    let mut registers = Registers {
        cpl: 3,
        ..REGISTERS
    };
    assert!(rt; does(Op::Swapgs, &mut registers, [0, 0]) == Told::Fault(13));
    assert!(rt; does(Op::Rdtsc, &mut registers, [0, 0]) == Told::Done);
    assert!(rt; registers.general[0] == 7 && registers.general[2] == 0);
    registers.cr4 = 0x24;
    assert!(rt; does(Op::Rdtsc, &mut registers, [0, 0]) == Told::Fault(13));
    assert!(rt; does(Op::In, &mut registers, [0, 0]) == Told::Fault(13));
    registers.rflags = 0x3002;
    assert!(rt; does(Op::In, &mut registers, [0, 0]) == Told::PortRead(0, 1));
    assert!(rt; does(Op::Vmmcall, &mut registers, [0, 0]) == Told::Fault(6));
    assert!(rt; does(Op::Ud2, &mut registers, [0, 0]) == Told::Fault(6));
}
