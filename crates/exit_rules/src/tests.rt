// Exits against the tables of the manual: bits of the intercept words, exit codes, what an exit tells, and the maps.
ghost use Rattle.std.specs.Prelude.{◌≡◌, ◌<◌};

use crate::{
    Exit, Field, Fields, Row, Trap, by_msr, by_port, by_row, by_trap, msr_exit, port_exit,
};
use host_memory::{GuestWindow, HostMemory, Steps, counted_from};
use std::alloc::{AllocError, Global};
use std::marker::Brand;
use std::process::Abort;
use std::sync::ledger::{Blank, Ledger};
use svm_model::{Cause, Form, Op, Operand, OutsideMemory, Width};
use vmcb_layout::place;

/// Sets a field of any width.
fn set<R: Abort>(rt: &R, fields: &mut Fields, field: Field, value: u64) {
    match place(field).1 {
        1 => assert!(rt; value < 1 << 8),
        2 => assert!(rt; value < 1 << 16),
        4 => assert!(rt; value < 1 << 32),
        width => assert!(rt; width == 8),
    }
    fields.set(field, value);
}

/// Fields of zeros, but for one of the words of intercepts.
fn fields_with<R: Abort>(rt: &R, field: Field, word: u32) -> Fields {
    let mut fields = Fields::zeros();
    set(rt, &mut fields, field, u64::from(word));
    fields
}

fn row(op: Op, form: Form, register: u8) -> Row {
    Row {
        op,
        form,
        width: Width::W64,
        lock: false,
        register,
        operand: Operand::None,
        immediate: 0,
        condition: 0,
    }
}

/// A row with its register, the word and the bit that intercept it, and the code of its exit.
struct Intercepted {
    op: Op,
    form: Form,
    register: u8,
    word: Field,
    bit: u8,
    code: u64,
}

#[rattlefmt::skip]
const INTERCEPTED: [Intercepted; 22] = [
    Intercepted { op: Op::MovCr, form: Form::MovCr0F20, register: 0, word: Field::CrIntercepts, bit: 0, code: 0x00 },
    Intercepted { op: Op::MovCr, form: Form::MovCr0F20, register: 8, word: Field::CrIntercepts, bit: 8, code: 0x08 },
    Intercepted { op: Op::MovCr, form: Form::MovCr0F22, register: 3, word: Field::CrIntercepts, bit: 19, code: 0x13 },
    Intercepted { op: Op::MovDr, form: Form::MovDr0F21, register: 6, word: Field::DrIntercepts, bit: 6, code: 0x26 },
    Intercepted { op: Op::MovDr, form: Form::MovDr0F23, register: 7, word: Field::DrIntercepts, bit: 23, code: 0x37 },
    Intercepted { op: Op::Lidt, form: Form::Lidt0F01, register: 0, word: Field::InterceptWordC, bit: 10, code: 0x6a },
    Intercepted { op: Op::Lgdt, form: Form::Lgdt0F01, register: 0, word: Field::InterceptWordC, bit: 11, code: 0x6b },
    Intercepted { op: Op::Rdtsc, form: Form::Rdtsc0F31, register: 0, word: Field::InterceptWordC, bit: 14, code: 0x6e },
    Intercepted { op: Op::Pushfq, form: Form::Pushfq9C, register: 0, word: Field::InterceptWordC, bit: 16, code: 0x70 },
    Intercepted { op: Op::Popfq, form: Form::Popfq9D, register: 0, word: Field::InterceptWordC, bit: 17, code: 0x71 },
    Intercepted { op: Op::Cpuid, form: Form::Cpuid0FA2, register: 0, word: Field::InterceptWordC, bit: 18, code: 0x72 },
    Intercepted { op: Op::Iretq, form: Form::IretqCF, register: 0, word: Field::InterceptWordC, bit: 20, code: 0x74 },
    Intercepted { op: Op::Int, form: Form::IntCD, register: 0, word: Field::InterceptWordC, bit: 21, code: 0x75 },
    Intercepted { op: Op::Pause, form: Form::PauseF390, register: 0, word: Field::InterceptWordC, bit: 23, code: 0x77 },
    Intercepted { op: Op::Hlt, form: Form::HltF4, register: 0, word: Field::InterceptWordC, bit: 24, code: 0x78 },
    Intercepted { op: Op::Invlpg, form: Form::Invlpg0F01, register: 0, word: Field::InterceptWordC, bit: 25, code: 0x79 },
    Intercepted { op: Op::Invlpga, form: Form::Invlpga0F01DF, register: 0, word: Field::InterceptWordC, bit: 26, code: 0x7a },
    Intercepted { op: Op::Vmmcall, form: Form::Vmmcall0F01D9, register: 0, word: Field::InterceptWord10, bit: 1, code: 0x81 },
    Intercepted { op: Op::Vmload, form: Form::Vmload0F01DA, register: 0, word: Field::InterceptWord10, bit: 2, code: 0x82 },
    Intercepted { op: Op::Vmsave, form: Form::Vmsave0F01DB, register: 0, word: Field::InterceptWord10, bit: 3, code: 0x83 },
    Intercepted { op: Op::Stgi, form: Form::Stgi0F01DC, register: 0, word: Field::InterceptWord10, bit: 4, code: 0x84 },
    Intercepted { op: Op::Clgi, form: Form::Clgi0F01DD, register: 0, word: Field::InterceptWord10, bit: 5, code: 0x85 },
];

#[test]
fn rows_exit_by_their_bit_alone(rt: HostRuntime) {
    for line in &INTERCEPTED {
        let row = row(line.op, line.form, line.register);
        let bit = 1_u32 << (line.bit % 32);
        let exit = Exit {
            code: line.code,
            info1: 0,
            info2: 0,
            next_rip: 0x5003,
        };
        assert_eq!(rt;
            by_row(&fields_with(&rt, line.word, bit), &row, 0x5003),
            Some(exit)
        );
        assert_eq!(rt;
            by_row(&fields_with(&rt, line.word, !bit), &row, 0x5003),
            None
        );
    }
}

#[test]
fn some_rows_have_no_bit(rt: HostRuntime) {
    let none = fields_with(&rt, Field::InterceptWordC, 0);
    let vmrun = row(Op::Vmrun, Form::Vmrun0F01D8, 0);
    assert_eq!(rt; by_row(&none, &vmrun, 8).map(|exit| exit.code), Some(0x80));
    for op in [
        Op::In,
        Op::Out,
        Op::Rdmsr,
        Op::Wrmsr,
        Op::Ud2,
        Op::Cli,
        Op::Swapgs,
        Op::Int3,
    ] {
        let all = fields_with(&rt, Field::InterceptWordC, 0xffff_ffff);
        assert_eq!(rt; by_row(&all, &row(op, Form::HltF4, 0), 8), None);
    }
}

fn trap(vector: u8, code: Option<u32>, address: Option<u64>, cause: Cause) -> Trap {
    Trap {
        vector,
        code,
        address,
        cause,
    }
}

#[test]
fn exceptions_tell_code_and_address(rt: HostRuntime) {
    let all = fields_with(&rt, Field::ExceptionIntercepts, 0xffff_ffff);
    let page_fault = trap(14, Some(6), Some(0x8000), Cause::Fault);
    let exit = Exit {
        code: 0x4e,
        info1: 6,
        info2: 0x8000,
        next_rip: 0,
    };
    assert_eq!(rt; by_trap(&all, &page_fault, 5), Some(exit));
    assert_eq!(rt;
        by_trap(
            &fields_with(&rt, Field::ExceptionIntercepts, !0x4000),
            &page_fault,
            5
        ),
        None
    );
    let breakpoint = trap(3, None, None, Cause::Software);
    assert_eq!(rt;
        by_trap(&all, &breakpoint, 5).map(|exit| (exit.code, exit.next_rip)),
        Some((0x43, 5))
    );
    assert_eq!(rt;
        by_trap(&all, &trap(0x21, None, None, Cause::Software), 5),
        None
    );
    assert_eq!(rt; by_trap(&all, &trap(2, None, None, Cause::Nmi), 5), None);
    assert_eq!(rt;
        by_trap(&all, &trap(0x20, None, None, Cause::External), 5),
        None
    );
}

#[test]
fn maps_tell_port_and_direction(rt: HostRuntime) {
    assert_eq!(rt; port_exit(true, 0x10, 1, 5).info1, 0x10_0211);
    assert_eq!(rt; port_exit(false, 0x1234, 4, 5).info1, 0x1234_0240);
    assert_eq!(rt;
        (
            port_exit(false, 2, 2, 5).info2,
            port_exit(false, 2, 2, 5).next_rip
        ),
        (5, 5)
    );
    assert_eq!(rt; (msr_exit(true, 5).info1, msr_exit(false, 5).info1), (1, 0));
}

const WINDOW: GuestWindow = GuestWindow {
    base: 0,
    size: 0x3000,
};

/// The first port, how many, and whether a bit is set for one, where the map has the bit of port 10h alone.
const PORTS: [(u16, u8, bool); 7] = [
    (0x10, 1, true),
    (0x0f, 1, false),
    (0x0f, 2, true),
    (0x11, 4, false),
    (0x0d, 4, true),
    (0x0c, 4, false),
    (0xffff, 1, false),
];

/// An MSR, whether it is written, and whether that is intercepted, where the map has the bit of a write of EFER alone.
const MSRS: [(u32, bool, bool); 6] = [
    (0xc000_0080, true, true),
    (0xc000_0080, false, false),
    (0xc000_0081, false, false),
    (0x2000, false, true),
    (0xc001_2000, true, true),
    (0xc001_1fff, true, false),
];

#[test]
fn maps_are_looked_at(rt: HostRuntime) -> Result<(), AllocError> {
    look_at_maps::<Brand, HostRuntime>(&rt, rt.alloc(), Blank::new(1))
}

fn look_at_maps<L: Ledger, R: Abort>(rt: &R, alloc: Global, blank: Blank) -> Result<(), AllocError>
    requires name { blank.name ≡ L.name }
    requires parts { blank.parts ≡ L.parts }
    requires some { 0 < blank.parts }
{
    let mut steps: Steps<L> = counted_from(blank);
    let mut memory = HostMemory::new(alloc, 3)?;
    let mut fields = Fields::zeros();
    set(rt, &mut fields, Field::MsrpmBase, 0x1fff);
    let mut byte = [0; 16];
    byte[0] = 1;
    let _ = memory.write_guest(WINDOW, 2, &byte, 1);
    byte[0] = 2;
    let _ = memory.write_guest(WINDOW, 0x1820, &byte, 1);
    for &(port, width, set) in &PORTS {
        let found = match width {
            1 => by_port(&memory, WINDOW, &fields, port, 1, &mut steps),
            2 => by_port(&memory, WINDOW, &fields, port, 2, &mut steps),
            _ => by_port(&memory, WINDOW, &fields, port, 4, &mut steps),
        };
        assert!(rt; found == Ok(set), "{port} {width}");
    }
    for &(msr, writes, set) in &MSRS {
        let found = by_msr(&memory, WINDOW, &fields, msr, writes, &mut steps);
        assert!(rt; found == Ok(set), "{msr}");
    }
    set(rt, &mut fields, Field::IopmBase, 0x3000);
    let found = by_port(&memory, WINDOW, &fields, 0x10, 1, &mut steps);
    assert!(rt; found == Err(OutsideMemory { address: 0x3002 }));
    Ok(())
}
