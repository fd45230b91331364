// Rows as a processor does them. The tables were made by an assembly program that ran each instruction natively on an
// Intel Xeon, with these registers, flags and memory, and noted what came of it. Flags that the manual leaves undefined
// are those before the instruction.
ghost use Rattle.std.specs.Prelude.{◌≡◌};

use crate::{
    Applied, Cause, Form, Op, Operand, Registers, Row, Segment, Width, apply, is_user_row,
    lock_is_undefined,
};

/// A row with what it is applied to, and what comes of it.
struct Case {
    row: Row,
    /// The numbers of the registers that the case speaks of. All others are those of `START`, before and after.
    names: [usize; 3],
    before: [u64; 3],
    /// What the first access reads.
    value: u64,
    flags: u64,
    after: [u64; 3],
    /// What the first two accesses write.
    results: [u64; 2],
    flags_after: u64,
    rip: u64,
}

/// A row that faults: the vector and the error code.
struct Faulting {
    row: Row,
    names: [usize; 3],
    before: [u64; 3],
    value: u64,
    vector: u8,
    code: Option<u32>,
}

macro_rules! cases {
    ($($op:ident, $form:ident, $width:ident, $register:expr, $operand:expr, $immediate:expr, $condition:expr;
       $names:ident $before:expr, $value:expr, $flags:expr => $after:expr, $results:expr, $flags_after:expr, $rip:expr;)*) => {
        &[$(Case {
            row: Row {
                op: Op::$op,
                form: Form::$form,
                width: Width::$width,
                lock: false,
                register: $register,
                operand: $operand,
                immediate: $immediate,
                condition: $condition,
            },
            names: $names,
            before: $before,
            value: $value,
            flags: $flags,
            after: $after,
            results: $results,
            flags_after: $flags_after,
            rip: $rip,
        }),*]
    };
}

macro_rules! faulting {
    ($($op:ident, $form:ident, $width:ident, $register:expr, $operand:expr, $immediate:expr, $lock:expr;
       $names:ident $before:expr, $value:expr => $vector:expr, $code:expr;)*) => {
        &[$(Faulting {
            row: Row {
                op: Op::$op,
                form: Form::$form,
                width: Width::$width,
                lock: $lock,
                register: $register,
                operand: $operand,
                immediate: $immediate,
                condition: 0,
            },
            names: $names,
            before: $before,
            value: $value,
            vector: $vector,
            code: $code,
        }),*]
    };
}

const NONE: Operand = Operand::None;

const AX: Operand = Operand::Register {
    index: 0,
    high: false,
};

const CX: Operand = Operand::Register {
    index: 1,
    high: false,
};

const DX: Operand = Operand::Register {
    index: 2,
    high: false,
};

const SP: Operand = Operand::Register {
    index: 4,
    high: false,
};

const SI: Operand = Operand::Register {
    index: 6,
    high: false,
};

const R9: Operand = Operand::Register {
    index: 9,
    high: false,
};

const R10: Operand = Operand::Register {
    index: 10,
    high: false,
};

const AH: Operand = Operand::Register {
    index: 0,
    high: true,
};

const CH: Operand = Operand::Register {
    index: 1,
    high: true,
};

const DH: Operand = Operand::Register {
    index: 2,
    high: true,
};

const MEMORY: Operand = Operand::Memory {
    base: Some(3),
    index: None,
    scale: 1,
    displacement: 0,
    next: false,
    segment: 0,
};
// [rax + rcx * 8 - 16], [rcx + 7fffffffh], [r9 * 4 + 1234h], [rip + 1000h]
const SUM_OF_THREE: Operand = Operand::Memory {
    base: Some(0),
    index: Some(1),
    scale: 8,
    displacement: 0xffff_ffff_ffff_fff0,
    next: false,
    segment: 0,
};

const SUM_OF_TWO: Operand = Operand::Memory {
    base: Some(1),
    index: None,
    scale: 1,
    displacement: 0x7fff_ffff,
    next: false,
    segment: 0,
};

const SCALED: Operand = Operand::Memory {
    base: None,
    index: Some(9),
    scale: 4,
    displacement: 0x1234,
    next: false,
    segment: 0,
};

const RELATIVE: Operand = Operand::Memory {
    base: None,
    index: None,
    scale: 1,
    displacement: 0x1000,
    next: true,
    segment: 0,
};

const START: [u64; 16] = [
    0x0123_4567_89ab_cdef,
    0xfedc_ba98_7654_3210,
    0x00ff_00ff_8080_8080,
    0x3000_0000,
    0x3000_0800,
    0x3000_0900,
    0x6666_7777_8888_9999,
    0x7777_0000_1111_2222,
    0x8888_8888_0000_0008,
    0x9999_9999_0000_0009,
    0xaaaa,
    0xbbbb_0000_0000,
    0xc,
    0xdddd_dddd_dddd_dddd,
    0xe,
    0xffff_ffff_ffff_ffff,
];

/// The address of the next instruction.
const NEXT: u64 = 0x2000_0100;

// The registers of a case.
const AD_SI: [usize; 3] = [0, 2, 6];

const ACD: [usize; 3] = [0, 1, 2];

const AC_R10: [usize; 3] = [0, 1, 10];

const AD_R9: [usize; 3] = [0, 2, 9];

const A_SI_R10: [usize; 3] = [0, 6, 10];

const AC_R9: [usize; 3] = [0, 1, 9];

const AC_SI: [usize; 3] = [0, 1, 6];

const AC_SP: [usize; 3] = [0, 1, 4];

const AD_SP: [usize; 3] = [0, 2, 4];

const A_SP_BP: [usize; 3] = [0, 4, 5];

#[rattlefmt::skip]
const CASES: &[Case] = cases![
    // instruction, form, width, register, operand, immediate, condition; registers, value, flags
    //     => registers, results, flags, RIP
        Add, Arithmetic00, W8, 2, SI, 0, 0; AD_SI [0x123456789abcdef, 0xffff, 0], 0, 0xc5 => [0x123456789abcdef, 0xffff, 0xff], [0, 0], 0x84, NEXT; // add sil, dl
        Add, Arithmetic02, W8, 0, MEMORY, 0, 0; ACD [0xcb1e29c658cda14, 0xfedcba9876543210, 0xff00ff80808080], 0xb0, 0x894 => [0xcb1e29c658cdac4, 0xfedcba9876543210, 0xff00ff80808080], [0, 0], 0x80, NEXT; // add al, byte ptr [rbx]
        Add, Arithmetic05, W64, 0, AX, 0x5b267311, 0; ACD [0, 0xfedcba9876543210, 0xff00ff80808080], 0, 0x881 => [0x5b267311, 0xfedcba9876543210, 0xff00ff80808080], [0, 0], 4, NEXT; // add rax, 0x5b267311
        Add, Arithmetic83, W16, 0, R10, 0xffa9, 0; AC_R10 [0x123456789abcdef, 0xfedcba9876543210, 0x7ebff20686734721], 0, 0x91 => [0x123456789abcdef, 0xfedcba9876543210, 0x7ebff206867346ca], [0, 0], 5, NEXT; // add r10w, -87
        Or, Arithmetic01, W64, 1, MEMORY, 0, 0; ACD [0x123456789abcdef, 0xffff, 0xff00ff80808080], 0xd17f9acae01f5057, 5 => [0x123456789abcdef, 0xffff, 0xff00ff80808080], [0xd17f9acae01fffff, 0], 0x84, NEXT; // or qword ptr [rbx], rcx
        Or, Arithmetic03, W64, 2, MEMORY, 0, 0; ACD [0x123456789abcdef, 0xfedcba9876543210, 0xb774eb5248db40af], 0x80000000, 0x85 => [0x123456789abcdef, 0xfedcba9876543210, 0xb774eb52c8db40af], [0, 0], 0x84, NEXT; // or rdx, qword ptr [rbx]
        Or, Arithmetic80, W8, 0, CH, 0x72, 0; ACD [0x123456789abcdef, 0x8ca8181166d22876, 0xff00ff80808080], 0, 0x811 => [0x123456789abcdef, 0x8ca8181166d27a76, 0xff00ff80808080], [0, 0], 0x10, NEXT; // or ch, 0x72
        Adc, Arithmetic01, W64, 9, DX, 0, 0; AD_R9 [0x123456789abcdef, 0xdd27a65bd628881, 0x8000000000000000], 0, 0x8c4 => [0x123456789abcdef, 0x8dd27a65bd628881, 0x8000000000000000], [0, 0], 0x84, NEXT; // adc rdx, r9
        Adc, Arithmetic04, W8, 0, AX, 0x57, 0; ACD [0xf49c81a358ca0, 0xfedcba9876543210, 0xff00ff80808080], 0, 0x804 => [0xf49c81a358cf7, 0xfedcba9876543210, 0xff00ff80808080], [0, 0], 0x80, NEXT; // adc al, 0x57
        Adc, Arithmetic81, W16, 0, MEMORY, 0xe13d, 0; ACD [0x123456789abcdef, 0xfedcba9876543210, 0xff00ff80808080], 0xfada, 0x54 => [0x123456789abcdef, 0xfedcba9876543210, 0xff00ff80808080], [0xdc17, 0], 0x95, NEXT; // adc word ptr [rbx], -7875
        Sbb, Arithmetic00, W8, 10, SI, 0, 0; A_SI_R10 [0x123456789abcdef, 0x842e7fc229540a6e, 0xffff], 0, 0x890 => [0x123456789abcdef, 0x842e7fc229540a6f, 0xffff], [0, 0], 0x15, NEXT; // sbb sil, r10b
        Sbb, Arithmetic02, W8, 16, MEMORY, 0, 0; ACD [0xcfbf33609cfc8652, 0xfedcba9876543210, 0xff00ff80808080], 2, 0x15 => [0xcfbf33609cfc8352, 0xfedcba9876543210, 0xff00ff80808080], [0, 0], 0x80, NEXT; // sbb ah, byte ptr [rbx]
        Sbb, Arithmetic05, W64, 0, AX, 0x4d753314, 0; ACD [0xcefe2a1f727d8349, 0xfedcba9876543210, 0xff00ff80808080], 0, 0x845 => [0xcefe2a1f25085034, 0xfedcba9876543210, 0xff00ff80808080], [0, 0], 0x80, NEXT; // sbb rax, 0x4d753314
        Sbb, Arithmetic83, W64, 0, R10, 0xffffffffffffff80, 0; AC_R10 [0x123456789abcdef, 0xfedcba9876543210, 0x80000000], 0, 0x51 => [0x123456789abcdef, 0xfedcba9876543210, 0x8000007f], [0, 0], 0x11, NEXT; // sbb r10, -128
        And, Arithmetic01, W16, 1, MEMORY, 0, 0; ACD [0x123456789abcdef, 0xb8c9817af8be8831, 0xff00ff80808080], 0x7fff, 0x8c4 => [0x123456789abcdef, 0xb8c9817af8be8831, 0xff00ff80808080], [0x831, 0], 0, NEXT; // and word ptr [rbx], cx
        And, Arithmetic03, W32, 2, MEMORY, 0, 0; ACD [0x123456789abcdef, 0xfedcba9876543210, 0xffff], 0, 0x8c0 => [0x123456789abcdef, 0xfedcba9876543210, 0], [0, 0], 0x44, NEXT; // and edx, dword ptr [rbx]
        And, Arithmetic80, W8, 0, CH, 0xc3, 0; ACD [0x123456789abcdef, 0x537409029620bf0d, 0xff00ff80808080], 0, 0x850 => [0x123456789abcdef, 0x537409029620830d, 0xff00ff80808080], [0, 0], 0x90, NEXT; // and ch, 0xc3
        Sub, Arithmetic01, W16, 9, DX, 0, 0; AD_R9 [0x123456789abcdef, 0x3f9d52f90e8bec94, 0], 0, 0x8d4 => [0x123456789abcdef, 0x3f9d52f90e8bec94, 0], [0, 0], 0x80, NEXT; // sub dx, r9w
        Sub, Arithmetic04, W8, 0, AX, 0xce, 0; ACD [0x7f, 0xfedcba9876543210, 0xff00ff80808080], 0, 0x811 => [0xb1, 0xfedcba9876543210, 0xff00ff80808080], [0, 0], 0x885, NEXT; // sub al, 0xce
        Sub, Arithmetic81, W16, 0, MEMORY, 0xd4c7, 0; ACD [0x123456789abcdef, 0xfedcba9876543210, 0xff00ff80808080], 0x7ee, 0x850 => [0x123456789abcdef, 0xfedcba9876543210, 0xff00ff80808080], [0x3327, 0], 5, NEXT; // sub word ptr [rbx], -11065
        Xor, Arithmetic00, W8, 10, AX, 0, 0; AC_R10 [0xfd68373b29acf1a5, 0xfedcba9876543210, 0x2955d6f03945336b], 0, 0x54 => [0xfd68373b29acf1ce, 0xfedcba9876543210, 0x2955d6f03945336b], [0, 0], 0x90, NEXT; // xor al, r10b
        Xor, Arithmetic02, W8, 0, MEMORY, 0, 0; ACD [1, 0xfedcba9876543210, 0xff00ff80808080], 0xff, 0x895 => [0xfe, 0xfedcba9876543210, 0xff00ff80808080], [0, 0], 0x90, NEXT; // xor al, byte ptr [rbx]
        Xor, Arithmetic05, W64, 0, AX, 0x68d44d9b, 0; ACD [0x263cfa5e67ec326a, 0xfedcba9876543210, 0xff00ff80808080], 0, 0xc1 => [0x263cfa5e0f387ff1, 0xfedcba9876543210, 0xff00ff80808080], [0, 0], 0, NEXT; // xor rax, 0x68d44d9b
        Xor, Arithmetic83, W64, 0, R10, 0xffffffffffffffad, 0; AC_R10 [0x123456789abcdef, 0xfedcba9876543210, 0x9bb183e11570266b], 0, 0x8c5 => [0x123456789abcdef, 0xfedcba9876543210, 0x644e7c1eea8fd9c6], [0, 0], 4, NEXT; // xor r10, -83
        Cmp, Arithmetic01, W64, 1, MEMORY, 0, 0; ACD [0x123456789abcdef, 0x1c0502c6f0290531, 0xff00ff80808080], 0xce5af69430b91ed, 0xc5 => [0x123456789abcdef, 0x1c0502c6f0290531, 0xff00ff80808080], [0, 0], 0x81, NEXT; // cmp qword ptr [rbx], rcx
        Cmp, Arithmetic03, W16, 2, MEMORY, 0, 0; ACD [0x123456789abcdef, 0xfedcba9876543210, 0xffff], 0x3889, 0x90 => [0x123456789abcdef, 0xfedcba9876543210, 0xffff], [0, 0], 0x80, NEXT; // cmp dx, word ptr [rbx]
        Cmp, Arithmetic80, W8, 0, CH, 0x3a, 0; ACD [0x123456789abcdef, 0x32d90dcd57bb7d97, 0xff00ff80808080], 0, 0x804 => [0x123456789abcdef, 0x32d90dcd57bb7d97, 0xff00ff80808080], [0, 0], 0, NEXT; // cmp ch, 0x3a
        Test, Test84, W8, 0, CH, 0, 0; ACD [0x8000000000000000, 0xffff, 0xff00ff80808080], 0, 0x890 => [0x8000000000000000, 0xffff, 0xff00ff80808080], [0, 0], 0x54, NEXT; // test ch, al
        Test, Test85, W64, 2, MEMORY, 0, 0; ACD [0x123456789abcdef, 0xfedcba9876543210, 0x3e01aaa699498ac4], 0x759eb5590b94af3a, 0xd5 => [0x123456789abcdef, 0xfedcba9876543210, 0x3e01aaa699498ac4], [0, 0], 0x14, NEXT; // test qword ptr [rbx], rdx
        Test, TestA8, W8, 0, AX, 0x81, 0; ACD [0x8000, 0xfedcba9876543210, 0xff00ff80808080], 0, 4 => [0x8000, 0xfedcba9876543210, 0xff00ff80808080], [0, 0], 0x44, NEXT; // test al, 0x81
        Test, TestA9, W32, 0, AX, 0x80000001, 0; ACD [0xff, 0xfedcba9876543210, 0xff00ff80808080], 0, 0x885 => [0xff, 0xfedcba9876543210, 0xff00ff80808080], [0, 0], 0, NEXT; // test eax, 0x80000001
        Test, TestF6, W8, 0, MEMORY, 0x7f, 0; ACD [0x123456789abcdef, 0xfedcba9876543210, 0xff00ff80808080], 0x1b, 0x85 => [0x123456789abcdef, 0xfedcba9876543210, 0xff00ff80808080], [0, 0], 4, NEXT; // test byte ptr [rbx], 0x7f
        Test, TestF7, W16, 0, CX, 0xff00, 0; ACD [0x123456789abcdef, 0x37c60e984f3e885e, 0xff00ff80808080], 0, 0x94 => [0x123456789abcdef, 0x37c60e984f3e885e, 0xff00ff80808080], [0, 0], 0x94, NEXT; // test cx, 0xff00
        Not, NotF6, W8, 0, DH, 0, 0; ACD [0x123456789abcdef, 0xfedcba9876543210, 0x460d692ed65411], 0, 0x55 => [0x123456789abcdef, 0xfedcba9876543210, 0x460d692ed6ab11], [0, 0], 0x55, NEXT; // not dh
        Not, NotF7, W16, 0, CX, 0, 0; ACD [0x123456789abcdef, 0xffff, 0xff00ff80808080], 0, 0x855 => [0x123456789abcdef, 0, 0xff00ff80808080], [0, 0], 0x855, NEXT; // not cx
        Not, NotF7, W64, 0, AX, 0, 0; ACD [0x80, 0xfedcba9876543210, 0xff00ff80808080], 0, 0x810 => [0xffffffffffffff7f, 0xfedcba9876543210, 0xff00ff80808080], [0, 0], 0x810, NEXT; // not rax
        Neg, NegF6, W8, 0, MEMORY, 0, 0; ACD [0x123456789abcdef, 0xfedcba9876543210, 0xff00ff80808080], 0xff, 0x54 => [0x123456789abcdef, 0xfedcba9876543210, 0xff00ff80808080], [1, 0], 0x11, NEXT; // neg byte ptr [rbx]
        Neg, NegF7, W32, 0, DX, 0, 0; ACD [0x123456789abcdef, 0xfedcba9876543210, 0xffff], 0, 0x884 => [0x123456789abcdef, 0xfedcba9876543210, 0xffff0001], [0, 0], 0x91, NEXT; // neg edx
        Neg, NegF7, W32, 0, MEMORY, 0, 0; ACD [0x123456789abcdef, 0xfedcba9876543210, 0xff00ff80808080], 0xffffffff, 0x810 => [0x123456789abcdef, 0xfedcba9876543210, 0xff00ff80808080], [1, 0], 0x11, NEXT; // neg dword ptr [rbx]
        Inc, IncFE, W8, 0, DH, 0, 0; ACD [0x123456789abcdef, 0xfedcba9876543210, 0xb87e4e2b537d9128], 0, 0x8c1 => [0x123456789abcdef, 0xfedcba9876543210, 0xb87e4e2b537d9228], [0, 0], 0x81, NEXT; // inc dh
        Inc, IncFF, W16, 0, CX, 0, 0; ACD [0x123456789abcdef, 0x7fffffff, 0xff00ff80808080], 0, 0x840 => [0x123456789abcdef, 0x7fff0000, 0xff00ff80808080], [0, 0], 0x54, NEXT; // inc cx
        Inc, IncFF, W64, 0, AX, 0, 0; ACD [0xa098d6918352bc85, 0xfedcba9876543210, 0xff00ff80808080], 0, 0xd4 => [0xa098d6918352bc86, 0xfedcba9876543210, 0xff00ff80808080], [0, 0], 0x80, NEXT; // inc rax
        Dec, DecFE, W8, 0, MEMORY, 0, 0; ACD [0x123456789abcdef, 0xfedcba9876543210, 0xff00ff80808080], 0, 0x810 => [0x123456789abcdef, 0xfedcba9876543210, 0xff00ff80808080], [0xff, 0], 0x94, NEXT; // dec byte ptr [rbx]
        Dec, DecFF, W32, 0, DX, 0, 0; ACD [0x123456789abcdef, 0xfedcba9876543210, 0xa4946d15b17dd255], 0, 0x85 => [0x123456789abcdef, 0xfedcba9876543210, 0xb17dd254], [0, 0], 0x81, NEXT; // dec edx
        Dec, DecFF, W32, 0, MEMORY, 0, 0; ACD [0x123456789abcdef, 0xfedcba9876543210, 0xff00ff80808080], 0x7fffffff, 0x850 => [0x123456789abcdef, 0xfedcba9876543210, 0xff00ff80808080], [0x7ffffffe, 0], 0, NEXT; // dec dword ptr [rbx]
        Mul, MulF6, W8, 0, CX, 0, 0; ACD [0x8000000000000000, 0, 0xff00ff80808080], 0, 0x801 => [0x8000000000000000, 0, 0xff00ff80808080], [0, 0], 0, NEXT; // mul cl
        Mul, MulF7, W16, 0, CX, 0, 0; ACD [0x80, 0x7fffffffffffffff, 0xffffffffffffffff], 0, 0x804 => [0xff80, 0x7fffffffffffffff, 0xffffffffffff007f], [0, 0], 0x805, NEXT; // mul cx
        Mul, MulF7, W32, 0, MEMORY, 0, 0; ACD [0x8000, 0xfedcba9876543210, 0xc458272f498dbfa8], 0x80000000, 0x840 => [0, 0xfedcba9876543210, 0x4000], [0, 0], 0x841, NEXT; // mul dword ptr [rbx]
        Mul, MulF7, W64, 0, CX, 0, 0; ACD [0x7fffffff, 0x80, 0x4dee4812b16107f1], 0, 0x8d0 => [0x3fffffff80, 0x80, 0], [0, 0], 0xd0, NEXT; // mul rcx
        Imul, ImulF6, W8, 0, AH, 0, 0; ACD [0xe4c717fdfe48ef63, 0xfedcba9876543210, 0xff00ff80808080], 0, 0x8c1 => [0xe4c717fdfe48f96d, 0xfedcba9876543210, 0xff00ff80808080], [0, 0], 0x8c1, NEXT; // imul ah
        Imul, ImulF7, W16, 0, MEMORY, 0, 0; ACD [0xfe749e67730f37f1, 0xfedcba9876543210, 0x7f], 0x9c65, 0x11 => [0xfe749e67730fee15, 0xfedcba9876543210, 0xea3b], [0, 0], 0x811, NEXT; // imul word ptr [rbx]
        Imul, ImulF7, W32, 0, CX, 0, 0; ACD [0xbf5b411b24491df6, 0x5c0bb40ff3e6ca73, 0x8000000000000000], 0, 0x811 => [0x6b809182, 0x5c0bb40ff3e6ca73, 0xfe48ffdd], [0, 0], 0x811, NEXT; // imul ecx
        Imul, ImulF7, W64, 0, MEMORY, 0, 0; ACD [0x8000000000000000, 0xfedcba9876543210, 0xff], 0x65f456aad6cff718, 0xc1 => [0, 0xfedcba9876543210, 0xcd05d4aa94980474], [0, 0], 0x8c1, NEXT; // imul qword ptr [rbx]
        Imul, Imul69, W16, 2, MEMORY, 0xab39, 0; ACD [0x123456789abcdef, 0xfedcba9876543210, 0xff00ff80808080], 0x7fff, 0x14 => [0x123456789abcdef, 0xfedcba9876543210, 0xff00ff8080d4c7], [0, 0], 0x815, NEXT; // imul dx, word ptr [rbx], -21703
        Imul, Imul6B, W16, 2, CX, 0xffa7, 0; ACD [0x123456789abcdef, 0x7fff, 0xc5b4c59dab07929], 0, 0x55 => [0x123456789abcdef, 0x7fff, 0xc5b4c59dab08059], [0, 0], 0x855, NEXT; // imul dx, cx, -89
        Imul, Imul0FAF, W32, 2, CX, 0, 0; ACD [0x123456789abcdef, 0x8000000000000000, 0xef82d1a3a28cf7b1], 0, 0x41 => [0x123456789abcdef, 0x8000000000000000, 0], [0, 0], 0x40, NEXT; // imul edx, ecx
        Imul, Imul6B, W32, 2, CX, 0xffffffe1, 0; ACD [0x123456789abcdef, 0xf4c73f2bc8ff1c38, 0], 0, 0x8d5 => [0x123456789abcdef, 0xf4c73f2bc8ff1c38, 0xa91b9538], [0, 0], 0x8d5, NEXT; // imul edx, ecx, -31
        Imul, Imul0FAF, W64, 2, CX, 0, 0; ACD [0x123456789abcdef, 0xe9d625c966692158, 0x8c9a37518ddcf83c], 0, 0x41 => [0x123456789abcdef, 0xe9d625c966692158, 0xd5a554f7f89110a0], [0, 0], 0x841, NEXT; // imul rdx, rcx
        Imul, Imul69, W64, 2, MEMORY, 0xffffffffffffe6ea, 0; ACD [0x123456789abcdef, 0xfedcba9876543210, 0xff00ff80808080], 0xffffffffffffffff, 0x895 => [0x123456789abcdef, 0xfedcba9876543210, 0x1916], [0, 0], 0x94, NEXT; // imul rdx, qword ptr [rbx], -6422
        Imul, Imul6B, W64, 2, CX, 0x52, 0; ACD [0x123456789abcdef, 0x7fffffffffffffff, 0x8000000000000000], 0, 0x94 => [0x123456789abcdef, 0x7fffffffffffffff, 0xffffffffffffffae], [0, 0], 0x895, NEXT; // imul rdx, rcx, 82
        Imul, Imul6B, W32, 2, CX, 3, 0; ACD [0x123456789abcdef, 0x1000, 0xff00ff80808080], 0, 0xc4 => [0x123456789abcdef, 0x1000, 0x3000], [0, 0], 0xc4, NEXT; // imul edx, ecx, 3
        Div, DivF6, W8, 0, CX, 0, 0; ACD [0x1122334455661234, 0x35, 0xff00ff80808080], 0, 0xc0 => [0x1122334455663157, 0x35, 0xff00ff80808080], [0, 0], 0xc0, NEXT; // div cl
        Div, DivF6, W8, 0, MEMORY, 0, 0; ACD [0xfe, 0xfedcba9876543210, 0xff00ff80808080], 0xff, 0x895 => [0xfe00, 0xfedcba9876543210, 0xff00ff80808080], [0, 0], 0x895, NEXT; // div byte ptr [rbx]
        Div, DivF7, W16, 0, CX, 0, 0; ACD [0xaaaabbbbcccc4321, 0x1357, 0x5555666677770012], 0, 0x8d4 => [0xaaaabbbbcccc00f1, 0x1357, 0x5555666677770e3a], [0, 0], 0x8d4, NEXT; // div cx
        Div, DivF7, W32, 0, CX, 0, 0; ACD [0xffffffff87654321, 0x87654321, 0xffffffff12345678], 0, 0x8c5 => [0x226b9022, 0x87654321, 0x2564c8bf], [0, 0], 0x8c5, NEXT; // div ecx
        Div, DivF7, W64, 0, MEMORY, 0, 0; ACD [0x123456789abcdef, 0xfedcba9876543210, 0xff00ff80808080], 0xfedcba987654321, 1 => [0x100246e5b5c8112d, 0xfedcba9876543210, 0xc71c4853ca1d022], [0, 0], 1, NEXT; // div qword ptr [rbx]
        Idiv, IdivF6, W8, 0, CX, 0, 0; ACD [0x112233445566ff34, 0x35, 0xff00ff80808080], 0, 0x91 => [0x112233445566d3fd, 0x35, 0xff00ff80808080], [0, 0], 0x91, NEXT; // idiv cl
        Idiv, IdivF6, W8, 0, DX, 0, 0; ACD [0xc080, 0xfedcba9876543210, 0x80], 0, 0x84 => [0x7f, 0xfedcba9876543210, 0x80], [0, 0], 0x84, NEXT; // idiv dl
        Idiv, IdivF7, W16, 0, CX, 0, 0; ACD [0xaaaabbbbcccc4321, 0x1357, 0x555566667777fff2], 0, 0x81 => [0xaaaabbbbccccff4b, 0x1357, 0x555566667777efa4], [0, 0], 0x81, NEXT; // idiv cx
        Idiv, IdivF7, W32, 0, CX, 0, 0; ACD [0xffffffff87654321, 0x87654321, 0xfffffffff2345678], 0, 0x55 => [0x1d4873ec, 0x87654321, 0x9a9b8db5], [0, 0], 0x55, NEXT; // idiv ecx
        Idiv, IdivF7, W64, 0, MEMORY, 0, 0; ACD [0x123456789abcdef, 0xfedcba9876543210, 0xfffffffff0808080], 0xfedcba987654321, 0x80 => [0xffffffff06eca377, 0xfedcba9876543210, 0xfedcba98776f9698], [0, 0], 0x80, NEXT; // idiv qword ptr [rbx]
        Rol, ShiftC0, W8, 0, DH, 3, 0; ACD [0x123456789abcdef, 0xfedcba9876543210, 0xa71f11b2f9ee8bc8], 0, 1 => [0x123456789abcdef, 0xfedcba9876543210, 0xa71f11b2f9ee5cc8], [0, 0], 0, NEXT; // rol dh, 3
        Rol, ShiftC1, W16, 0, CX, 4, 0; ACD [0x123456789abcdef, 0xffff, 0xff00ff80808080], 0, 0x854 => [0x123456789abcdef, 0xffff, 0xff00ff80808080], [0, 0], 0x855, NEXT; // rol cx, 4
        Rol, ShiftD1, W64, 0, DX, 1, 0; ACD [0x123456789abcdef, 0xfedcba9876543210, 0xffff], 0, 0x14 => [0x123456789abcdef, 0xfedcba9876543210, 0x1fffe], [0, 0], 0x14, NEXT; // rol rdx, 1
        Rol, ShiftD3, W16, 0, DX, 0, 0; ACD [0x123456789abcdef, 0x1111111111111167, 0xdee0a843bfe98f8c], 0, 0x90 => [0x123456789abcdef, 0x1111111111111167, 0xdee0a843bfe9c647], [0, 0], 0x91, NEXT; // rol dx, cl
        Ror, ShiftC0, W8, 0, MEMORY, 4, 0; ACD [0x123456789abcdef, 0xfedcba9876543210, 0xff00ff80808080], 0xff, 0x855 => [0x123456789abcdef, 0xfedcba9876543210, 0xff00ff80808080], [0xff, 0], 0x855, NEXT; // ror byte ptr [rbx], 4
        Ror, ShiftC1, W64, 0, MEMORY, 0x2d, 0; ACD [0x123456789abcdef, 0xfedcba9876543210, 0xff00ff80808080], 0xf435a5736e8cd94e, 0xd4 => [0x123456789abcdef, 0xfedcba9876543210, 0xff00ff80808080], [0x2b9b7466ca77a1ad, 0], 0xd4, NEXT; // ror qword ptr [rbx], 45
        Ror, ShiftD1, W32, 0, MEMORY, 1, 0; ACD [0x123456789abcdef, 0xfedcba9876543210, 0xff00ff80808080], 0xcde347ab, 0x854 => [0x123456789abcdef, 0xfedcba9876543210, 0xff00ff80808080], [0xe6f1a3d5, 0], 0x55, NEXT; // ror dword ptr [rbx], 1
        Ror, ShiftD3, W32, 0, DX, 0, 0; ACD [0x123456789abcdef, 0x1111111111111172, 0xffff], 0, 0x884 => [0x123456789abcdef, 0x1111111111111172, 0x3fffc000], [0, 0], 0x884, NEXT; // ror edx, cl
        Shl, ShiftC1, W32, 0, CX, 0, 0; ACD [0x123456789abcdef, 2, 0xff00ff80808080], 0, 0x90 => [0x123456789abcdef, 2, 0xff00ff80808080], [0, 0], 0x90, NEXT; // shl ecx, 0
        Shl, ShiftD0, W8, 0, AX, 1, 0; ACD [0xc38b48a2b2d643a2, 0xfedcba9876543210, 0xff00ff80808080], 0, 0xc1 => [0xc38b48a2b2d64344, 0xfedcba9876543210, 0xff00ff80808080], [0, 0], 0x805, NEXT; // shl al, 1
        Shl, ShiftD2, W8, 0, AX, 0, 0; ACD [0x2ad9d2b004b7fd0, 0x72, 0xff00ff80808080], 0, 0x891 => [0x2ad9d2b004b7f00, 0x72, 0xff00ff80808080], [0, 0], 0x854, NEXT; // shl al, cl
        Shl, ShiftD3, W64, 0, DX, 0, 0; ACD [0x123456789abcdef, 0x111111111111117e, 0x7fff], 0, 0x844 => [0x123456789abcdef, 0x111111111111117e, 0xc000000000000000], [0, 0], 0x885, NEXT; // shl rdx, cl
        Shr, ShiftC0, W8, 0, DH, 3, 0; ACD [0x123456789abcdef, 0xfedcba9876543210, 0x4eb19fcaa64f7613], 0, 0xc0 => [0x123456789abcdef, 0xfedcba9876543210, 0x4eb19fcaa64f0e13], [0, 0], 1, NEXT; // shr dh, 3
        Shr, ShiftC1, W16, 0, CX, 0xc, 0; ACD [0x123456789abcdef, 0xff, 0xff00ff80808080], 0, 0x80 => [0x123456789abcdef, 0, 0xff00ff80808080], [0, 0], 0x44, NEXT; // shr cx, 12
        Shr, ShiftD1, W64, 0, DX, 1, 0; ACD [0x123456789abcdef, 0xfedcba9876543210, 0x7fffffffffffffff], 0, 0x84 => [0x123456789abcdef, 0xfedcba9876543210, 0x3fffffffffffffff], [0, 0], 5, NEXT; // shr rdx, 1
        Shr, ShiftD3, W16, 0, DX, 0, 0; ACD [0x123456789abcdef, 0x1111111111111163, 0x7f], 0, 0x15 => [0x123456789abcdef, 0x1111111111111163, 0xf], [0, 0], 0x15, NEXT; // shr dx, cl
        Sar, ShiftC0, W8, 0, MEMORY, 6, 0; ACD [0x123456789abcdef, 0xfedcba9876543210, 0xff00ff80808080], 0xff, 0xd4 => [0x123456789abcdef, 0xfedcba9876543210, 0xff00ff80808080], [0xff, 0], 0x95, NEXT; // sar byte ptr [rbx], 6
        Sar, ShiftC1, W64, 0, MEMORY, 0x2d, 0; ACD [0x123456789abcdef, 0xfedcba9876543210, 0xff00ff80808080], 0xffffffff, 0x801 => [0x123456789abcdef, 0xfedcba9876543210, 0xff00ff80808080], [0, 0], 0x844, NEXT; // sar qword ptr [rbx], 45
        Sar, ShiftD1, W32, 0, MEMORY, 1, 0; ACD [0x123456789abcdef, 0xfedcba9876543210, 0xff00ff80808080], 0x80000000, 0x8d1 => [0x123456789abcdef, 0xfedcba9876543210, 0xff00ff80808080], [0xc0000000, 0], 0x94, NEXT; // sar dword ptr [rbx], 1
        Sar, ShiftD3, W32, 0, DX, 0, 0; ACD [0x123456789abcdef, 0x1111111111111156, 1], 0, 0x50 => [0x123456789abcdef, 0x1111111111111156, 0], [0, 0], 0x54, NEXT; // sar edx, cl
        Mov, Mov88, W8, 0, DH, 0, 0; ACD [0x35185376c2410ad1, 0xfedcba9876543210, 0x7fffffffffffffff], 0, 0x805 => [0x35185376c2410ad1, 0xfedcba9876543210, 0x7fffffffffffd1ff], [0, 0], 0x805, NEXT; // mov dh, al
        Mov, Mov88, W8, 17, MEMORY, 0, 0; ACD [0x123456789abcdef, 0x7fffffffffffffff, 0xff00ff80808080], 0, 0x840 => [0x123456789abcdef, 0x7fffffffffffffff, 0xff00ff80808080], [0xff, 0], 0x840, NEXT; // mov byte ptr [rbx], ch
        Mov, Mov89, W32, 0, CX, 0, 0; ACD [0xff, 0x316a2a127243d47c, 0xff00ff80808080], 0, 4 => [0xff, 0xff, 0xff00ff80808080], [0, 0], 4, NEXT; // mov ecx, eax
        Mov, Mov89, W16, 2, MEMORY, 0, 0; ACD [0x123456789abcdef, 0xfedcba9876543210, 0xffffffffffffffff], 0, 0x90 => [0x123456789abcdef, 0xfedcba9876543210, 0xffffffffffffffff], [0xffff, 0], 0x90, NEXT; // mov word ptr [rbx], dx
        Mov, Mov8A, W8, 16, MEMORY, 0, 0; ACD [0x123456789abcdef, 0xfedcba9876543210, 0xff00ff80808080], 0, 0x844 => [0x123456789ab00ef, 0xfedcba9876543210, 0xff00ff80808080], [0, 0], 0x844, NEXT; // mov ah, byte ptr [rbx]
        Mov, Mov8B, W16, 9, MEMORY, 0, 0; AC_R9 [0x123456789abcdef, 0xfedcba9876543210, 0x9999999900000009], 0x7fff, 0x84 => [0x123456789abcdef, 0xfedcba9876543210, 0x9999999900007fff], [0, 0], 0x84, NEXT; // mov r9w, word ptr [rbx]
        Mov, Mov8B, W32, 9, MEMORY, 0, 0; AC_R9 [0x123456789abcdef, 0xfedcba9876543210, 0x9999999900000009], 0xffffffff, 0x890 => [0x123456789abcdef, 0xfedcba9876543210, 0xffffffff], [0, 0], 0x890, NEXT; // mov r9d, dword ptr [rbx]
        Mov, Mov8B, W64, 9, MEMORY, 0, 0; AC_R9 [0x123456789abcdef, 0xfedcba9876543210, 0x9999999900000009], 0x7f, 0x8d4 => [0x123456789abcdef, 0xfedcba9876543210, 0x7f], [0, 0], 0x8d4, NEXT; // mov r9, qword ptr [rbx]
        Mov, MovC6, W8, 0, MEMORY, 0x9c, 0; ACD [0x123456789abcdef, 0xfedcba9876543210, 0xff00ff80808080], 0, 1 => [0x123456789abcdef, 0xfedcba9876543210, 0xff00ff80808080], [0x9c, 0], 1, NEXT; // mov byte ptr [rbx], 0x9c
        Mov, MovC7, W64, 0, MEMORY, 0xfffffffffffffffd, 0; ACD [0x123456789abcdef, 0xfedcba9876543210, 0xff00ff80808080], 0, 0x840 => [0x123456789abcdef, 0xfedcba9876543210, 0xff00ff80808080], [0xfffffffffffffffd, 0], 0x840, NEXT; // mov qword ptr [rbx], -3
        Mov, MovC7, W32, 0, CX, 0x89abcdef, 0; ACD [0x123456789abcdef, 0xfedcba9876543210, 0xff00ff80808080], 0, 0x890 => [0x123456789abcdef, 0x89abcdef, 0xff00ff80808080], [0, 0], 0x890, NEXT; // mov ecx, 0x89abcdef
        Mov, MovB0, W8, 0, CH, 0x42, 0; ACD [0x123456789abcdef, 0xfedcba9876543210, 0xff00ff80808080], 0, 0x44 => [0x123456789abcdef, 0xfedcba9876544210, 0xff00ff80808080], [0, 0], 0x44, NEXT; // mov ch, 0x42
        Mov, MovB0, W8, 0, SI, 0x43, 0; AC_SI [0x123456789abcdef, 0xfedcba9876543210, 0x6666777788889999], 0, 0xc4 => [0x123456789abcdef, 0xfedcba9876543210, 0x6666777788889943], [0, 0], 0xc4, NEXT; // mov sil, 0x43
        Mov, MovB8, W32, 0, R9, 0x89abcdef, 0; AC_R9 [0x123456789abcdef, 0xfedcba9876543210, 0x9999999900000009], 0, 0x51 => [0x123456789abcdef, 0xfedcba9876543210, 0x89abcdef], [0, 0], 0x51, NEXT; // mov r9d, 0x89abcdef
        Mov, MovB8, W64, 0, DX, 0xfedcba9876543210, 0; ACD [0x123456789abcdef, 0xfedcba9876543210, 0xff00ff80808080], 0, 0x54 => [0x123456789abcdef, 0xfedcba9876543210, 0xfedcba9876543210], [0, 0], 0x54, NEXT; // movabs rdx, 0xfedcba9876543210
        Movzx, Movzx0FB6, W16, 2, CH, 0, 0; ACD [0x123456789abcdef, 0xb286c709df24d5e, 0xffffffff], 0, 0x800 => [0x123456789abcdef, 0xb286c709df24d5e, 0xffff004d], [0, 0], 0x800, NEXT; // movzx dx, ch
        Movzx, Movzx0FB6, W32, 2, CH, 0, 0; ACD [0x123456789abcdef, 0xffffffff, 0xce3fa028ea9d18b2], 0, 0x804 => [0x123456789abcdef, 0xffffffff, 0xff], [0, 0], 0x804, NEXT; // movzx edx, ch
        Movsx, Movsx0FBE, W32, 2, MEMORY, 0, 0; ACD [0x123456789abcdef, 0xfedcba9876543210, 0xff00ff80808080], 0xfd, 1 => [0x123456789abcdef, 0xfedcba9876543210, 0xfffffffd], [0, 0], 1, NEXT; // movsx edx, byte ptr [rbx]
        Movzx, Movzx0FB6, W64, 2, CX, 0, 0; ACD [0x123456789abcdef, 0x7f, 0xffffffff], 0, 0x844 => [0x123456789abcdef, 0x7f, 0x7f], [0, 0], 0x844, NEXT; // movzx rdx, cl
        Movsx, Movsx0FBE, W64, 2, MEMORY, 0, 0; ACD [0x123456789abcdef, 0xfedcba9876543210, 0xff00ff80808080], 0x82, 0x841 => [0x123456789abcdef, 0xfedcba9876543210, 0xffffffffffffff82], [0, 0], 0x841, NEXT; // movsx rdx, byte ptr [rbx]
        Movzx, Movzx0FB7, W32, 2, CX, 0, 0; ACD [0x123456789abcdef, 0x80, 0x7e544d56d096bfd6], 0, 0x15 => [0x123456789abcdef, 0x80, 0x80], [0, 0], 0x15, NEXT; // movzx edx, cx
        Movzx, Movzx0FB7, W64, 2, MEMORY, 0, 0; ACD [0x123456789abcdef, 0xfedcba9876543210, 0xff00ff80808080], 0x1b12, 0x8d5 => [0x123456789abcdef, 0xfedcba9876543210, 0x1b12], [0, 0], 0x8d5, NEXT; // movzx rdx, word ptr [rbx]
        Movsx, Movsx0FBF, W32, 1, AX, 0, 0; ACD [0x8001, 0xfedcba9876543210, 0xff00ff80808080], 0, 0x8c5 => [0x8001, 0xffff8001, 0xff00ff80808080], [0, 0], 0x8c5, NEXT; // movsx ecx, ax
        Movsx, Movsx0FBF, W64, 1, MEMORY, 0, 0; ACD [0x123456789abcdef, 0xfedcba9876543210, 0xff00ff80808080], 0x9234, 0x8d0 => [0x123456789abcdef, 0xffffffffffff9234, 0xff00ff80808080], [0, 0], 0x8d0, NEXT; // movsx rcx, word ptr [rbx]
        Movsxd, Movsxd63, W64, 1, AX, 0, 0; ACD [0x1234567887654321, 0xfedcba9876543210, 0xff00ff80808080], 0, 0xd0 => [0x1234567887654321, 0xffffffff87654321, 0xff00ff80808080], [0, 0], 0xd0, NEXT; // movsxd rcx, eax
        Movsxd, Movsxd63, W64, 1, MEMORY, 0, 0; ACD [0x123456789abcdef, 0xfedcba9876543210, 0xff00ff80808080], 0x7654321, 0x800 => [0x123456789abcdef, 0x7654321, 0xff00ff80808080], [0, 0], 0x800, NEXT; // movsxd rcx, dword ptr [rbx]
        Lea, Lea8D, W64, 2, SUM_OF_THREE, 0, 0; ACD [0x123456789abcdef, 0xfedcba9876543210, 0xff00ff80808080], 0, 0x810 => [0x123456789abcdef, 0xfedcba9876543210, 0xf8091a2b3c4d5e5f], [0, 0], 0x810, NEXT; // lea rdx, [rax+rcx*8-0x10]
        Lea, Lea8D, W32, 2, SUM_OF_TWO, 0, 0; ACD [0x123456789abcdef, 0xfedcba9876543210, 0xff00ff80808080], 0, 0x855 => [0x123456789abcdef, 0xfedcba9876543210, 0xf654320f], [0, 0], 0x855, NEXT; // lea edx, [rcx+0x7fffffff]
        Lea, Lea8D, W16, 2, SCALED, 0, 0; ACD [0x123456789abcdef, 0xfedcba9876543210, 0xff00ff80808080], 0, 0x41 => [0x123456789abcdef, 0xfedcba9876543210, 0xff00ff80801258], [0, 0], 0x41, NEXT; // lea dx, [r9*4+0x1234]
        Lea, Lea8D, W64, 0, RELATIVE, 0, 0; ACD [0x123456789abcdef, 0xfedcba9876543210, 0xff00ff80808080], 0, 0x895 => [0x20001100, 0xfedcba9876543210, 0xff00ff80808080], [0, 0], 0x895, NEXT; // lea rax, [rip+0x1000]
        Cbw, Cbw98, W16, 0, NONE, 0, 0; ACD [0x8000000000000000, 0xfedcba9876543210, 0xff00ff80808080], 0, 0x14 => [0x8000000000000000, 0xfedcba9876543210, 0xff00ff80808080], [0, 0], 0x14, NEXT; // cbw
        Cbw, Cbw98, W32, 0, NONE, 0, 0; ACD [0xffffffff8000, 0xfedcba9876543210, 0xff00ff80808080], 0, 0x55 => [0xffff8000, 0xfedcba9876543210, 0xff00ff80808080], [0, 0], 0x55, NEXT; // cwde
        Cbw, Cbw98, W64, 0, NONE, 0, 0; ACD [0x80000000, 0xfedcba9876543210, 0xff00ff80808080], 0, 0xc0 => [0xffffffff80000000, 0xfedcba9876543210, 0xff00ff80808080], [0, 0], 0xc0, NEXT; // cdqe
        Cwd, Cwd99, W16, 0, NONE, 0, 0; ACD [0x8000, 0xfedcba9876543210, 0xff00ff80808080], 0, 0x880 => [0x8000, 0xfedcba9876543210, 0xff00ff8080ffff], [0, 0], 0x880, NEXT; // cwd
        Cwd, Cwd99, W32, 0, NONE, 0, 0; ACD [0x80000000, 0xfedcba9876543210, 0xff00ff80808080], 0, 0x884 => [0x80000000, 0xfedcba9876543210, 0xffffffff], [0, 0], 0x884, NEXT; // cdq
        Cwd, Cwd99, W64, 0, NONE, 0, 0; ACD [0x7fffffffffffffff, 0xfedcba9876543210, 0xff00ff80808080], 0, 0x880 => [0x7fffffffffffffff, 0xfedcba9876543210, 0], [0, 0], 0x880, NEXT; // cqo
        Cmovcc, Cmovcc0F40, W32, 2, CX, 0, 4; ACD [0x123456789abcdef, 0xfedcba9876543210, 0xff00ff80808080], 0, 0 => [0x123456789abcdef, 0xfedcba9876543210, 0x80808080], [0, 0], 0, NEXT; // cmovz edx, ecx
        Cmovcc, Cmovcc0F40, W32, 2, CX, 0, 4; ACD [0x123456789abcdef, 0xfedcba9876543210, 0xff00ff80808080], 0, 0x40 => [0x123456789abcdef, 0xfedcba9876543210, 0x76543210], [0, 0], 0x40, NEXT; // cmovz edx, ecx
        Cmovcc, Cmovcc0F40, W64, 2, MEMORY, 0, 15; ACD [0x123456789abcdef, 0xfedcba9876543210, 0xff00ff80808080], 0x7f, 0x880 => [0x123456789abcdef, 0xfedcba9876543210, 0x7f], [0, 0], 0x880, NEXT; // cmovg rdx, qword ptr [rbx]
        Cmovcc, Cmovcc0F40, W16, 2, MEMORY, 0, 8; ACD [0x123456789abcdef, 0xfedcba9876543210, 0xff00ff80808080], 2, 1 => [0x123456789abcdef, 0xfedcba9876543210, 0xff00ff80808080], [0, 0], 1, NEXT; // cmovs dx, word ptr [rbx]
        Setcc, Setcc0F90, W8, 0, DH, 0, 12; ACD [0x123456789abcdef, 0xfedcba9876543210, 0xff00ff80808080], 0, 0x800 => [0x123456789abcdef, 0xfedcba9876543210, 0xff00ff80800180], [0, 0], 0x800, NEXT; // setl dh
        Setcc, Setcc0F90, W8, 0, MEMORY, 0, 3; ACD [0x123456789abcdef, 0xfedcba9876543210, 0xff00ff80808080], 1, 1 => [0x123456789abcdef, 0xfedcba9876543210, 0xff00ff80808080], [0, 0], 1, NEXT; // setnb byte ptr [rbx]
        Xchg, Xchg86, W8, 16, MEMORY, 0, 0; ACD [0x8d76d7a17b50079e, 0xfedcba9876543210, 0xff00ff80808080], 0xd3, 0xd1 => [0x8d76d7a17b50d39e, 0xfedcba9876543210, 0xff00ff80808080], [7, 0], 0xd1, NEXT; // xchg byte ptr [rbx], ah
        Xchg, Xchg86, W8, 16, AX, 0, 0; ACD [0x123456789abcdef, 0xfedcba9876543210, 0xff00ff80808080], 0, 0x800 => [0x123456789abefcd, 0xfedcba9876543210, 0xff00ff80808080], [0, 0], 0x800, NEXT; // xchg al, ah
        Xchg, Xchg87, W32, 2, CX, 0, 0; ACD [0x123456789abcdef, 0xfedcba9876543210, 0xff00ff80808080], 0, 0x84 => [0x123456789abcdef, 0x80808080, 0x76543210], [0, 0], 0x84, NEXT; // xchg ecx, edx
        Xchg, Xchg87, W32, 1, CX, 0, 0; ACD [0x123456789abcdef, 0xfedcba9876543210, 0xff00ff80808080], 0, 0x8c4 => [0x123456789abcdef, 0x76543210, 0xff00ff80808080], [0, 0], 0x8c4, NEXT; // xchg ecx, ecx
        Xchg, Xchg87, W64, 2, MEMORY, 0, 0; ACD [0x123456789abcdef, 0xfedcba9876543210, 0xff00ff80808080], 0x7fffffff, 0x50 => [0x123456789abcdef, 0xfedcba9876543210, 0x7fffffff], [0xff00ff80808080, 0], 0x50, NEXT; // xchg qword ptr [rbx], rdx
        Xchg, Xchg90, W64, 0, R9, 0, 0; AC_R9 [0x123456789abcdef, 0xfedcba9876543210, 0x9999999900000009], 0, 0x55 => [0x9999999900000009, 0xfedcba9876543210, 0x123456789abcdef], [0, 0], 0x55, NEXT; // xchg r9, rax
        Xchg, Xchg90, W32, 0, CX, 0, 0; ACD [0x123456789abcdef, 0xfedcba9876543210, 0xff00ff80808080], 0, 0x80 => [0x76543210, 0x89abcdef, 0xff00ff80808080], [0, 0], 0x80, NEXT; // xchg ecx, eax
        Xadd, Xadd0FC0, W8, 0, CH, 0, 0; ACD [0x123456789abcdef, 0xfedcba9876543210, 0xff00ff80808080], 0, 0x94 => [0x123456789abcd32, 0xfedcba9876542110, 0xff00ff80808080], [0, 0], 0x15, NEXT; // xadd ch, al
        Xadd, Xadd0FC0, W8, 0, AX, 0, 0; ACD [0x123456789abcdef, 0xfedcba9876543210, 0xff00ff80808080], 0, 0xd1 => [0x123456789abcdde, 0xfedcba9876543210, 0xff00ff80808080], [0, 0], 0x95, NEXT; // xadd al, al
        Xadd, Xadd0FC1, W32, 1, MEMORY, 0, 0; ACD [0x123456789abcdef, 0xfedcba9876543210, 0xff00ff80808080], 0xf8dca309, 0xc5 => [0x123456789abcdef, 0xf8dca309, 0xff00ff80808080], [0x6f30d519, 0], 1, NEXT; // xadd dword ptr [rbx], ecx
        Xadd, Xadd0FC1, W64, 2, DX, 0, 0; ACD [0x123456789abcdef, 0xfedcba9876543210, 0xc000000000000003], 0, 0x95 => [0x123456789abcdef, 0xfedcba9876543210, 0x8000000000000006], [0, 0], 0x85, NEXT; // xadd rdx, rdx
        Xadd, Xadd0FC1, W32, 1, DX, 0, 0; ACD [0x123456789abcdef, 0xfedcba9876543210, 0xff00ff80808080], 0, 0 => [0x123456789abcdef, 0x80808080, 0xf6d4b290], [0, 0], 0x84, NEXT; // xadd edx, ecx
        Cmpxchg, Cmpxchg0FB0, W8, 2, CX, 0, 0; ACD [0x123456789abcdef, 0xfedcba9876543210, 0xff00ff80808080], 0, 0x81 => [0x123456789abcd10, 0xfedcba9876543210, 0xff00ff80808080], [0, 0], 0x80, NEXT; // cmpxchg cl, dl
        Cmpxchg, Cmpxchg0FB0, W8, 2, MEMORY, 0, 0; ACD [0x123456789abcdef, 0xfedcba9876543210, 0xff00ff80808080], 0xf1, 0x8d5 => [0x123456789abcdf1, 0xfedcba9876543210, 0xff00ff80808080], [0xf1, 0], 0x81, NEXT; // cmpxchg byte ptr [rbx], dl
        Cmpxchg, Cmpxchg0FB1, W16, 2, CX, 0, 0; ACD [0x5566778899aabbcc, 0x990000000000bbcc, 0xff00ff80808080], 0, 0x851 => [0x5566778899aabbcc, 0x9900000000008080, 0xff00ff80808080], [0, 0], 0x44, NEXT; // cmpxchg cx, dx
        Cmpxchg, Cmpxchg0FB1, W16, 2, MEMORY, 0, 0; ACD [0x80, 0xfedcba9876543210, 0xff00ff80808080], 0x80, 0x8c5 => [0x80, 0xfedcba9876543210, 0xff00ff80808080], [0x8080, 0], 0x44, NEXT; // cmpxchg word ptr [rbx], dx
        Cmpxchg, Cmpxchg0FB1, W32, 2, CX, 0, 0; ACD [0x123456789abcdef, 0xfedcba9876543210, 0xff00ff80808080], 0, 0 => [0x76543210, 0xfedcba9876543210, 0xff00ff80808080], [0, 0], 0x800, NEXT; // cmpxchg ecx, edx
        Cmpxchg, Cmpxchg0FB1, W32, 2, MEMORY, 0, 0; ACD [0x123456789abcdef, 0xfedcba9876543210, 0xff00ff80808080], 2, 0xc4 => [2, 0xfedcba9876543210, 0xff00ff80808080], [2, 0], 0x84, NEXT; // cmpxchg dword ptr [rbx], edx
        Cmpxchg, Cmpxchg0FB1, W64, 2, CX, 0, 0; ACD [5, 5, 0xff00ff80808080], 0, 0x840 => [5, 0xff00ff80808080, 0xff00ff80808080], [0, 0], 0x44, NEXT; // cmpxchg rcx, rdx
        Cmpxchg, Cmpxchg0FB1, W64, 2, MEMORY, 0, 0; ACD [0x7f, 0xfedcba9876543210, 0xff00ff80808080], 0x7f, 0x814 => [0x7f, 0xfedcba9876543210, 0xff00ff80808080], [0xff00ff80808080, 0], 0x44, NEXT; // cmpxchg qword ptr [rbx], rdx
        Bt, Bt0FA3, W16, 1, DX, 0, 0; ACD [0x123456789abcdef, 0x3b3bc81386bc2b99, 0xcef61d03a64ed996], 0, 0x91 => [0x123456789abcdef, 0x3b3bc81386bc2b99, 0xcef61d03a64ed996], [0, 0], 0x90, NEXT; // bt dx, cx
        Bt, Bt0FBA, W32, 0, MEMORY, 0xe5, 0; ACD [0x123456789abcdef, 0xfedcba9876543210, 0xff00ff80808080], 0xea14843a, 0x85 => [0x123456789abcdef, 0xfedcba9876543210, 0xff00ff80808080], [0, 0], 0x85, NEXT; // bt dword ptr [rbx], 229
        Bt, Bt0FBA, W32, 0, DX, 0x23, 0; ACD [0x123456789abcdef, 0xfedcba9876543210, 0xffffffff954c2fc1], 0, 0x11 => [0x123456789abcdef, 0xfedcba9876543210, 0xffffffff954c2fc1], [0, 0], 0x10, NEXT; // bt edx, 35
        Bts, Bts0FAB, W32, 1, DX, 0, 0; ACD [0x123456789abcdef, 0xc71c588cc6664843, 0xf2198825aa2d6c38], 0, 0x11 => [0x123456789abcdef, 0xc71c588cc6664843, 0xaa2d6c38], [0, 0], 0x11, NEXT; // bts edx, ecx
        Bts, Bts0FBA, W64, 0, MEMORY, 0xae, 0; ACD [0x123456789abcdef, 0xfedcba9876543210, 0xff00ff80808080], 0xb4e7f7c2430ca6d, 0x41 => [0x123456789abcdef, 0xfedcba9876543210, 0xff00ff80808080], [0xb4e7f7c2430ca6d, 0], 0x41, NEXT; // bts qword ptr [rbx], 174
        Bts, Bts0FBA, W32, 0, DX, 0x23, 0; ACD [0x123456789abcdef, 0xfedcba9876543210, 0xfffffffffff7ba0d], 0, 0x14 => [0x123456789abcdef, 0xfedcba9876543210, 0xfff7ba0d], [0, 0], 0x15, NEXT; // bts edx, 35
        Btr, Btr0FBA, W16, 0, MEMORY, 0x68, 0; ACD [0x123456789abcdef, 0xfedcba9876543210, 0xff00ff80808080], 0xb64, 0x811 => [0x123456789abcdef, 0xfedcba9876543210, 0xff00ff80808080], [0xa64, 0], 0x811, NEXT; // btr word ptr [rbx], 104
        Btr, Btr0FB3, W64, 1, DX, 0, 0; ACD [0x123456789abcdef, 0x7ee14b90cb978be3, 0x7bc71df38c4caa83], 0, 1 => [0x123456789abcdef, 0x7ee14b90cb978be3, 0x7bc71df38c4caa83], [0, 0], 0, NEXT; // btr rdx, rcx
        Btr, Btr0FBA, W32, 0, DX, 0x23, 0; ACD [0x123456789abcdef, 0xfedcba9876543210, 0xffffffffa9fda2ef], 0, 0x8c5 => [0x123456789abcdef, 0xfedcba9876543210, 0xa9fda2e7], [0, 0], 0x8c5, NEXT; // btr edx, 35
        Btc, Btc0FBB, W16, 1, DX, 0, 0; ACD [0x123456789abcdef, 0xa3a16d922790bb01, 0x1755c6de88b409c8], 0, 0x850 => [0x123456789abcdef, 0xa3a16d922790bb01, 0x1755c6de88b409ca], [0, 0], 0x850, NEXT; // btc dx, cx
        Btc, Btc0FBA, W64, 0, MEMORY, 0xd5, 0; ACD [0x123456789abcdef, 0xfedcba9876543210, 0xff00ff80808080], 0xdd3f400604a99e63, 0x844 => [0x123456789abcdef, 0xfedcba9876543210, 0xff00ff80808080], [0xdd3f400604899e63, 0], 0x845, NEXT; // btc qword ptr [rbx], 213
        Btc, Btc0FBA, W32, 0, DX, 0x23, 0; ACD [0x123456789abcdef, 0xfedcba9876543210, 0xffffffffff2282e6], 0, 0x8d5 => [0x123456789abcdef, 0xfedcba9876543210, 0xff2282ee], [0, 0], 0x8d4, NEXT; // btc edx, 35
        Push, Push50, W64, 0, CX, 0, 0; AC_SP [0x123456789abcdef, 0xfedcba9876543210, 0x30000800], 0, 0xd0 => [0x123456789abcdef, 0xfedcba9876543210, 0x300007f8], [0xfedcba9876543210, 0], 0xd0, NEXT; // push rcx
        Push, Push50, W64, 0, SP, 0, 0; AC_SP [0x123456789abcdef, 0xfedcba9876543210, 0x30000800], 0, 0x845 => [0x123456789abcdef, 0xfedcba9876543210, 0x300007f8], [0x30000800, 0], 0x845, NEXT; // push rsp
        Push, PushFF, W64, 0, MEMORY, 0, 0; AC_SP [0x123456789abcdef, 0xfedcba9876543210, 0x30000800], 0xffffffff, 0x50 => [0x123456789abcdef, 0xfedcba9876543210, 0x300007f8], [0, 0xffffffff], 0x50, NEXT; // push qword ptr [rbx]
        Push, Push68, W64, 0, NONE, 0x12345678, 0; AC_SP [0x123456789abcdef, 0xfedcba9876543210, 0x30000800], 0, 0x40 => [0x123456789abcdef, 0xfedcba9876543210, 0x300007f8], [0x12345678, 0], 0x40, NEXT; // push 0x12345678
        Push, Push6A, W64, 0, NONE, 0xfffffffffffffffe, 0; AC_SP [0x123456789abcdef, 0xfedcba9876543210, 0x30000800], 0, 0x810 => [0x123456789abcdef, 0xfedcba9876543210, 0x300007f8], [0xfffffffffffffffe, 0], 0x810, NEXT; // push -2
        Pop, Pop58, W64, 0, DX, 0, 0; AD_SP [0x123456789abcdef, 0xff00ff80808080, 0x30000800], 0xffffffffffffffff, 0x81 => [0x123456789abcdef, 0xffffffffffffffff, 0x30000808], [0, 0], 0x81, NEXT; // pop rdx
        Pop, Pop58, W64, 0, SP, 0, 0; AC_SP [0x123456789abcdef, 0xfedcba9876543210, 0x30000800], 0x8000000000000000, 0x50 => [0x123456789abcdef, 0xfedcba9876543210, 0x8000000000000000], [0, 0], 0x50, NEXT; // pop rsp
        Pop, Pop8F, W64, 0, MEMORY, 0, 0; AC_SP [0x123456789abcdef, 0xfedcba9876543210, 0x30000800], 0xffffffffffffffff, 0xd5 => [0x123456789abcdef, 0xfedcba9876543210, 0x30000808], [0, 0xffffffffffffffff], 0xd5, NEXT; // pop qword ptr [rbx+0x10]
        Pop, Pop8F, W64, 0, CX, 0, 0; AC_SP [0x123456789abcdef, 0xfedcba9876543210, 0x30000800], 2, 0x14 => [0x123456789abcdef, 2, 0x30000808], [0, 0], 0x14, NEXT; // pop rcx
        Leave, LeaveC9, W64, 0, NONE, 0, 0; A_SP_BP [0x123456789abcdef, 0x30000800, 0x30000900], 0xffff, 0x45 => [0x123456789abcdef, 0x30000908, 0xffff], [0, 0], 0x45, NEXT; // leave
        Call, CallE8, W64, 0, NONE, 0xf00, 0; AC_SP [0x123456789abcdef, 0xfedcba9876543210, 0x30000800], 0, 0x840 => [0x123456789abcdef, 0xfedcba9876543210, 0x300007f8], [0x20000100, 0], 0x840, 0x20001000; // call forward
        Call, CallFF, W64, 0, CX, 0, 0; AC_SP [0x123456789abcdef, 0x20001000, 0x30000800], 0, 0x8c5 => [0x123456789abcdef, 0x20001000, 0x300007f8], [0x20000100, 0], 0x8c5, 0x20001000; // call rcx
        Call, CallFF, W64, 0, MEMORY, 0, 0; AC_SP [0x123456789abcdef, 0xfedcba9876543210, 0x30000800], 0x20000140, 0x884 => [0x123456789abcdef, 0xfedcba9876543210, 0x300007f8], [0, 0x20000100], 0x884, 0x20000140; // call qword ptr [rbx]
        Ret, RetC3, W64, 0, NONE, 0, 0; AC_SP [0x123456789abcdef, 0xfedcba9876543210, 0x30000800], 0x20000140, 0x50 => [0x123456789abcdef, 0xfedcba9876543210, 0x30000808], [0, 0], 0x50, 0x20000140; // ret
        Ret, RetC2, W64, 0, NONE, 0xfff8, 0; AC_SP [0x123456789abcdef, 0xfedcba9876543210, 0x30000800], 0x20001000, 0x44 => [0x123456789abcdef, 0xfedcba9876543210, 0x30010800], [0, 0], 0x44, 0x20001000; // ret 0xfff8
        Jmp, JmpE9, W64, 0, NONE, 0xf00, 0; ACD [0x123456789abcdef, 0xfedcba9876543210, 0xff00ff80808080], 0, 0x800 => [0x123456789abcdef, 0xfedcba9876543210, 0xff00ff80808080], [0, 0], 0x800, 0x20001000; // jmp forward
        Jmp, JmpE9, W64, 0, NONE, 0xffffffffffffff40, 0; ACD [0x123456789abcdef, 0xfedcba9876543210, 0xff00ff80808080], 0, 0x8d4 => [0x123456789abcdef, 0xfedcba9876543210, 0xff00ff80808080], [0, 0], 0x8d4, 0x20000040; // jmp backward
        Jmp, JmpEB, W64, 0, NONE, 0x40, 0; ACD [0x123456789abcdef, 0xfedcba9876543210, 0xff00ff80808080], 0, 0x8d5 => [0x123456789abcdef, 0xfedcba9876543210, 0xff00ff80808080], [0, 0], 0x8d5, 0x20000140; // jmp short forward
        Jmp, JmpFF, W64, 0, DX, 0, 0; ACD [0x123456789abcdef, 0xfedcba9876543210, 0x20001000], 0, 0xc4 => [0x123456789abcdef, 0xfedcba9876543210, 0x20001000], [0, 0], 0xc4, 0x20001000; // jmp rdx
        Jmp, JmpFF, W64, 0, MEMORY, 0, 0; ACD [0x123456789abcdef, 0xfedcba9876543210, 0xff00ff80808080], 0x20001000, 0x8c1 => [0x123456789abcdef, 0xfedcba9876543210, 0xff00ff80808080], [0, 0], 0x8c1, 0x20001000; // jmp qword ptr [rbx]
        Jcc, Jcc70, W64, 0, NONE, 0x40, 12; ACD [0x123456789abcdef, 0xfedcba9876543210, 0xff00ff80808080], 0, 0x80 => [0x123456789abcdef, 0xfedcba9876543210, 0xff00ff80808080], [0, 0], 0x80, 0x20000140; // jl short
        Jcc, Jcc70, W64, 0, NONE, 0x40, 12; ACD [0x123456789abcdef, 0xfedcba9876543210, 0xff00ff80808080], 0, 0x880 => [0x123456789abcdef, 0xfedcba9876543210, 0xff00ff80808080], [0, 0], 0x880, NEXT; // jl short
        Jcc, Jcc0F80, W64, 0, NONE, 0xf00, 5; ACD [0x123456789abcdef, 0xfedcba9876543210, 0xff00ff80808080], 0, 0 => [0x123456789abcdef, 0xfedcba9876543210, 0xff00ff80808080], [0, 0], 0, 0x20001000; // jnz near
        Clc, ClcF8, W8, 0, NONE, 0, 0; ACD [0x123456789abcdef, 0xfedcba9876543210, 0xff00ff80808080], 0, 0x91 => [0x123456789abcdef, 0xfedcba9876543210, 0xff00ff80808080], [0, 0], 0x90, NEXT; // clc
        Clc, ClcF8, W8, 0, NONE, 0, 0; ACD [0x123456789abcdef, 0xfedcba9876543210, 0xff00ff80808080], 0, 0x404 => [0x123456789abcdef, 0xfedcba9876543210, 0xff00ff80808080], [0, 0], 0x404, NEXT; // clc
        Stc, StcF9, W8, 0, NONE, 0, 0; ACD [0x123456789abcdef, 0xfedcba9876543210, 0xff00ff80808080], 0, 0x80 => [0x123456789abcdef, 0xfedcba9876543210, 0xff00ff80808080], [0, 0], 0x81, NEXT; // stc
        Stc, StcF9, W8, 0, NONE, 0, 0; ACD [0x123456789abcdef, 0xfedcba9876543210, 0xff00ff80808080], 0, 0x404 => [0x123456789abcdef, 0xfedcba9876543210, 0xff00ff80808080], [0, 0], 0x405, NEXT; // stc
        Cmc, CmcF5, W8, 0, NONE, 0, 0; ACD [0x123456789abcdef, 0xfedcba9876543210, 0xff00ff80808080], 0, 0x94 => [0x123456789abcdef, 0xfedcba9876543210, 0xff00ff80808080], [0, 0], 0x95, NEXT; // cmc
        Cmc, CmcF5, W8, 0, NONE, 0, 0; ACD [0x123456789abcdef, 0xfedcba9876543210, 0xff00ff80808080], 0, 0x401 => [0x123456789abcdef, 0xfedcba9876543210, 0xff00ff80808080], [0, 0], 0x400, NEXT; // cmc
        Cld, CldFC, W8, 0, NONE, 0, 0; ACD [0x123456789abcdef, 0xfedcba9876543210, 0xff00ff80808080], 0, 0x854 => [0x123456789abcdef, 0xfedcba9876543210, 0xff00ff80808080], [0, 0], 0x854, NEXT; // cld
        Cld, CldFC, W8, 0, NONE, 0, 0; ACD [0x123456789abcdef, 0xfedcba9876543210, 0xff00ff80808080], 0, 0x401 => [0x123456789abcdef, 0xfedcba9876543210, 0xff00ff80808080], [0, 0], 1, NEXT; // cld
        Std, StdFD, W8, 0, NONE, 0, 0; ACD [0x123456789abcdef, 0xfedcba9876543210, 0xff00ff80808080], 0, 0x95 => [0x123456789abcdef, 0xfedcba9876543210, 0xff00ff80808080], [0, 0], 0x495, NEXT; // std
        Std, StdFD, W8, 0, NONE, 0, 0; ACD [0x123456789abcdef, 0xfedcba9876543210, 0xff00ff80808080], 0, 0x404 => [0x123456789abcdef, 0xfedcba9876543210, 0xff00ff80808080], [0, 0], 0x404, NEXT; // std
        Nop, Nop90, W32, 0, NONE, 0, 0; ACD [0x123456789abcdef, 0xfedcba9876543210, 0xff00ff80808080], 0, 0x8c4 => [0x123456789abcdef, 0xfedcba9876543210, 0xff00ff80808080], [0, 0], 0x8c4, NEXT; // nop
        Nop, Nop0F1F, W32, 0, MEMORY, 0, 0; ACD [0x123456789abcdef, 0xfedcba9876543210, 0xff00ff80808080], 0, 0x10 => [0x123456789abcdef, 0xfedcba9876543210, 0xff00ff80808080], [0, 0], 0x10, NEXT; // nop dword ptr [rbx]
        Lfence, Lfence0FAEE8, W8, 0, NONE, 0, 0; ACD [0x123456789abcdef, 0xfedcba9876543210, 0xff00ff80808080], 0, 0x95 => [0x123456789abcdef, 0xfedcba9876543210, 0xff00ff80808080], [0, 0], 0x95, NEXT; // lfence
        Mfence, Mfence0FAEF0, W8, 0, NONE, 0, 0; ACD [0x123456789abcdef, 0xfedcba9876543210, 0xff00ff80808080], 0, 1 => [0x123456789abcdef, 0xfedcba9876543210, 0xff00ff80808080], [0, 0], 1, NEXT; // mfence
        Sfence, Sfence0FAEF8, W8, 0, NONE, 0, 0; ACD [0x123456789abcdef, 0xfedcba9876543210, 0xff00ff80808080], 0, 0xd1 => [0x123456789abcdef, 0xfedcba9876543210, 0xff00ff80808080], [0, 0], 0xd1, NEXT; // sfence
];

#[rattlefmt::skip]
const FAULTS: &[Faulting] = faulting![
    // instruction, form, width, register, operand, immediate, LOCK; registers, value => vector, error code
        Div, DivF6, W8, 0, CX, 0, false; ACD [0x3500, 0x35, 0xff00ff80808080], 0 => 0, None; // div cl
        Div, DivF7, W32, 0, CX, 0, false; ACD [0x123456789abcdef, 0xffffffff00000000, 0xff00ff80808080], 0 => 0, None; // div ecx
        Idiv, IdivF6, W8, 0, CX, 0, false; ACD [0x80, 1, 0xff00ff80808080], 0 => 0, None; // idiv cl
        Idiv, IdivF7, W64, 0, CX, 0, false; ACD [0x8000000000000000, 0xffffffffffffffff, 0xffffffffffffffff], 0 => 0, None; // idiv rcx
        Jmp, JmpFF, W64, 0, DX, 0, false; ACD [0x123456789abcdef, 0xfedcba9876543210, 0x800000000000], 0 => 13, Some(0); // jmp rdx
        Call, CallFF, W64, 0, MEMORY, 0, false; ACD [0x123456789abcdef, 0xfedcba9876543210, 0xff00ff80808080], 0xffff7fffffffffff => 13, Some(0); // call qword ptr [rbx]
        Ret, RetC3, W64, 0, NONE, 0, false; ACD [0x123456789abcdef, 0xfedcba9876543210, 0xff00ff80808080], 0x123456789abcdef => 13, Some(0); // ret
        Mov, Mov89, W32, 0, MEMORY, 0, true; ACD [0x123456789abcdef, 0xfedcba9876543210, 0xff00ff80808080], 0 => 6, None; // lock mov
        Add, Arithmetic01, W32, 0, CX, 0, true; ACD [0x123456789abcdef, 0xfedcba9876543210, 0xff00ff80808080], 0 => 6, None; // lock add reg
        Add, Arithmetic03, W32, 0, MEMORY, 0, true; ACD [0x123456789abcdef, 0xfedcba9876543210, 0xff00ff80808080], 0 => 6, None; // lock add reg, mem
        Bt, Bt0FBA, W32, 0, MEMORY, 3, true; ACD [0x123456789abcdef, 0xfedcba9876543210, 0xff00ff80808080], 0 => 6, None; // lock bt
        Nop, Nop90, W32, 0, NONE, 0, true; ACD [0x123456789abcdef, 0xfedcba9876543210, 0xff00ff80808080], 0 => 6, None; // lock nop
];

/// For each condition, the combinations of flags for which SETcc gave 1: bit 0 of a combination's number is CF, bit 1 PF,
/// bit 2 ZF, bit 3 SF and bit 4 OF.
const CONDITIONS: [u32; 16] = [
    0xffff_0000,
    0x0000_ffff,
    0xaaaa_aaaa,
    0x5555_5555,
    0xf0f0_f0f0,
    0x0f0f_0f0f,
    0xfafa_fafa,
    0x0505_0505,
    0xff00_ff00,
    0x00ff_00ff,
    0xcccc_cccc,
    0x3333_3333,
    0x00ff_ff00,
    0xff00_00ff,
    0xf0ff_fff0,
    0x0f00_000f,
];

const SEGMENT: Segment = Segment {
    selector: 0,
    attributes: 0,
    limit: 0,
    base: 0,
};

const REGISTERS: Registers = Registers {
    general: START,
    rip: 0x2000_0000,
    rflags: 2,
    cr0: 0,
    cr2: 0,
    cr3: 0,
    cr4: 0,
    efer: 0,
    dr6: 0,
    dr7: 0,
    es: SEGMENT,
    cs: SEGMENT,
    ss: SEGMENT,
    ds: SEGMENT,
    fs: SEGMENT,
    gs: SEGMENT,
    ldtr: SEGMENT,
    tr: SEGMENT,
    gdtr: SEGMENT,
    idtr: SEGMENT,
    cpl: 0,
    kernel_gs: 0,
    star: 0,
    lstar: 0,
    cstar: 0,
    sfmask: 0,
    sysenter_cs: 0,
    sysenter_esp: 0,
    sysenter_eip: 0,
    pat: 0,
    hsave: 0,
    tsc_add: 0,
    shadow: false,
};

/// The registers with these values of the named ones.
fn general(names: &[usize; 3], values: &[u64; 3]) -> [u64; 16] {
    let mut now = START;
    for (name, value) in names.iter().zip(values) {
        now[*name % 16] = *value;
    }
    now
}

#[test]
fn rows_do_what_a_processor_does(rt: HostRuntime) {
    for (number, case) in CASES.iter().enumerate() {
        let mut registers = Registers {
            general: general(&case.names, &case.before),
            rflags: 2 | case.flags,
            ..REGISTERS
        };
        let values = [case.value, 0, 0, 0, 0, 0, 0, 0];
        let mut results = [0; 8];
        assert!(rt; is_user_row(case.row.op));
        let answer = apply(&case.row, &mut registers, NEXT, &values, &mut results);
        let after = general(&case.names, &case.after);
        assert!(rt; matches!(answer, Applied::Done), "case {number}");
        assert!(rt; registers.general == after, "registers of case {number}");
        assert!(rt;
            registers.rflags == 2 | case.flags_after,
            "flags of case {number}"
        );
        assert!(rt; registers.rip == case.rip, "RIP of case {number}");
        assert!(rt;
            [results[0], results[1]] == case.results,
            "results of case {number}"
        );
    }
}

#[test]
fn faults_change_nothing(rt: HostRuntime) {
    for (number, case) in FAULTS.iter().enumerate() {
        let before = general(&case.names, &case.before);
        let mut registers = Registers {
            general: before,
            ..REGISTERS
        };
        let values = [case.value, 0, 0, 0, 0, 0, 0, 0];
        let mut results = [0; 8];
        assert!(rt; is_user_row(case.row.op));
        let answer = apply(&case.row, &mut registers, NEXT, &values, &mut results);
        let told = match answer {
            Applied::Fault(trap) => {
                trap.vector == case.vector
                    && trap.code == case.code
                    && trap.address.is_none()
                    && matches!(trap.cause, Cause::Fault)
            }
            Applied::Done => false,
        };
        assert!(rt; told, "fault {number}");
        assert!(rt; registers.general == before && registers.rip == REGISTERS.rip);
        assert!(rt; registers.rflags == 2 && results == [0; 8]);
        assert!(rt;
            lock_is_undefined(&case.row) == (case.vector == 6),
            "lock of fault {number}"
        );
    }
}

/// The flags of a combination: bit 0 of its number is CF, bit 1 PF, bit 2 ZF, bit 3 SF and bit 4 OF.
fn flags_of(combination: u32) -> u64 {
    let places = [1, 4, 0x40, 0x80, 0x800];
    let mut flags = 2;
    let mut left = combination;
    for place in places {
        if left % 2 == 1 {
            flags |= place;
        }
        left /= 2;
    }
    flags
}

fn conditional(op: Op, form: Form, operand: Operand, condition: u8) -> Row
    ensures { result.op ≡ op }
{
    Row {
        op,
        form,
        width: Width::W64,
        lock: false,
        register: 2,
        operand,
        immediate: 0x40,
        condition,
    }
}

#[test]
#[tactic(auto, using(svm_model::proofs::RowTableLemmas::user_rows_first), unfolding(svm_model::specs::Instructions::RowNumbers::op_number))]
fn conditions_hold_as_in_a_processor(rt: HostRuntime) {
    for (condition, wanted) in CONDITIONS.iter().enumerate() {
        let condition = condition as u8;
        let jump = conditional(Op::Jcc, Form::Jcc70, NONE, condition);
        let set = conditional(Op::Setcc, Form::Setcc0F90, CX, condition);
        let mov = conditional(Op::Cmovcc, Form::Cmovcc0F40, CX, condition);
        let mut left = *wanted;
        for combination in 0..32 {
            let holds = left % 2 == 1;
            left /= 2;
            let mut registers = Registers {
                rflags: flags_of(combination),
                ..REGISTERS
            };
            let mut results = [0; 8];
            apply(&jump, &mut registers, NEXT, &[0; 8], &mut results);
            assert!(rt;
                (registers.rip == NEXT + 0x40) == holds,
                "Jcc {condition}, flags {combination}"
            );
            apply(&mov, &mut registers, NEXT, &[0; 8], &mut results);
            let [_, _, dx, ..] = registers.general;
            let [_, cx, start, ..] = START;
            assert!(rt;
                dx == if holds { cx } else { start },
                "CMOVcc {condition}, flags {combination}"
            );
            apply(&set, &mut registers, NEXT, &[0; 8], &mut results);
            let [_, set_to, ..] = registers.general;
            assert!(rt;
                set_to % 0x100 == u64::from(holds),
                "SETcc {condition}, flags {combination}"
            );
        }
    }
}
