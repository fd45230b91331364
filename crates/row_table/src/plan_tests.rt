// The accesses of rows of every kind, and over the shapes of addresses.
use crate::{Decoded, PlannedAccess, Registers, Segment, Touch, decode, plan};
use std::test::*;

/// The bytes of an instruction with zeros after them, their length, and its data accesses, at most two.
#[derive(Clone, Copy)]
struct Case {
    bytes: [u8; 9],
    length: u8,
    first: Option<PlannedAccess>,
    second: Option<PlannedAccess>,
}

/// The bytes, filled up with zeros.
macro_rules! filled {
    ([$($byte:literal),*]) => {
        filled!(first $($byte)* 0 0 0 0 0 0 0 0)
    };
    (first $a:literal $b:literal $c:literal $d:literal $e:literal $f:literal $g:literal $h:literal $i:literal $($rest:literal)*) => {
        [$a, $b, $c, $d, $e, $f, $g, $h, $i]
    };
}

macro_rules! touch {
    (read) => {
        Touch::Read
    };
    (write) => {
        Touch::Write
    };
    (update) => {
        Touch::Update
    };
}

macro_rules! is_stack {
    (stack) => {
        true
    };
    (data) => {
        false
    };
}

/// What is done, the address, the length, and whether the access is one of the stack.
macro_rules! access {
    ($touch:tt $address:literal, $length:literal, $stack:tt) => {
        Some(PlannedAccess {
            address: $address,
            length: $length,
            touch: touch!($touch),
            stack: is_stack!($stack),
        })
    };
    () => {
        None
    };
}

/// Bytes, their length, and the first and the second access.
macro_rules! case {
    ($bytes:tt, $length:literal, ($($first:tt)*), ($($second:tt)*)) => {
        Case {
            bytes: filled!($bytes),
            length: $length,
            first: access!($($first)*),
            second: access!($($second)*),
        }
    };
}

/// A segment with this base.
macro_rules! segment_at {
    ($base:literal) => {
        Segment {
            selector: 0,
            attributes: 0,
            limit: 0,
            base: $base,
        }
    };
}

/// The address after the row.
const NEXT: u64 = 0x40_0000;

#[rattlefmt::skip]
const REGISTERS: Registers = Registers {
    general: [
        0x1000, 2, 0x3000, 0x4000, 0x8000, 0x9000, 0xffff_ffff_ffff_fff0, 0x5000,
        0x1_0000, 3, 0x1_0000_0000, 0xffff_8000_0000_0000, 0xc000, 0xd000, 0xe000, 0xf000,
    ],
    rip: 0x30_0000,
    rflags: 2,
    cr0: 0,
    cr2: 0,
    cr3: 0,
    cr4: 0,
    efer: 0,
    dr6: 0,
    dr7: 0,
    es: segment_at!(0x100),
    cs: segment_at!(0x200),
    ss: segment_at!(0x300),
    ds: segment_at!(0x400),
    fs: segment_at!(0x7_0000_0000),
    gs: segment_at!(0xffff_ffff_ffff_0000),
    ldtr: segment_at!(0x500),
    tr: segment_at!(0x600),
    gdtr: segment_at!(0x700),
    idtr: segment_at!(0x800),
    cpl: 0,
    kernel_gs: 0x900,
    star: 0,
    lstar: 0,
    cstar: 0,
    sfmask: 0,
    sysenter_cs: 0,
    sysenter_esp: 0,
    sysenter_eip: 0,
    pat: 0,
    hsave: 0,
    tsc_add: 0,
    shadow: false,
};

// The bytes are those that the GNU assembler gives for the text beside them. The accesses are worked out by hand from
// volume 3: what is read and written from the instruction's entry, and the address from the text and the registers.
#[rattlefmt::skip]
const CASES: [Case; 118] = [
    case!([0x02, 0x18], 2, (read 0x1000, 1, data), ()), // add bl, [rax]
    case!([0x66, 0x01, 0x5c, 0xc8, 0xf0], 5, (update 0x1000, 2, data), ()), // add [rax+rcx*8-0x10], bx
    case!([0x0b, 0x47, 0x7f], 3, (read 0x507f, 4, data), ()), // or eax, [rdi+0x7f]
    case!([0x48, 0x83, 0x14, 0x0a, 0x05], 5, (update 0x3002, 8, data), ()), // adc qword ptr [rdx+rcx], 5
    case!([0x43, 0x80, 0x9c, 0x88, 0x78, 0x56, 0x34, 0x12, 0x01], 9, (update 0x12355684, 1, data), ()), // sbb byte ptr [r8+r9*4+0x12345678], 1
    case!([0x21, 0x4d, 0x08], 3, (update 0x9008, 4, stack), ()), // and [rbp+8], ecx
    case!([0x49, 0x29, 0x4d, 0x00], 4, (update 0xd000, 8, data), ()), // sub [r13], rcx
    case!([0x49, 0x33, 0x0c, 0x24], 4, (read 0xc000, 8, data), ()), // xor rcx, [r12]
    case!([0x66, 0x39, 0x44, 0x4c, 0x04], 5, (read 0x8008, 2, stack), ()), // cmp [rsp+rcx*2+4], ax
    case!([0x3b, 0x45, 0xf8], 3, (read 0x8ff8, 4, stack), ()), // cmp eax, [rbp-8]
    case!([0x80, 0x3c, 0x29, 0x03], 4, (read 0x9002, 1, data), ()), // cmp byte ptr [rcx+rbp], 3
    case!([0xf0, 0x48, 0x01, 0x04, 0x24], 5, (update 0x8000, 8, stack), ()), // lock add [rsp], rax
    case!([0x84, 0x03], 2, (read 0x4000, 1, data), ()), // test [rbx], al
    case!([0xf7, 0x03, 0x03, 0x00, 0x00, 0x00], 6, (read 0x4000, 4, data), ()), // test dword ptr [rbx], 3
    case!([0x48, 0xf7, 0x15, 0x00, 0x01, 0x00, 0x00], 7, (update 0x400100, 8, data), ()), // not qword ptr [rip+0x100]
    case!([0x66, 0xf7, 0x1c, 0x33], 4, (update 0x3ff0, 2, data), ()), // neg word ptr [rbx+rsi]
    case!([0xf6, 0x23], 2, (read 0x4000, 1, data), ()), // mul byte ptr [rbx]
    case!([0x48, 0xf7, 0x2b], 3, (read 0x4000, 8, data), ()), // imul qword ptr [rbx]
    case!([0x66, 0x0f, 0xaf, 0x03], 4, (read 0x4000, 2, data), ()), // imul ax, [rbx]
    case!([0x6b, 0x03, 0x03], 3, (read 0x4000, 4, data), ()), // imul eax, [rbx], 3
    case!([0xf7, 0x33], 2, (read 0x4000, 4, data), ()), // div dword ptr [rbx]
    case!([0x66, 0xf7, 0x3b], 3, (read 0x4000, 2, data), ()), // idiv word ptr [rbx]
    case!([0xfe, 0x03], 2, (update 0x4000, 1, data), ()), // inc byte ptr [rbx]
    case!([0xff, 0x0b], 2, (update 0x4000, 4, data), ()), // dec dword ptr [rbx]
    case!([0xc0, 0x03, 0x03], 3, (update 0x4000, 1, data), ()), // rol byte ptr [rbx], 3
    case!([0xd1, 0x0b], 2, (update 0x4000, 4, data), ()), // ror dword ptr [rbx], 1
    case!([0x48, 0xd3, 0x23], 3, (update 0x4000, 8, data), ()), // shl qword ptr [rbx], cl
    case!([0x66, 0xd3, 0x2b], 3, (update 0x4000, 2, data), ()), // shr word ptr [rbx], cl
    case!([0xc1, 0x3b, 0x00], 3, (update 0x4000, 4, data), ()), // sar dword ptr [rbx], 0
    case!([0x88, 0x03], 2, (write 0x4000, 1, data), ()), // mov [rbx], al
    case!([0x4c, 0x89, 0x13], 3, (write 0x4000, 8, data), ()), // mov [rbx], r10
    case!([0x8a, 0x03], 2, (read 0x4000, 1, data), ()), // mov al, [rbx]
    case!([0x66, 0x8b, 0x03], 3, (read 0x4000, 2, data), ()), // mov ax, [rbx]
    case!([0xc6, 0x03, 0x07], 3, (write 0x4000, 1, data), ()), // mov byte ptr [rbx], 7
    case!([0x48, 0xc7, 0x03, 0x07, 0x00, 0x00, 0x00], 7, (write 0x4000, 8, data), ()), // mov qword ptr [rbx], 7
    case!([0x48, 0x8b, 0x04, 0x25, 0x78, 0x56, 0x34, 0x12], 8, (read 0x12345678, 8, data), ()), // mov rax, [0x12345678]
    case!([0x8b, 0x04, 0x8d, 0xf8, 0xff, 0xff, 0xff], 7, (read 0, 4, data), ()), // mov eax, [rcx*4-8]
    case!([0x0f, 0xb6, 0x03], 3, (read 0x4000, 1, data), ()), // movzx eax, byte ptr [rbx]
    case!([0x48, 0x0f, 0xb7, 0x03], 4, (read 0x4000, 2, data), ()), // movzx rax, word ptr [rbx]
    case!([0x66, 0x0f, 0xbe, 0x03], 4, (read 0x4000, 1, data), ()), // movsx ax, byte ptr [rbx]
    case!([0x0f, 0xbf, 0x03], 3, (read 0x4000, 2, data), ()), // movsx eax, word ptr [rbx]
    case!([0x48, 0x63, 0x03], 3, (read 0x4000, 4, data), ()), // movsxd rax, dword ptr [rbx]
    case!([0x48, 0x8d, 0x04, 0x0b], 4, (), ()), // lea rax, [rbx+rcx]
    case!([0x86, 0x03], 2, (update 0x4000, 1, data), ()), // xchg [rbx], al
    case!([0x48, 0x87, 0x03], 3, (update 0x4000, 8, data), ()), // xchg rax, [rbx]
    case!([0x48, 0x93], 2, (), ()), // xchg rax, rbx
    case!([0x66, 0x0f, 0xb1, 0x0b], 4, (update 0x4000, 2, data), ()), // cmpxchg [rbx], cx
    case!([0x0f, 0xc1, 0x03], 3, (update 0x4000, 4, data), ()), // xadd [rbx], eax
    case!([0x48, 0x0f, 0xba, 0x23, 0x03], 5, (read 0x4000, 8, data), ()), // bt qword ptr [rbx], 3
    case!([0x66, 0x0f, 0xba, 0x2b, 0x03], 5, (update 0x4000, 2, data), ()), // bts word ptr [rbx], 3
    case!([0x0f, 0xba, 0x33, 0x03], 4, (update 0x4000, 4, data), ()), // btr dword ptr [rbx], 3
    case!([0x48, 0x0f, 0xba, 0x3b, 0x03], 5, (update 0x4000, 8, data), ()), // btc qword ptr [rbx], 3
    case!([0x0f, 0xa3, 0xc8], 3, (), ()), // bt eax, ecx
    case!([0x50], 1, (write 0x7ff8, 8, stack), ()), // push rax
    case!([0xff, 0x33], 2, (read 0x4000, 8, data), (write 0x7ff8, 8, stack)), // push qword ptr [rbx]
    case!([0xff, 0x74, 0x24, 0x08], 4, (read 0x8008, 8, stack), (write 0x7ff8, 8, stack)), // push qword ptr [rsp+8]
    case!([0x6a, 0x05], 2, (write 0x7ff8, 8, stack), ()), // push 5
    case!([0x68, 0x45, 0x23, 0x01, 0x00], 5, (write 0x7ff8, 8, stack), ()), // push 0x12345
    case!([0x58], 1, (read 0x8000, 8, stack), ()), // pop rax
    case!([0x5c], 1, (read 0x8000, 8, stack), ()), // pop rsp
    case!([0x8f, 0x03], 2, (read 0x8000, 8, stack), (write 0x4000, 8, data)), // pop qword ptr [rbx]
    case!([0x8f, 0x44, 0x24, 0x08], 4, (read 0x8000, 8, stack), (write 0x8010, 8, stack)), // pop qword ptr [rsp+8]
    case!([0x8f, 0x45, 0x00], 3, (read 0x8000, 8, stack), (write 0x9000, 8, stack)), // pop qword ptr [rbp]
    case!([0x64, 0x8f, 0x04, 0x24], 4, (read 0x8000, 8, stack), (write 0x700008008, 8, data)), // pop qword ptr fs:[rsp]
    case!([0xe8, 0x1b, 0x00, 0x00, 0x00], 5, (write 0x7ff8, 8, stack), ()), // call .+0x20
    case!([0xff, 0xd0], 2, (write 0x7ff8, 8, stack), ()), // call rax
    case!([0xff, 0x13], 2, (read 0x4000, 8, data), (write 0x7ff8, 8, stack)), // call qword ptr [rbx]
    case!([0xff, 0x15, 0xf0, 0xff, 0xff, 0xff], 6, (read 0x3ffff0, 8, data), (write 0x7ff8, 8, stack)), // call qword ptr [rip-0x10]
    case!([0xc3], 1, (read 0x8000, 8, stack), ()), // ret
    case!([0xc2, 0x10, 0x00], 3, (read 0x8000, 8, stack), ()), // ret 0x10
    case!([0xeb, 0x1e], 2, (), ()), // jmp .+0x20
    case!([0xff, 0xe3], 2, (), ()), // jmp rbx
    case!([0xff, 0x24, 0xcb], 3, (read 0x4010, 8, data), ()), // jmp qword ptr [rbx+rcx*8]
    case!([0x75, 0x1e], 2, (), ()), // jne .+0x20
    case!([0x0f, 0x94, 0x03], 3, (write 0x4000, 1, data), ()), // sete [rbx]
    case!([0x0f, 0x94, 0xc0], 3, (), ()), // sete al
    case!([0x66, 0x0f, 0x44, 0x03], 4, (read 0x4000, 2, data), ()), // cmove ax, [rbx]
    case!([0x48, 0x0f, 0x45, 0x03], 4, (read 0x4000, 8, data), ()), // cmovne rax, [rbx]
    case!([0xc9], 1, (read 0x9000, 8, stack), ()), // leave
    case!([0x48, 0x98], 2, (), ()), // cdqe
    case!([0xf8], 1, (), ()), // clc
    case!([0x90], 1, (), ()), // nop
    case!([0x0f, 0x1f, 0x03], 3, (), ()), // nop dword ptr [rbx]
    case!([0x0f, 0xae, 0xf0], 3, (), ()), // mfence
    case!([0xf3, 0x90], 2, (), ()), // pause
    case!([0xf4], 1, (), ()), // hlt
    case!([0xfa], 1, (), ()), // cli
    case!([0x9c], 1, (write 0x7ff8, 8, stack), ()), // pushfq
    case!([0x9d], 1, (read 0x8000, 8, stack), ()), // popfq
    case!([0xcc], 1, (), ()), // int3
    case!([0xcd, 0x80], 2, (), ()), // int 0x80
    case!([0x48, 0xcf], 2, (), ()), // iretq
    case!([0xec], 1, (), ()), // in al, dx
    case!([0xef], 1, (), ()), // out dx, eax
    case!([0x0f, 0x22, 0xd8], 3, (), ()), // mov cr3, rax
    case!([0x0f, 0x21, 0xf8], 3, (), ()), // mov rax, dr7
    case!([0x0f, 0x32], 2, (), ()), // rdmsr
    case!([0x0f, 0x01, 0x13], 3, (read 0x4000, 2, data), (read 0x4002, 8, data)), // lgdt [rbx]
    case!([0x0f, 0x01, 0x14, 0x24], 4, (read 0x8000, 2, stack), (read 0x8002, 8, stack)), // lgdt [rsp]
    case!([0x0f, 0x01, 0x56, 0x0f], 4, (read 0xffffffffffffffff, 2, data), (read 1, 8, data)), // lgdt [rsi+0xf]
    case!([0x64, 0x0f, 0x01, 0x5d, 0x10], 5, (read 0x700009010, 2, data), (read 0x700009012, 8, data)), // lidt fs:[rbp+0x10]
    case!([0x0f, 0x01, 0x3b], 3, (), ()), // invlpg [rbx]
    case!([0x0f, 0x01, 0xf8], 3, (), ()), // swapgs
    case!([0x0f, 0x01, 0xd8], 3, (), ()), // vmrun
    case!([0x0f, 0x01, 0xda], 3, (), ()), // vmload
    case!([0x64, 0x89, 0x03], 3, (write 0x700004000, 4, data), ()), // mov fs:[rbx], eax
    case!([0x65, 0x89, 0x03], 3, (write 0xffffffffffff4000, 4, data), ()), // mov gs:[rbx], eax
    case!([0x65, 0x48, 0x8b, 0x04, 0x25, 0x00, 0x00, 0x01, 0x00], 9, (read 0, 8, data), ()), // mov rax, gs:[0x10000]
    case!([0x64, 0x8b, 0x04, 0x24], 4, (read 0x700008000, 4, data), ()), // mov eax, fs:[rsp]
    case!([0x65, 0x8b, 0x44, 0x0d, 0x00], 5, (read 0xffffffffffff9002, 4, data), ()), // mov eax, gs:[rbp+rcx]
    case!([0x64, 0x8b, 0x05, 0x10, 0x00, 0x00, 0x00], 7, (read 0x700400010, 4, data), ()), // mov eax, fs:[rip+0x10]
    case!([0x8a, 0x04, 0xce], 3, (read 0, 1, data), ()), // mov al, [rsi+rcx*8]
    case!([0x48, 0x8b, 0x04, 0x76], 4, (read 0xffffffffffffffd0, 8, data), ()), // mov rax, [rsi+rsi*2]
    case!([0x4b, 0x8b, 0x84, 0xd3, 0xff, 0xff, 0xff, 0x7f], 8, (read 0xffff80087fffffff, 8, data), ()), // mov rax, [r11+r10*8+0x7fffffff]
    case!([0x43, 0x8b, 0x04, 0x3e], 4, (read 0x1d000, 4, data), ()), // mov eax, [r14+r15]
    case!([0x42, 0x8b, 0x04, 0x20], 4, (read 0xd000, 4, data), ()), // mov eax, [rax+r12]
    case!([0x8b, 0x05, 0x00, 0x00, 0xb0, 0xff], 6, (read 0xfffffffffff00000, 4, data), ()), // mov eax, [rip-0x500000]
    case!([0xf0, 0x39, 0x03], 3, (read 0x4000, 4, data), ()), // lock cmp [rbx], eax
];

/// Whether the case's bytes are a row with its accesses.
fn is_planned(case: &Case) -> bool {
    let Decoded::Row { row, length } = decode(&case.bytes) else {
        return false;
    };
    let accesses = plan(&row, &REGISTERS, NEXT);
    let planned = match accesses.as_slice() {
        [] => (None, None),
        [first] => (Some(*first), None),
        [first, second] => (Some(*first), Some(*second)),
        _ => return false,
    };
    length == case.length && planned == (case.first, case.second)
}

/// The first case that plans something else.
fn first_wrong(cases: &[Case]) -> Option<&Case> {
    for case in cases {
        if !is_planned(case) {
            return Some(case);
        }
    }
    None
}

#[test]
fn plans_as_the_manual_says(rt: HostRuntime) {
    if let Some(case) = first_wrong(&CASES) {
        panic!(rt; "{:?}", case.bytes);
    }
}
