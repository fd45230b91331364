// Spellings of every form, under prefixes and over the shapes of ModRM and SIB.
use crate::{Decoded, Form, Op, Operand, Row, Width, decode};
use std::test::*;

/// The bytes of an instruction and zeros after them, its length and its row.
#[derive(Clone, Copy)]
struct Case {
    bytes: [u8; 15],
    length: u8,
    row: Row,
}

/// Bytes that are no form, with zeros after them, and the first byte with which no form goes on.
#[derive(Clone, Copy)]
struct Stop {
    bytes: [u8; 15],
    byte: u8,
}

/// The bytes, filled up with zeros.
macro_rules! filled {
    ([$($byte:literal),*]) => {
        filled!(first $($byte)* 0 0 0 0 0 0 0 0 0 0 0 0 0 0)
    };
    (first $a:literal $b:literal $c:literal $d:literal $e:literal $f:literal $g:literal $h:literal $i:literal $j:literal $k:literal $l:literal $m:literal $n:literal $o:literal $($rest:literal)*) => {
        [$a, $b, $c, $d, $e, $f, $g, $h, $i, $j, $k, $l, $m, $n, $o]
    };
}

/// A register's number, where one is named.
macro_rules! number {
    (_) => {
        None
    };
    ($number:literal) => {
        Some($number)
    };
}

/// An operand: `none`; `register` and its number; `high` and the number of AX to BX; `memory` with base, index, scale,
/// displacement and segment; or `next` with displacement and segment.
macro_rules! operand {
    (none) => {
        Operand::None
    };
    (register $index:literal) => {
        Operand::Register {
            index: $index,
            high: false,
        }
    };
    (high $index:literal) => {
        Operand::Register {
            index: $index,
            high: true,
        }
    };
    (memory $base:tt $index:tt $scale:literal $displacement:literal $segment:literal) => {
        Operand::Memory {
            base: number!($base),
            index: number!($index),
            scale: $scale,
            displacement: $displacement,
            next: false,
            segment: $segment,
        }
    };
    (next $displacement:literal $segment:literal) => {
        Operand::Memory {
            base: None,
            index: None,
            scale: 1,
            displacement: $displacement,
            next: true,
            segment: $segment,
        }
    };
}

/// Bytes, length, instruction, form, width, whether F0h is there, register, operand, immediate and condition.
macro_rules! case {
    ($bytes:tt, $length:literal, $op:ident, $form:ident, $width:ident, $lock:literal, $register:literal, ($($operand:tt)*), $immediate:literal, $condition:literal) => {
        Case {
            bytes: filled!($bytes),
            length: $length,
            row: Row {
                op: Op::$op,
                form: Form::$form,
                width: Width::$width,
                lock: $lock,
                register: $register,
                operand: operand!($($operand)*),
                immediate: $immediate,
                condition: $condition,
            },
        }
    };
}

/// Bytes, and the first with which no form goes on.
macro_rules! stop {
    ($bytes:tt, $byte:literal) => {
        Stop {
            bytes: filled!($bytes),
            byte: $byte,
        }
    };
}

// Length, instruction, width, operands, immediate and condition of each are read off what
// `objdump -D -w -b binary -m i386:x86-64 -M intel` prints for the bytes, which stands beside them: a branch's immediate
// is its target less the next address, and of two registers the opcode says which one r/m names; where it prints riz there
// is no index, and the scale is 1. The form is the name of the opcode in the bytes.
#[rattlefmt::skip]
const ROWS: [Case; 269] = [
    case!([0x00, 0xdb], 2, Add, Arithmetic00, W8, false, 3, (register 3), 0, 0), // add bl,bl
    case!([0x64, 0x09, 0xc5], 3, Or, Arithmetic01, W32, false, 0, (register 5), 0, 0), // fs or ebp,eax
    case!([0xf0, 0x64, 0x49, 0x12, 0xee], 5, Adc, Arithmetic02, W8, true, 5, (register 14), 0, 0), // lock fs rex.WB adc bpl,r14b
    case!([0x1b, 0x10], 2, Sbb, Arithmetic03, W32, false, 2, (memory 0 _ 1 0 0), 0, 0), // sbb edx,DWORD PTR [rax]
    case!([0x65, 0x44, 0x24, 0x7f], 4, And, Arithmetic04, W8, false, 0, (register 0), 0x7f, 0), // gs rex.R and al,0x7f
    case!([0x2d, 0xa5, 0xff, 0xa5, 0x80], 5, Sub, Arithmetic05, W32, false, 0, (register 0), 0x80a5_ffa5, 0), // sub eax,0x80a5ffa5
    case!([0x64, 0x4d, 0x80, 0x8d, 0x10, 0x00, 0x00, 0x80, 0xff], 9, Or, Arithmetic80, W8, false, 0, (memory 13 _ 1 0xffff_ffff_8000_0010 4), 0xff, 0), // rex.WRB or BYTE PTR fs:[r13-0x7ffffff0],0xff
    case!([0xf0, 0x64, 0x81, 0x34, 0x88, 0x01, 0xa5, 0x01, 0xff], 9, Xor, Arithmetic81, W32, true, 0, (memory 0 1 4 0 4), 0xff01_a501, 0), // lock xor DWORD PTR fs:[rax+rcx*4],0xff01a501
    case!([0x83, 0x1c, 0x24, 0xff], 4, Sbb, Arithmetic83, W32, false, 0, (memory 4 _ 1 0 0), 0xffff_ffff, 0), // sbb DWORD PTR [rsp],0xffffffff
    case!([0x65, 0x84, 0x04, 0xcd, 0x00, 0x10, 0x00, 0x00], 8, Test, Test84, W8, false, 0, (memory _ 1 8 0x1000 5), 0, 0), // test BYTE PTR gs:[rcx*8+0x1000],al
    case!([0x48, 0x85, 0x2c, 0x25, 0xf0, 0xff, 0xff, 0xff], 8, Test, Test85, W64, false, 5, (memory _ _ 1 0xffff_ffff_ffff_fff0 0), 0, 0), // test QWORD PTR ds:0xfffffffffffffff0,rbp
    case!([0x64, 0xa8, 0xa5], 3, Test, TestA8, W8, false, 0, (register 0), 0xa5, 0), // fs test al,0xa5
    case!([0xf0, 0x64, 0x44, 0xa9, 0x01, 0x7f, 0x7f, 0xff], 8, Test, TestA9, W32, true, 0, (register 0), 0xff7f_7f01, 0), // lock fs rex.R test eax,0xff7f7f01
    case!([0x42, 0xf6, 0x04, 0xa0, 0xa5], 5, Test, TestF6, W8, false, 0, (memory 0 12 4 0 0), 0xa5, 0), // test BYTE PTR [rax+r12*4],0xa5
    case!([0x65, 0x66, 0x4d, 0xf7, 0x05, 0xfc, 0xff, 0xff, 0xff, 0x80, 0xa5, 0x7f, 0x01], 13, Test, TestF7, W64, false, 0, (next 0xffff_ffff_ffff_fffc 5), 0x17f_a580, 0), // data16 rex.WRB test QWORD PTR gs:[rip+0xfffffffffffffffc],0x17fa580
    case!([0x41, 0xf6, 0x14, 0x5d, 0x01, 0x02, 0x03, 0x04], 8, Not, NotF6, W8, false, 0, (memory _ 3 2 0x403_0201 0), 0, 0), // not BYTE PTR [rbx*2+0x4030201]
    case!([0x64, 0xf7, 0x94, 0x24, 0x44, 0x33, 0x22, 0x11], 8, Not, NotF7, W32, false, 0, (memory 4 _ 1 0x1122_3344 4), 0, 0), // not DWORD PTR fs:[rsp+0x11223344]
    case!([0xf0, 0x64, 0xf6, 0x5f, 0x80], 5, Neg, NegF6, W8, true, 0, (memory 7 _ 1 0xffff_ffff_ffff_ff80 4), 0, 0), // lock neg BYTE PTR fs:[rdi-0x80]
    case!([0x48, 0xf7, 0xdf], 3, Neg, NegF7, W64, false, 0, (register 7), 0, 0), // neg rdi
    case!([0x65, 0x40, 0xf6, 0xe4], 4, Mul, MulF6, W8, false, 0, (register 4), 0, 0), // gs mul spl
    case!([0x44, 0xf7, 0xe3], 3, Mul, MulF7, W32, false, 0, (register 3), 0, 0), // rex.R mul ebx
    case!([0x64, 0xf6, 0xed], 3, Imul, ImulF6, W8, false, 0, (high 1), 0, 0), // fs imul ch
    case!([0xf0, 0x64, 0x4d, 0xf7, 0xee], 5, Imul, ImulF7, W64, true, 0, (register 14), 0, 0), // lock fs rex.WRB imul r14
    case!([0xf6, 0x30], 2, Div, DivF6, W8, false, 0, (memory 0 _ 1 0 0), 0, 0), // div BYTE PTR [rax]
    case!([0x65, 0x66, 0xf7, 0x35, 0x78, 0x56, 0x34, 0x12], 8, Div, DivF7, W16, false, 0, (next 0x1234_5678 5), 0, 0), // div WORD PTR gs:[rip+0x12345678]
    case!([0xf6, 0x7b, 0xf8], 3, Idiv, IdivF6, W8, false, 0, (memory 3 _ 1 0xffff_ffff_ffff_fff8 0), 0, 0), // idiv BYTE PTR [rbx-0x8]
    case!([0x64, 0x49, 0xf7, 0xbd, 0x10, 0x00, 0x00, 0x80], 8, Idiv, IdivF7, W64, false, 0, (memory 13 _ 1 0xffff_ffff_8000_0010 4), 0, 0), // idiv QWORD PTR fs:[r13-0x7ffffff0]
    case!([0xf0, 0x64, 0x0f, 0xaf, 0x14, 0x88], 6, Imul, Imul0FAF, W32, true, 2, (memory 0 1 4 0 4), 0, 0), // lock imul edx,DWORD PTR fs:[rax+rcx*4]
    case!([0x44, 0x69, 0x3c, 0x24, 0x7f, 0xff, 0xa5, 0xff], 8, Imul, Imul69, W32, false, 15, (memory 4 _ 1 0 0), 0xffa5_ff7f, 0), // imul r15d,DWORD PTR [rsp],0xffa5ff7f
    case!([0x65, 0x66, 0x6b, 0x24, 0xcd, 0x00, 0x10, 0x00, 0x00, 0xa5], 10, Imul, Imul6B, W16, false, 4, (memory _ 1 8 0x1000 5), 0xffa5, 0), // imul sp,WORD PTR gs:[rcx*8+0x1000],0xffa5
    case!([0x4c, 0xfe, 0x04, 0x25, 0xf0, 0xff, 0xff, 0xff], 8, Inc, IncFE, W8, false, 0, (memory _ _ 1 0xffff_ffff_ffff_fff0 0), 0, 0), // rex.WR inc BYTE PTR ds:0xfffffffffffffff0
    case!([0x64, 0xff, 0x44, 0x4d, 0x7f], 5, Inc, IncFF, W32, false, 0, (memory 5 1 2 0x7f 4), 0, 0), // inc DWORD PTR fs:[rbp+rcx*2+0x7f]
    case!([0xf0, 0x64, 0x43, 0xfe, 0x4c, 0x25, 0x00], 7, Dec, DecFE, W8, true, 0, (memory 13 12 1 0 4), 0, 0), // lock dec BYTE PTR fs:[r13+r12*1+0x0]
    case!([0x42, 0xff, 0x0c, 0xa0], 4, Dec, DecFF, W32, false, 0, (memory 0 12 4 0 0), 0, 0), // dec DWORD PTR [rax+r12*4]
    case!([0x65, 0x49, 0xc0, 0x05, 0xfc, 0xff, 0xff, 0xff, 0x01], 9, Rol, ShiftC0, W8, false, 0, (next 0xffff_ffff_ffff_fffc 5), 1, 0), // rex.WB rol BYTE PTR gs:[rip+0xfffffffffffffffc],0x1
    case!([0x41, 0xc0, 0x0c, 0x5d, 0x01, 0x02, 0x03, 0x04, 0x01], 9, Ror, ShiftC0, W8, false, 0, (memory _ 3 2 0x403_0201 0), 1, 0), // ror BYTE PTR [rbx*2+0x4030201],0x1
    case!([0x64, 0x44, 0xc0, 0xa4, 0x24, 0x44, 0x33, 0x22, 0x11, 0xa5], 10, Shl, ShiftC0, W8, false, 0, (memory 4 _ 1 0x1122_3344 4), 0xa5, 0), // rex.R shl BYTE PTR fs:[rsp+0x11223344],0xa5
    case!([0xf0, 0x64, 0xc0, 0x6f, 0x80, 0xa5], 6, Shr, ShiftC0, W8, true, 0, (memory 7 _ 1 0xffff_ffff_ffff_ff80 4), 0xa5, 0), // lock shr BYTE PTR fs:[rdi-0x80],0xa5
    case!([0x4c, 0xc0, 0xff, 0x01], 4, Sar, ShiftC0, W8, false, 0, (register 7), 1, 0), // rex.WR sar dil,0x1
    case!([0x65, 0x66, 0x40, 0xc1, 0xc4, 0x80], 6, Rol, ShiftC1, W16, false, 0, (register 4), 0x80, 0), // gs rex rol sp,0x80
    case!([0xc1, 0xcb, 0xff], 3, Ror, ShiftC1, W32, false, 0, (register 3), 0xff, 0), // ror ebx,0xff
    case!([0x64, 0xc1, 0xe5, 0x80], 4, Shl, ShiftC1, W32, false, 0, (register 5), 0x80, 0), // fs shl ebp,0x80
    case!([0xf0, 0x64, 0x49, 0xc1, 0xee, 0x80], 6, Shr, ShiftC1, W64, true, 0, (register 14), 0x80, 0), // lock fs shr r14,0x80
    case!([0xc1, 0x38, 0xff], 3, Sar, ShiftC1, W32, false, 0, (memory 0 _ 1 0 0), 0xff, 0), // sar DWORD PTR [rax],0xff
    case!([0x65, 0x44, 0xd0, 0x05, 0x78, 0x56, 0x34, 0x12], 8, Rol, ShiftD0, W8, false, 0, (next 0x1234_5678 5), 1, 0), // rex.R rol BYTE PTR gs:[rip+0x12345678],1
    case!([0xd0, 0x4b, 0xf8], 3, Ror, ShiftD0, W8, false, 0, (memory 3 _ 1 0xffff_ffff_ffff_fff8 0), 1, 0), // ror BYTE PTR [rbx-0x8],1
    case!([0x64, 0x4d, 0xd0, 0xa5, 0x10, 0x00, 0x00, 0x80], 8, Shl, ShiftD0, W8, false, 0, (memory 13 _ 1 0xffff_ffff_8000_0010 4), 1, 0), // rex.WRB shl BYTE PTR fs:[r13-0x7ffffff0],1
    case!([0xf0, 0x64, 0xd0, 0x2c, 0x88], 5, Shr, ShiftD0, W8, true, 0, (memory 0 1 4 0 4), 1, 0), // lock shr BYTE PTR fs:[rax+rcx*4],1
    case!([0xd0, 0x3c, 0x24], 3, Sar, ShiftD0, W8, false, 0, (memory 4 _ 1 0 0), 1, 0), // sar BYTE PTR [rsp],1
    case!([0x65, 0x66, 0xd1, 0x04, 0xcd, 0x00, 0x10, 0x00, 0x00], 9, Rol, ShiftD1, W16, false, 0, (memory _ 1 8 0x1000 5), 1, 0), // rol WORD PTR gs:[rcx*8+0x1000],1
    case!([0x48, 0xd1, 0x0c, 0x25, 0xf0, 0xff, 0xff, 0xff], 8, Ror, ShiftD1, W64, false, 0, (memory _ _ 1 0xffff_ffff_ffff_fff0 0), 1, 0), // ror QWORD PTR ds:0xfffffffffffffff0,1
    case!([0x64, 0xd1, 0x64, 0x4d, 0x7f], 5, Shl, ShiftD1, W32, false, 0, (memory 5 1 2 0x7f 4), 1, 0), // shl DWORD PTR fs:[rbp+rcx*2+0x7f],1
    case!([0xf0, 0x64, 0x47, 0xd1, 0x6c, 0x25, 0x00], 7, Shr, ShiftD1, W32, true, 0, (memory 13 12 1 0 4), 1, 0), // lock rex.RXB shr DWORD PTR fs:[r13+r12*1+0x0],1
    case!([0xd1, 0x3c, 0xe4], 3, Sar, ShiftD1, W32, false, 0, (memory 4 _ 1 0 0), 1, 0), // sar DWORD PTR [rsp+riz*8],1
    case!([0x42, 0xd1, 0x3c, 0xa0], 4, Sar, ShiftD1, W32, false, 0, (memory 0 12 4 0 0), 1, 0), // sar DWORD PTR [rax+r12*4],1
    case!([0x65, 0x4d, 0xd2, 0x05, 0xfc, 0xff, 0xff, 0xff], 8, Rol, ShiftD2, W8, false, 0, (next 0xffff_ffff_ffff_fffc 5), 0, 0), // rex.WRB rol BYTE PTR gs:[rip+0xfffffffffffffffc],cl
    case!([0x41, 0xd2, 0x0c, 0x5d, 0x01, 0x02, 0x03, 0x04], 8, Ror, ShiftD2, W8, false, 0, (memory _ 3 2 0x403_0201 0), 0, 0), // ror BYTE PTR [rbx*2+0x4030201],cl
    case!([0x64, 0xd2, 0xa4, 0x24, 0x44, 0x33, 0x22, 0x11], 8, Shl, ShiftD2, W8, false, 0, (memory 4 _ 1 0x1122_3344 4), 0, 0), // shl BYTE PTR fs:[rsp+0x11223344],cl
    case!([0xf0, 0x64, 0xd2, 0x6f, 0x80], 5, Shr, ShiftD2, W8, true, 0, (memory 7 _ 1 0xffff_ffff_ffff_ff80 4), 0, 0), // lock shr BYTE PTR fs:[rdi-0x80],cl
    case!([0x48, 0xd2, 0xff], 3, Sar, ShiftD2, W8, false, 0, (register 7), 0, 0), // rex.W sar dil,cl
    case!([0x65, 0x66, 0x40, 0xd3, 0xc4], 5, Rol, ShiftD3, W16, false, 0, (register 4), 0, 0), // gs rex rol sp,cl
    case!([0x44, 0xd3, 0xcb], 3, Ror, ShiftD3, W32, false, 0, (register 3), 0, 0), // rex.R ror ebx,cl
    case!([0x64, 0xd3, 0xe5], 3, Shl, ShiftD3, W32, false, 0, (register 5), 0, 0), // fs shl ebp,cl
    case!([0xf0, 0x64, 0x4d, 0xd3, 0xee], 5, Shr, ShiftD3, W64, true, 0, (register 14), 0, 0), // lock fs rex.WRB shr r14,cl
    case!([0xd3, 0x38], 2, Sar, ShiftD3, W32, false, 0, (memory 0 _ 1 0 0), 0, 0), // sar DWORD PTR [rax],cl
    case!([0x65, 0x88, 0x1d, 0x78, 0x56, 0x34, 0x12], 7, Mov, Mov88, W8, false, 3, (next 0x1234_5678 5), 0, 0), // mov BYTE PTR gs:[rip+0x12345678],bl
    case!([0x89, 0x43, 0xf8], 3, Mov, Mov89, W32, false, 0, (memory 3 _ 1 0xffff_ffff_ffff_fff8 0), 0, 0), // mov DWORD PTR [rbx-0x8],eax
    case!([0x64, 0x49, 0x8a, 0xad, 0x10, 0x00, 0x00, 0x80], 8, Mov, Mov8A, W8, false, 5, (memory 13 _ 1 0xffff_ffff_8000_0010 4), 0, 0), // rex.WB mov bpl,BYTE PTR fs:[r13-0x7ffffff0]
    case!([0xf0, 0x64, 0x8b, 0x14, 0x88], 5, Mov, Mov8B, W32, true, 2, (memory 0 1 4 0 4), 0, 0), // lock mov edx,DWORD PTR fs:[rax+rcx*4]
    case!([0x44, 0xc6, 0x04, 0x24, 0xff], 5, Mov, MovC6, W8, false, 0, (memory 4 _ 1 0 0), 0xff, 0), // rex.R mov BYTE PTR [rsp],0xff
    case!([0x65, 0x66, 0xc7, 0x04, 0xcd, 0x00, 0x10, 0x00, 0x00, 0xff, 0x01], 11, Mov, MovC7, W16, false, 0, (memory _ 1 8 0x1000 5), 0x1ff, 0), // mov WORD PTR gs:[rcx*8+0x1000],0x1ff
    case!([0x4c, 0xb6, 0xa5], 3, Mov, MovB0, W8, false, 0, (register 6), 0xa5, 0), // rex.WR mov sil,0xa5
    case!([0x64, 0xbf, 0x7f, 0x01, 0x7f, 0xff], 6, Mov, MovB8, W32, false, 0, (register 7), 0xff7f_017f, 0), // fs mov edi,0xff7f017f
    case!([0xf0, 0x64, 0x43, 0x0f, 0xb6, 0x5c, 0x25, 0x00], 8, Movzx, Movzx0FB6, W32, true, 3, (memory 13 12 1 0 4), 0, 0), // lock movzx ebx,BYTE PTR fs:[r13+r12*1+0x0]
    case!([0x42, 0x0f, 0xb7, 0x04, 0xa0], 5, Movzx, Movzx0FB7, W32, false, 0, (memory 0 12 4 0 0), 0, 0), // movzx eax,WORD PTR [rax+r12*4]
    case!([0x65, 0x66, 0x49, 0x0f, 0xbe, 0x2d, 0xfc, 0xff, 0xff, 0xff], 10, Movsx, Movsx0FBE, W64, false, 5, (next 0xffff_ffff_ffff_fffc 5), 0, 0), // data16 movsx rbp,BYTE PTR gs:[rip+0xfffffffffffffffc]
    case!([0x41, 0x0f, 0xbf, 0x14, 0x5d, 0x01, 0x02, 0x03, 0x04], 9, Movsx, Movsx0FBF, W32, false, 2, (memory _ 3 2 0x403_0201 0), 0, 0), // movsx edx,WORD PTR [rbx*2+0x4030201]
    case!([0x64, 0x4c, 0x63, 0xbc, 0x24, 0x44, 0x33, 0x22, 0x11], 9, Movsxd, Movsxd63, W64, false, 15, (memory 4 _ 1 0x1122_3344 4), 0, 0), // movsxd r15,DWORD PTR fs:[rsp+0x11223344]
    case!([0xf0, 0x64, 0x8d, 0x67, 0x80], 5, Lea, Lea8D, W32, true, 4, (memory 7 _ 1 0xffff_ffff_ffff_ff80 4), 0, 0), // lock lea esp,fs:[rdi-0x80]
    case!([0x4c, 0x86, 0xcf], 3, Xchg, Xchg86, W8, false, 9, (register 7), 0, 0), // rex.WR xchg dil,r9b
    case!([0x65, 0x66, 0x40, 0x87, 0xf4], 5, Xchg, Xchg87, W16, false, 6, (register 4), 0, 0), // gs rex xchg sp,si
    case!([0x41, 0x90], 2, Xchg, Xchg90, W32, false, 0, (register 8), 0, 0), // xchg r8d,eax
    case!([0x64, 0x95], 2, Xchg, Xchg91, W32, false, 0, (register 5), 0, 0), // fs xchg ebp,eax
    case!([0xf0, 0x64, 0x49, 0x0f, 0xb0, 0xee], 6, Cmpxchg, Cmpxchg0FB0, W8, true, 5, (register 14), 0, 0), // lock fs rex.WB cmpxchg r14b,bpl
    case!([0x0f, 0xb1, 0x10], 3, Cmpxchg, Cmpxchg0FB1, W32, false, 2, (memory 0 _ 1 0 0), 0, 0), // cmpxchg DWORD PTR [rax],edx
    case!([0x65, 0x44, 0x0f, 0xc0, 0x3d, 0x78, 0x56, 0x34, 0x12], 9, Xadd, Xadd0FC0, W8, false, 15, (next 0x1234_5678 5), 0, 0), // xadd BYTE PTR gs:[rip+0x12345678],r15b
    case!([0x0f, 0xc1, 0x63, 0xf8], 4, Xadd, Xadd0FC1, W32, false, 4, (memory 3 _ 1 0xffff_ffff_ffff_fff8 0), 0, 0), // xadd DWORD PTR [rbx-0x8],esp
    case!([0x64, 0x4d, 0x0f, 0xba, 0xa5, 0x10, 0x00, 0x00, 0x80, 0x80], 10, Bt, Bt0FBA, W64, false, 0, (memory 13 _ 1 0xffff_ffff_8000_0010 4), 0x80, 0), // rex.WRB bt QWORD PTR fs:[r13-0x7ffffff0],0x80
    case!([0xf0, 0x64, 0x0f, 0xba, 0x2c, 0x88, 0x01], 7, Bts, Bts0FBA, W32, true, 0, (memory 0 1 4 0 4), 1, 0), // lock bts DWORD PTR fs:[rax+rcx*4],0x1
    case!([0x0f, 0xba, 0x34, 0x24, 0x7f], 5, Btr, Btr0FBA, W32, false, 0, (memory 4 _ 1 0 0), 0x7f, 0), // btr DWORD PTR [rsp],0x7f
    case!([0x65, 0x66, 0x0f, 0xba, 0x3c, 0xcd, 0x00, 0x10, 0x00, 0x00, 0x7f], 11, Btc, Btc0FBA, W16, false, 0, (memory _ 1 8 0x1000 5), 0x7f, 0), // btc WORD PTR gs:[rcx*8+0x1000],0x7f
    case!([0x48, 0x0f, 0xa3, 0xec], 4, Bt, Bt0FA3, W64, false, 5, (register 4), 0, 0), // bt rsp,rbp
    case!([0x64, 0x0f, 0xab, 0xd4], 4, Bts, Bts0FAB, W32, false, 2, (register 4), 0, 0), // fs bts esp,edx
    case!([0xf0, 0x64, 0x47, 0x0f, 0xb3, 0xfc], 6, Btr, Btr0FB3, W32, true, 15, (register 12), 0, 0), // lock fs rex.RXB btr r12d,r15d
    case!([0x42, 0x0f, 0xbb, 0xe4], 4, Btc, Btc0FBB, W32, false, 4, (register 4), 0, 0), // rex.X btc esp,esp
    case!([0x65, 0x4c, 0x56], 3, Push, Push50, W64, false, 0, (register 6), 0, 0), // gs rex.WR push rsi
    case!([0x41, 0xff, 0x34, 0x5d, 0x01, 0x02, 0x03, 0x04], 8, Push, PushFF, W64, false, 0, (memory _ 3 2 0x403_0201 0), 0, 0), // push QWORD PTR [rbx*2+0x4030201]
    case!([0x64, 0x68, 0x7f, 0x80, 0x80, 0x7f], 6, Push, Push68, W64, false, 0, (none), 0x7f80_807f, 0), // fs push 0x7f80807f
    case!([0xf0, 0x64, 0x6a, 0x80], 4, Push, Push6A, W64, true, 0, (none), 0xffff_ffff_ffff_ff80, 0), // lock fs push 0xffffffffffffff80
    case!([0x48, 0x5a], 2, Pop, Pop58, W64, false, 0, (register 2), 0, 0), // rex.W pop rdx
    case!([0x65, 0x40, 0x8f, 0xc4], 4, Pop, Pop8F, W64, false, 0, (register 4), 0, 0), // gs rex pop rsp
    case!([0x44, 0xe8, 0xa5, 0x80, 0x01, 0xff], 6, Call, CallE8, W64, false, 0, (none), 0xffff_ffff_ff01_80a5, 0), // rex.R call
    case!([0x64, 0xff, 0xd5], 3, Call, CallFF, W64, false, 0, (register 5), 0, 0), // fs call rbp
    case!([0xf0, 0x64, 0x4c, 0xc3], 4, Ret, RetC3, W64, true, 0, (none), 0, 0), // lock fs rex.WR ret
    case!([0xc2, 0x7f, 0x01], 3, Ret, RetC2, W64, false, 0, (none), 0x17f, 0), // ret 0x17f
    case!([0x65, 0xe9, 0xa5, 0x01, 0x01, 0x80], 6, Jmp, JmpE9, W64, false, 0, (none), 0xffff_ffff_8001_01a5, 0), // gs jmp
    case!([0xeb, 0xa5], 2, Jmp, JmpEB, W64, false, 0, (none), 0xffff_ffff_ffff_ffa5, 0), // jmp
    case!([0x64, 0x49, 0xff, 0xa5, 0x10, 0x00, 0x00, 0x80], 8, Jmp, JmpFF, W64, false, 0, (memory 13 _ 1 0xffff_ffff_8000_0010 4), 0, 0), // rex.WB jmp QWORD PTR fs:[r13-0x7ffffff0]
    case!([0xf0, 0x64, 0x7b, 0x7f], 4, Jcc, Jcc70, W64, true, 0, (none), 0x7f, 11), // lock fs jnp
    case!([0x44, 0x0f, 0x8c, 0xff, 0x80, 0xa5, 0x7f], 7, Jcc, Jcc0F80, W64, false, 0, (none), 0x7fa5_80ff, 12), // rex.R jl
    case!([0x65, 0x0f, 0x9d, 0x24, 0xcd, 0x00, 0x10, 0x00, 0x00], 9, Setcc, Setcc0F90, W8, false, 0, (memory _ 1 8 0x1000 5), 0, 13), // setge BYTE PTR gs:[rcx*8+0x1000]
    case!([0x4c, 0x0f, 0x4e, 0x0c, 0x25, 0xf0, 0xff, 0xff, 0xff], 9, Cmovcc, Cmovcc0F40, W64, false, 9, (memory _ _ 1 0xffff_ffff_ffff_fff0 0), 0, 14), // cmovle r9,QWORD PTR ds:0xfffffffffffffff0
    case!([0x64, 0xc9], 2, Leave, LeaveC9, W64, false, 0, (none), 0, 0), // fs leave
    case!([0xf0, 0x64, 0x98], 3, Cbw, Cbw98, W32, true, 0, (none), 0, 0), // lock fs cwde
    case!([0x99], 1, Cwd, Cwd99, W32, false, 0, (none), 0, 0), // cdq
    case!([0x65, 0x48, 0xf8], 3, Clc, ClcF8, W8, false, 0, (none), 0, 0), // gs rex.W clc
    case!([0xf9], 1, Stc, StcF9, W8, false, 0, (none), 0, 0), // stc
    case!([0x64, 0x44, 0xf5], 3, Cmc, CmcF5, W8, false, 0, (none), 0, 0), // fs rex.R cmc
    case!([0xf0, 0x64, 0xfc], 3, Cld, CldFC, W8, true, 0, (none), 0, 0), // lock fs cld
    case!([0x4c, 0xfd], 2, Std, StdFD, W8, false, 0, (none), 0, 0), // rex.WR std
    case!([0x65, 0x66, 0x90], 3, Nop, Nop90, W16, false, 0, (none), 0, 0), // gs xchg ax,ax
    case!([0x0f, 0x1f, 0xc3], 3, Nop, Nop0F1F, W32, false, 0, (register 3), 0, 0), // nop ebx
    case!([0x64, 0x0f, 0xae, 0xe8], 4, Lfence, Lfence0FAEE8, W8, false, 0, (none), 0, 0), // fs lfence
    case!([0xf0, 0x64, 0x49, 0x0f, 0xae, 0xf0], 6, Mfence, Mfence0FAEF0, W8, true, 0, (none), 0, 0), // lock fs rex.WB mfence
    case!([0x0f, 0xae, 0xf8], 3, Sfence, Sfence0FAEF8, W8, false, 0, (none), 0, 0), // sfence
    case!([0x65, 0xf3, 0x90], 3, Pause, PauseF390, W8, false, 0, (none), 0, 0), // gs pause
    case!([0xf4], 1, Hlt, HltF4, W8, false, 0, (none), 0, 0), // hlt
    case!([0x64, 0x4c, 0x0f, 0x0b], 4, Ud2, Ud20F0B, W8, false, 0, (none), 0, 0), // fs rex.WR ud2
    case!([0xf0, 0x64, 0xfa], 3, Cli, CliFA, W8, true, 0, (none), 0, 0), // lock fs cli
    case!([0xfb], 1, Sti, StiFB, W8, false, 0, (none), 0, 0), // sti
    case!([0x65, 0x9c], 2, Pushfq, Pushfq9C, W8, false, 0, (none), 0, 0), // gs pushf
    case!([0x48, 0x9d], 2, Popfq, Popfq9D, W8, false, 0, (none), 0, 0), // rex.W popf
    case!([0x64, 0xcc], 2, Int3, Int3CC, W8, false, 0, (none), 0, 0), // fs int3
    case!([0xf0, 0x64, 0x44, 0xcd, 0x01], 5, Int, IntCD, W8, true, 0, (none), 1, 0), // lock fs rex.R int 0x1
    case!([0x48, 0xcf], 2, Iretq, IretqCF, W8, false, 0, (none), 0, 0), // iretq
    case!([0x65, 0x66, 0x4c, 0xe4, 0x80], 5, In, InE4, W8, false, 0, (none), 0x80, 0), // gs data16 rex.WR in al,0x80
    case!([0xe5, 0xff], 2, In, InE5, W32, false, 0, (none), 0xff, 0), // in eax,0xff
    case!([0x64, 0xec], 2, In, InEC, W8, false, 0, (none), 0, 0), // fs in al,dx
    case!([0xf0, 0x64, 0xed], 3, In, InED, W32, true, 0, (none), 0, 0), // lock fs in eax,dx
    case!([0x48, 0xe6, 0xa5], 3, Out, OutE6, W8, false, 0, (none), 0xa5, 0), // rex.W out 0xa5,al
    case!([0x65, 0x66, 0xe7, 0xff], 4, Out, OutE7, W16, false, 0, (none), 0xff, 0), // gs out 0xff,ax
    case!([0x44, 0xee], 2, Out, OutEE, W8, false, 0, (none), 0, 0), // rex.R out dx,al
    case!([0x64, 0xef], 2, Out, OutEF, W32, false, 0, (none), 0, 0), // fs out dx,eax
    case!([0xf0, 0x64, 0x49, 0x0f, 0x20, 0xde], 6, MovCr, MovCr0F20, W64, true, 3, (register 14), 0, 0), // lock fs rex.WB mov r14,cr3
    case!([0x0f, 0x22, 0xe0], 3, MovCr, MovCr0F22, W64, false, 4, (register 0), 0, 0), // mov cr4,rax
    case!([0x65, 0x0f, 0x21, 0xf5], 4, MovDr, MovDr0F21, W64, false, 6, (register 5), 0, 0), // gs mov rbp,dr6
    case!([0x0f, 0x23, 0xfb], 3, MovDr, MovDr0F23, W64, false, 7, (register 3), 0, 0), // mov dr7,rbx
    case!([0x64, 0x48, 0x0f, 0x32], 4, Rdmsr, Rdmsr0F32, W8, false, 0, (none), 0, 0), // fs rex.W rdmsr
    case!([0xf0, 0x64, 0x0f, 0x30], 4, Wrmsr, Wrmsr0F30, W8, true, 0, (none), 0, 0), // lock fs wrmsr
    case!([0x44, 0x0f, 0xa2], 3, Cpuid, Cpuid0FA2, W8, false, 0, (none), 0, 0), // rex.R cpuid
    case!([0x65, 0x0f, 0x31], 3, Rdtsc, Rdtsc0F31, W8, false, 0, (none), 0, 0), // gs rdtsc
    case!([0x4c, 0x0f, 0x01, 0x14, 0x25, 0xf0, 0xff, 0xff, 0xff], 9, Lgdt, Lgdt0F01, W8, false, 0, (memory _ _ 1 0xffff_ffff_ffff_fff0 0), 0, 0), // rex.WR lgdt ds:0xfffffffffffffff0
    case!([0x64, 0x0f, 0x01, 0x5c, 0x4d, 0x7f], 6, Lidt, Lidt0F01, W8, false, 0, (memory 5 1 2 0x7f 4), 0, 0), // lidt fs:[rbp+rcx*2+0x7f]
    case!([0xf0, 0x64, 0x43, 0x0f, 0x01, 0x7c, 0x25, 0x00], 8, Invlpg, Invlpg0F01, W8, true, 0, (memory 13 12 1 0 4), 0, 0), // lock invlpg BYTE PTR fs:[r13+r12*1+0x0]
    case!([0x42, 0x0f, 0x01, 0xf8], 4, Swapgs, Swapgs0F01F8, W8, false, 0, (none), 0, 0), // rex.X swapgs
    case!([0x65, 0x49, 0x0f, 0x01, 0xd8], 5, Vmrun, Vmrun0F01D8, W8, false, 0, (none), 0, 0), // gs rex.WB vmrun
    case!([0x41, 0x0f, 0x01, 0xd9], 4, Vmmcall, Vmmcall0F01D9, W8, false, 0, (none), 0, 0), // rex.B vmmcall
    case!([0x64, 0x44, 0x0f, 0x01, 0xda], 5, Vmload, Vmload0F01DA, W8, false, 0, (none), 0, 0), // fs rex.R vmload
    case!([0xf0, 0x64, 0x0f, 0x01, 0xdb], 5, Vmsave, Vmsave0F01DB, W8, true, 0, (none), 0, 0), // lock fs vmsave
    case!([0x4c, 0x0f, 0x01, 0xdc], 4, Stgi, Stgi0F01DC, W8, false, 0, (none), 0, 0), // rex.WR stgi
    case!([0x65, 0x40, 0x0f, 0x01, 0xdd], 5, Clgi, Clgi0F01DD, W8, false, 0, (none), 0, 0), // gs rex clgi
    case!([0x0f, 0x01, 0xdf], 3, Invlpga, Invlpga0F01DF, W8, false, 0, (none), 0, 0), // invlpga
    case!([0x88, 0xe7], 2, Mov, Mov88, W8, false, 16, (high 3), 0, 0), // mov bh,ah
    case!([0x40, 0x8a, 0xe7], 3, Mov, Mov8A, W8, false, 4, (register 7), 0, 0), // mov spl,dil
    case!([0x88, 0xee], 2, Mov, Mov88, W8, false, 17, (high 2), 0, 0), // mov dh,ch
    case!([0x40, 0x8a, 0xee], 3, Mov, Mov8A, W8, false, 5, (register 6), 0, 0), // mov bpl,sil
    case!([0x88, 0xf5], 2, Mov, Mov88, W8, false, 18, (high 1), 0, 0), // mov ch,dh
    case!([0x40, 0x8a, 0xf5], 3, Mov, Mov8A, W8, false, 6, (register 5), 0, 0), // mov sil,bpl
    case!([0x88, 0xfc], 2, Mov, Mov88, W8, false, 19, (high 0), 0, 0), // mov ah,bh
    case!([0x40, 0x8a, 0xfc], 3, Mov, Mov8A, W8, false, 7, (register 4), 0, 0), // mov dil,spl
    case!([0xb1, 0xa5], 2, Mov, MovB0, W8, false, 0, (register 1), 0xa5, 0), // mov cl,0xa5
    case!([0x41, 0xb1, 0x7f], 3, Mov, MovB0, W8, false, 0, (register 9), 0x7f, 0), // mov r9b,0x7f
    case!([0xb3, 0xa5], 2, Mov, MovB0, W8, false, 0, (register 3), 0xa5, 0), // mov bl,0xa5
    case!([0x40, 0xb3, 0x7f], 3, Mov, MovB0, W8, false, 0, (register 3), 0x7f, 0), // rex mov bl,0x7f
    case!([0xb5, 0xff], 2, Mov, MovB0, W8, false, 0, (high 1), 0xff, 0), // mov ch,0xff
    case!([0x41, 0xb5, 0x80], 3, Mov, MovB0, W8, false, 0, (register 13), 0x80, 0), // mov r13b,0x80
    case!([0xb7, 0x80], 2, Mov, MovB0, W8, false, 0, (high 3), 0x80, 0), // mov bh,0x80
    case!([0x40, 0xb7, 0x7f], 3, Mov, MovB0, W8, false, 0, (register 7), 0x7f, 0), // mov dil,0x7f
    case!([0x44, 0x8b, 0x10], 3, Mov, Mov8B, W32, false, 10, (memory 0 _ 1 0 0), 0, 0), // mov r10d,DWORD PTR [rax]
    case!([0x48, 0x8b, 0x1d, 0x78, 0x56, 0x34, 0x12], 7, Mov, Mov8B, W64, false, 3, (next 0x1234_5678 0), 0, 0), // mov rbx,QWORD PTR [rip+0x12345678]
    case!([0x64, 0x44, 0x8b, 0x63, 0xf8], 5, Mov, Mov8B, W32, false, 12, (memory 3 _ 1 0xffff_ffff_ffff_fff8 4), 0, 0), // mov r12d,DWORD PTR fs:[rbx-0x8]
    case!([0x49, 0x8b, 0xad, 0x10, 0x00, 0x00, 0x80], 7, Mov, Mov8B, W64, false, 5, (memory 13 _ 1 0xffff_ffff_8000_0010 0), 0, 0), // mov rbp,QWORD PTR [r13-0x7ffffff0]
    case!([0x44, 0x8b, 0x34, 0x88], 4, Mov, Mov8B, W32, false, 14, (memory 0 1 4 0 0), 0, 0), // mov r14d,DWORD PTR [rax+rcx*4]
    case!([0x48, 0x8b, 0x3c, 0x24], 4, Mov, Mov8B, W64, false, 7, (memory 4 _ 1 0 0), 0, 0), // mov rdi,QWORD PTR [rsp]
    case!([0x64, 0x44, 0x8b, 0x04, 0xcd, 0x00, 0x10, 0x00, 0x00], 9, Mov, Mov8B, W32, false, 8, (memory _ 1 8 0x1000 4), 0, 0), // mov r8d,DWORD PTR fs:[rcx*8+0x1000]
    case!([0x48, 0x8b, 0x0c, 0x25, 0xf0, 0xff, 0xff, 0xff], 8, Mov, Mov8B, W64, false, 1, (memory _ _ 1 0xffff_ffff_ffff_fff0 0), 0, 0), // mov rcx,QWORD PTR ds:0xfffffffffffffff0
    case!([0x44, 0x8b, 0x54, 0x4d, 0x7f], 5, Mov, Mov8B, W32, false, 10, (memory 5 1 2 0x7f 0), 0, 0), // mov r10d,DWORD PTR [rbp+rcx*2+0x7f]
    case!([0x4b, 0x8b, 0x5c, 0x25, 0x00], 5, Mov, Mov8B, W64, false, 3, (memory 13 12 1 0 0), 0, 0), // mov rbx,QWORD PTR [r13+r12*1+0x0]
    case!([0x64, 0x46, 0x8b, 0x24, 0xa0], 5, Mov, Mov8B, W32, false, 12, (memory 0 12 4 0 4), 0, 0), // mov r12d,DWORD PTR fs:[rax+r12*4]
    case!([0x49, 0x8b, 0x2d, 0xfc, 0xff, 0xff, 0xff], 7, Mov, Mov8B, W64, false, 5, (next 0xffff_ffff_ffff_fffc 0), 0, 0), // mov rbp,QWORD PTR [rip+0xfffffffffffffffc]
    case!([0x45, 0x8b, 0x34, 0x5d, 0x01, 0x02, 0x03, 0x04], 8, Mov, Mov8B, W32, false, 14, (memory _ 3 2 0x403_0201 0), 0, 0), // mov r14d,DWORD PTR [rbx*2+0x4030201]
    case!([0x48, 0x8b, 0xbc, 0x24, 0x44, 0x33, 0x22, 0x11], 8, Mov, Mov8B, W64, false, 7, (memory 4 _ 1 0x1122_3344 0), 0, 0), // mov rdi,QWORD PTR [rsp+0x11223344]
    case!([0x64, 0x44, 0x8b, 0x47, 0x80], 5, Mov, Mov8B, W32, false, 8, (memory 7 _ 1 0xffff_ffff_ffff_ff80 4), 0, 0), // mov r8d,DWORD PTR fs:[rdi-0x80]
    case!([0x00, 0xc3], 2, Add, Arithmetic00, W8, false, 0, (register 3), 0, 0), // add bl,al
    case!([0x80, 0xc3, 0xff], 3, Add, Arithmetic80, W8, false, 0, (register 3), 0xff, 0), // add bl,0xff
    case!([0x48, 0x09, 0x08], 3, Or, Arithmetic01, W64, false, 1, (memory 0 _ 1 0 0), 0, 0), // or QWORD PTR [rax],rcx
    case!([0x66, 0x81, 0x0c, 0x88, 0x7f, 0x01], 6, Or, Arithmetic81, W16, false, 0, (memory 0 1 4 0 0), 0x17f, 0), // or WORD PTR [rax+rcx*4],0x17f
    case!([0x41, 0x12, 0x95, 0x10, 0x00, 0x00, 0x80], 7, Adc, Arithmetic02, W8, false, 2, (memory 13 _ 1 0xffff_ffff_8000_0010 0), 0, 0), // adc dl,BYTE PTR [r13-0x7ffffff0]
    case!([0x66, 0x41, 0x83, 0x15, 0xfc, 0xff, 0xff, 0xff, 0x01], 9, Adc, Arithmetic83, W16, false, 0, (next 0xffff_ffff_ffff_fffc 0), 1, 0), // adc WORD PTR [rip+0xfffffffffffffffc],0x1
    case!([0x48, 0x1b, 0x1c, 0xcd, 0x00, 0x10, 0x00, 0x00], 8, Sbb, Arithmetic03, W64, false, 3, (memory _ 1 8 0x1000 0), 0, 0), // sbb rbx,QWORD PTR [rcx*8+0x1000]
    case!([0x48, 0x80, 0xdd, 0xff], 4, Sbb, Arithmetic80, W8, false, 0, (register 5), 0xff, 0), // rex.W sbb bpl,0xff
    case!([0x24, 0x7f], 2, And, Arithmetic04, W8, false, 0, (register 0), 0x7f, 0), // and al,0x7f
    case!([0x66, 0x81, 0x24, 0x24, 0x01, 0x01], 6, And, Arithmetic81, W16, false, 0, (memory 4 _ 1 0 0), 0x101, 0), // and WORD PTR [rsp],0x101
    case!([0x48, 0x2d, 0xff, 0x01, 0xa5, 0xa5], 6, Sub, Arithmetic05, W64, false, 0, (register 0), 0xffff_ffff_a5a5_01ff, 0), // sub rax,0xffffffffa5a501ff
    case!([0x66, 0x41, 0x83, 0x2c, 0x5d, 0x01, 0x02, 0x03, 0x04, 0x80], 10, Sub, Arithmetic83, W16, false, 0, (memory _ 3 2 0x403_0201 0), 0xff80, 0), // sub WORD PTR [rbx*2+0x4030201],0xff80
    case!([0x30, 0xf7], 2, Xor, Arithmetic00, W8, false, 18, (high 3), 0, 0), // xor bh,dh
    case!([0x41, 0x80, 0xf6, 0xff], 4, Xor, Arithmetic80, W8, false, 0, (register 14), 0xff, 0), // xor r14b,0xff
    case!([0x48, 0x39, 0xfd], 3, Cmp, Arithmetic01, W64, false, 7, (register 5), 0, 0), // cmp rbp,rdi
    case!([0x66, 0x81, 0x3c, 0xcd, 0x00, 0x10, 0x00, 0x00, 0xa5, 0xa5], 10, Cmp, Arithmetic81, W16, false, 0, (memory _ 1 8 0x1000 0), 0xa5a5, 0), // cmp WORD PTR [rcx*8+0x1000],0xa5a5
    case!([0x70, 0x7f], 2, Jcc, Jcc70, W64, false, 0, (none), 0x7f, 0), // jo
    case!([0x0f, 0x80, 0xff, 0x01, 0xff, 0x80], 6, Jcc, Jcc0F80, W64, false, 0, (none), 0xffff_ffff_80ff_01ff, 0), // jo
    case!([0x0f, 0x90, 0xc3], 3, Setcc, Setcc0F90, W8, false, 0, (register 3), 0, 0), // seto bl
    case!([0x0f, 0x40, 0xc3], 3, Cmovcc, Cmovcc0F40, W32, false, 0, (register 3), 0, 0), // cmovo eax,ebx
    case!([0x75, 0x80], 2, Jcc, Jcc70, W64, false, 0, (none), 0xffff_ffff_ffff_ff80, 5), // jne
    case!([0x0f, 0x85, 0x80, 0x7f, 0x01, 0x01], 6, Jcc, Jcc0F80, W64, false, 0, (none), 0x101_7f80, 5), // jne
    case!([0x0f, 0x95, 0x6b, 0xf8], 4, Setcc, Setcc0F90, W8, false, 0, (memory 3 _ 1 0xffff_ffff_ffff_fff8 0), 0, 5), // setne BYTE PTR [rbx-0x8]
    case!([0x0f, 0x45, 0x6b, 0xf8], 4, Cmovcc, Cmovcc0F40, W32, false, 5, (memory 3 _ 1 0xffff_ffff_ffff_fff8 0), 0, 5), // cmovne ebp,DWORD PTR [rbx-0x8]
    case!([0x7a, 0x7f], 2, Jcc, Jcc70, W64, false, 0, (none), 0x7f, 10), // jp
    case!([0x0f, 0x8a, 0xff, 0x7f, 0xa5, 0x01], 6, Jcc, Jcc0F80, W64, false, 0, (none), 0x1a5_7fff, 10), // jp
    case!([0x0f, 0x9a, 0x14, 0x25, 0xf0, 0xff, 0xff, 0xff], 8, Setcc, Setcc0F90, W8, false, 0, (memory _ _ 1 0xffff_ffff_ffff_fff0 0), 0, 10), // setp BYTE PTR ds:0xfffffffffffffff0
    case!([0x66, 0x0f, 0x4a, 0x14, 0x25, 0xf0, 0xff, 0xff, 0xff], 9, Cmovcc, Cmovcc0F40, W16, false, 2, (memory _ _ 1 0xffff_ffff_ffff_fff0 0), 0, 10), // cmovp dx,WORD PTR ds:0xfffffffffffffff0
    case!([0x7f, 0x01], 2, Jcc, Jcc70, W64, false, 0, (none), 1, 15), // jg
    case!([0x0f, 0x8f, 0xa5, 0xff, 0x7f, 0x80], 6, Jcc, Jcc0F80, W64, false, 0, (none), 0xffff_ffff_807f_ffa5, 15), // jg
    case!([0x41, 0x0f, 0x9f, 0x3c, 0x5d, 0x01, 0x02, 0x03, 0x04], 9, Setcc, Setcc0F90, W8, false, 0, (memory _ 3 2 0x403_0201 0), 0, 15), // setg BYTE PTR [rbx*2+0x4030201]
    case!([0x41, 0x0f, 0x4f, 0x3c, 0x5d, 0x01, 0x02, 0x03, 0x04], 9, Cmovcc, Cmovcc0F40, W32, false, 7, (memory _ 3 2 0x403_0201 0), 0, 15), // cmovg edi,DWORD PTR [rbx*2+0x4030201]
    case!([0x41, 0xba, 0x80, 0x01, 0xff, 0x80], 6, Mov, MovB8, W32, false, 0, (register 10), 0x80ff_0180, 0), // mov r10d,0x80ff0180
    case!([0x66, 0xbb, 0x80, 0x01], 4, Mov, MovB8, W16, false, 0, (register 3), 0x180, 0), // mov bx,0x180
    case!([0x49, 0xbc, 0x01, 0x01, 0x01, 0xa5, 0x7f, 0xff, 0x80, 0xff], 10, Mov, MovB8, W64, false, 0, (register 12), 0xff80_ff7f_a501_0101, 0), // movabs r12,0xff80ff7fa5010101
    case!([0x0f, 0xb6, 0xcd], 3, Movzx, Movzx0FB6, W32, false, 1, (high 1), 0, 0), // movzx ecx,ch
    case!([0x66, 0x40, 0x0f, 0xb6, 0xf5], 5, Movzx, Movzx0FB6, W16, false, 6, (register 5), 0, 0), // movzx si,bpl
    case!([0x4d, 0x0f, 0xb6, 0xd5], 4, Movzx, Movzx0FB6, W64, false, 10, (register 13), 0, 0), // movzx r10,r13b
    case!([0x0f, 0xbe, 0xcd], 3, Movsx, Movsx0FBE, W32, false, 1, (high 1), 0, 0), // movsx ecx,ch
    case!([0x66, 0x40, 0x0f, 0xbe, 0xf5], 5, Movsx, Movsx0FBE, W16, false, 6, (register 5), 0, 0), // movsx si,bpl
    case!([0x4d, 0x0f, 0xbe, 0xd5], 4, Movsx, Movsx0FBE, W64, false, 10, (register 13), 0, 0), // movsx r10,r13b
    case!([0x66, 0xf0, 0x64, 0x48, 0x81, 0x84, 0x88, 0x01, 0x02, 0x03, 0x04, 0x05, 0x06, 0x07, 0x08], 15, Add, Arithmetic81, W64, true, 0, (memory 0 1 4 0x403_0201 4), 0x807_0605, 0), // data16 lock add QWORD PTR fs:[rax+rcx*4+0x4030201],0x8070605
    case!([0xf0, 0x66, 0x65, 0x48, 0x83, 0x84, 0x80, 0x78, 0x56, 0x34, 0x12, 0xff], 12, Add, Arithmetic83, W64, true, 0, (memory 0 0 4 0x1234_5678 5), 0xffff_ffff_ffff_ffff, 0), // lock data16 add QWORD PTR gs:[rax+rax*4+0x12345678],0xffffffffffffffff
    case!([0x64, 0xf0, 0x66, 0xc7, 0x84, 0x91, 0x44, 0x33, 0x22, 0x11, 0xa5, 0xa5], 12, Mov, MovC7, W16, true, 0, (memory 1 2 4 0x1122_3344 4), 0xa5a5, 0), // lock mov WORD PTR fs:[rcx+rdx*4+0x11223344],0xa5a5
    case!([0x44, 0x0f, 0x20, 0xc0], 4, MovCr, MovCr0F20, W64, false, 8, (register 0), 0, 0), // mov rax,cr8
    case!([0x44, 0x0f, 0x22, 0xc7], 4, MovCr, MovCr0F22, W64, false, 8, (register 7), 0, 0), // mov cr8,rdi
    case!([0x4c, 0x0f, 0xc1, 0xc8], 4, Xadd, Xadd0FC1, W64, false, 9, (register 0), 0, 0), // xadd rax,r9
    case!([0x0f, 0x22, 0x01], 3, MovCr, MovCr0F22, W64, false, 0, (register 1), 0, 0), // mov cr0,rcx
    case!([0x0f, 0x21, 0xb4], 3, MovDr, MovDr0F21, W64, false, 6, (register 4), 0, 0), // mov rsp,dr6
    case!([0x0f, 0x23, 0x7f], 3, MovDr, MovDr0F23, W64, false, 7, (register 7), 0, 0), // mov dr7,rdi
    case!([0x66, 0x98], 2, Cbw, Cbw98, W16, false, 0, (none), 0, 0), // cbw
    case!([0x48, 0x98], 2, Cbw, Cbw98, W64, false, 0, (none), 0, 0), // cdqe
    case!([0x66, 0x99], 2, Cwd, Cwd99, W16, false, 0, (none), 0, 0), // cwd
    case!([0x48, 0x99], 2, Cwd, Cwd99, W64, false, 0, (none), 0, 0), // cqo
    case!([0x66, 0x90], 2, Nop, Nop90, W16, false, 0, (none), 0, 0), // xchg ax,ax
    case!([0x48, 0x90], 2, Nop, Nop90, W64, false, 0, (none), 0, 0), // rex.W nop
    case!([0x49, 0x90], 2, Xchg, Xchg90, W64, false, 0, (register 8), 0, 0), // xchg r8,rax
    case!([0x49, 0x91], 2, Xchg, Xchg91, W64, false, 0, (register 9), 0, 0), // xchg r9,rax
    case!([0x66, 0x97], 2, Xchg, Xchg91, W16, false, 0, (register 7), 0, 0), // xchg di,ax
    case!([0x41, 0x6a, 0x80], 3, Push, Push6A, W64, false, 0, (none), 0xffff_ffff_ffff_ff80, 0), // rex.B push 0xffffffffffffff80
    case!([0x4c, 0x63, 0xff], 3, Movsxd, Movsxd63, W64, false, 15, (register 7), 0, 0), // movsxd r15,edi
    case!([0x66, 0x65, 0x48, 0x63, 0x0c, 0x24], 6, Movsxd, Movsxd63, W64, false, 1, (memory 4 _ 1 0 5), 0, 0), // movsxd rcx,DWORD PTR gs:[rsp]
    case!([0x66, 0x0f, 0x1f, 0x44, 0x00, 0x00], 6, Nop, Nop0F1F, W16, false, 0, (memory 0 0 1 0 0), 0, 0), // nop WORD PTR [rax+rax*1+0x0]
    case!([0x0f, 0x1f, 0x80, 0x00, 0x00, 0x00, 0x00], 7, Nop, Nop0F1F, W32, false, 0, (memory 0 _ 1 0 0), 0, 0), // nop DWORD PTR [rax+0x0]
    case!([0x0f, 0x92, 0xc5], 3, Setcc, Setcc0F90, W8, false, 0, (high 1), 0, 2), // setb ch
    case!([0x40, 0x0f, 0x92, 0xc5], 4, Setcc, Setcc0F90, W8, false, 0, (register 5), 0, 2), // setb bpl
    case!([0x44, 0x0f, 0x94, 0xd5], 4, Setcc, Setcc0F90, W8, false, 0, (register 5), 0, 4), // rex.R sete bpl
    case!([0x66, 0xe4, 0x64], 3, In, InE4, W8, false, 0, (none), 0x64, 0), // data16 in al,0x64
    case!([0x66, 0xe6, 0xfe], 3, Out, OutE6, W8, false, 0, (none), 0xfe, 0), // data16 out 0xfe,al
    case!([0x66, 0xec], 2, In, InEC, W8, false, 0, (none), 0, 0), // data16 in al,dx
    case!([0x66, 0xee], 2, Out, OutEE, W8, false, 0, (none), 0, 0), // data16 out dx,al
    case!([0x66, 0xe5, 0x10], 3, In, InE5, W16, false, 0, (none), 0x10, 0), // in ax,0x10
    case!([0x66, 0xed], 2, In, InED, W16, false, 0, (none), 0, 0), // in ax,dx
    case!([0x66, 0xef], 2, Out, OutEF, W16, false, 0, (none), 0, 0), // out dx,ax
    case!([0x48, 0xed], 2, In, InED, W32, false, 0, (none), 0, 0), // rex.W in eax,dx
    case!([0x48, 0xe7, 0x33], 3, Out, OutE7, W32, false, 0, (none), 0x33, 0), // rex.W out 0x33,eax
];

// The bytes with which no form goes on, by volume 3's opcode maps and the list of forms.
#[rattlefmt::skip]
const STOPS: [Stop; 80] = [
    // A second prefix of one kind, a prefix after REX, and REX after REX.
    stop!([0x66, 0x66], 0x66),
    stop!([0xf0, 0xf0], 0xf0),
    stop!([0x64, 0x64], 0x64),
    stop!([0x64, 0x65], 0x65),
    stop!([0x65, 0x64, 0xf4], 0x64),
    stop!([0x48, 0x66, 0x01, 0xc0], 0x66),
    stop!([0x48, 0xf0], 0xf0),
    stop!([0x48, 0x64], 0x64),
    stop!([0x48, 0x48], 0x48),
    stop!([0x40, 0x4f, 0x90], 0x4f),
    // Opcodes that no form has.
    stop!([0x0f, 0xff], 0xff),
    stop!([0x0f, 0x05], 0x05),
    stop!([0x06], 0x06),
    stop!([0x27], 0x27),
    stop!([0x60], 0x60),
    stop!([0x82, 0xc0, 0x01], 0x82),
    stop!([0x9b], 0x9b),
    stop!([0xc5], 0xc5),
    stop!([0xf1], 0xf1),
    stop!([0xf2], 0xf2),
    stop!([0x2e, 0x90], 0x2e),
    stop!([0x67], 0x67),
    // F3h stands before 90h alone, with nothing between, and without 66h.
    stop!([0xf3, 0x48, 0x90], 0x48),
    stop!([0xf3, 0x0f], 0x0f),
    stop!([0xf3, 0xf3], 0xf3),
    stop!([0x66, 0xf3, 0x90], 0xf3),
    stop!([0xf3, 0x66, 0x90], 0x66),
    // 66h stands only with forms of operand size, and with IN and OUT.
    stop!([0x66, 0xf6], 0xf6),
    stop!([0x66, 0x00], 0x00),
    stop!([0x66, 0x50], 0x50),
    stop!([0x66, 0xc3], 0xc3),
    stop!([0x66, 0xe8], 0xe8),
    stop!([0x66, 0x70], 0x70),
    stop!([0x66, 0xf4], 0xf4),
    stop!([0x66, 0x0f, 0x90], 0x90),
    stop!([0x66, 0x0f, 0x84], 0x84),
    stop!([0x66, 0x0f, 0x01], 0x01),
    stop!([0x66, 0x0f, 0x20], 0x20),
    stop!([0x66, 0xff, 0x37], 0x37),
    stop!([0x66, 0xff, 0x17], 0x17),
    // What the REX prefix has to be: REX.W for MOVSXD, 48h for IRETQ, no REX.R for MOV DR.
    stop!([0x63], 0x63),
    stop!([0x66, 0x63], 0x63),
    stop!([0x47, 0x63], 0x63),
    stop!([0xcf], 0xcf),
    stop!([0x49, 0xcf], 0xcf),
    stop!([0x4c, 0xcf], 0xcf),
    stop!([0x66, 0xcf], 0xcf),
    stop!([0x44, 0x0f, 0x21], 0x21),
    stop!([0x4c, 0x0f, 0x23], 0x23),
    // ModRM bytes that no form of the opcode has.
    stop!([0x8d, 0xc0], 0xc0),
    stop!([0x48, 0x8d, 0xff], 0xff),
    stop!([0xf6, 0xc8], 0xc8),
    stop!([0xf7, 0xcf], 0xcf),
    stop!([0xfe, 0xd0], 0xd0),
    stop!([0xff, 0xd8], 0xd8),
    stop!([0xff, 0xf8], 0xf8),
    stop!([0xd0, 0xd0], 0xd0),
    stop!([0xc1, 0xf0], 0xf0),
    stop!([0xd3, 0xd9], 0xd9),
    stop!([0xc6, 0xc8], 0xc8),
    stop!([0xc7, 0x08], 0x08),
    stop!([0x8f, 0xc8], 0xc8),
    stop!([0x0f, 0x1f, 0xc8], 0xc8),
    stop!([0x0f, 0xba, 0xc0], 0xc0),
    stop!([0x0f, 0xa3, 0x00], 0x00),
    stop!([0x0f, 0xbb, 0x04], 0x04),
    stop!([0x0f, 0xae, 0xe9], 0xe9),
    stop!([0x0f, 0xae, 0x00], 0x00),
    stop!([0x0f, 0x01, 0xd0], 0xd0),
    stop!([0x0f, 0x01, 0xde], 0xde),
    stop!([0x0f, 0x01, 0xff], 0xff),
    stop!([0x0f, 0x01, 0xf9], 0xf9),
    stop!([0x0f, 0x01, 0x00], 0x00),
    stop!([0x0f, 0x01, 0x20], 0x20),
    stop!([0x0f, 0x20, 0xc8], 0xc8),
    stop!([0x44, 0x0f, 0x20, 0xc8], 0xc8),
    stop!([0x44, 0x0f, 0x20, 0xd0], 0xd0),
    stop!([0x0f, 0x22, 0xe8], 0xe8),
    stop!([0x0f, 0x21, 0xc0], 0xc0),
    stop!([0x0f, 0x23, 0xe0], 0xe0),
];

/// Whether each proper front of an instruction of this length wants more bytes.
fn waits_before(bytes: &[u8], length: u8) -> bool {
    for count in 0..usize::from(length) {
        let Some(front) = bytes.get(..count) else {
            return false;
        };
        if decode(front) != Decoded::More {
            return false;
        }
    }
    true
}

/// The first case that decodes to something else, or to a row before its last byte.
fn first_wrong(cases: &[Case]) -> Option<&Case> {
    for case in cases {
        let row = Decoded::Row {
            row: case.row,
            length: case.length,
        };
        if decode(&case.bytes) != row || !waits_before(&case.bytes, case.length) {
            return Some(case);
        }
    }
    None
}

/// The first stop that is not Unlisted at its byte.
fn first_listed(stops: &[Stop]) -> Option<&Stop> {
    for stop in stops {
        if decode(&stop.bytes) != (Decoded::Unlisted { byte: stop.byte }) {
            return Some(stop);
        }
    }
    None
}

#[test]
fn decodes_as_objdump_does(rt: HostRuntime) {
    if let Some(case) = first_wrong(&ROWS) {
        panic!(rt; "{:?}", case.bytes);
    }
    if let Some(stop) = first_listed(&STOPS) {
        panic!(rt; "{:?}", stop.bytes);
    }
    assert_eq!(rt; decode(&[]), Decoded::More);
    assert_eq!(rt; decode(&[0x48]), Decoded::More);
    assert_eq!(rt; decode(&[0x0f]), Decoded::More);
    assert_eq!(rt; decode(&[0x48, 0xf3]), Decoded::More);
}
