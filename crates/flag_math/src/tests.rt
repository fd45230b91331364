// Results and flags as a real processor gives them.
//
// A C program with one instruction of inline assembly a row (ADC, SBB, AND, OR, XOR, ROL, ROR, SHL, SHR, SAR, MUL, IMUL,
// DIV, IDIV) printed the values and the status bits of RFLAGS on an Intel Xeon; Err(NoQuotient) is its #DE. Flags that
// the manual leaves undefined have the value before the instruction here: AF of logic and shifts, OF of counts other
// than 1, and SF, ZF, AF and PF of multiplications.
use crate::width::modulus;
use crate::{add, divide, flags_in, logic, multiply, shift, sub, with_flags};
use std::process::Abort;
use svm_model::LogicKind::{self, And, Or, Xor};
use svm_model::NoQuotient;
use svm_model::ShiftKind::{self, Rol, Ror, Sar, Shl, Shr};
use svm_model::Width::{self, W8, W16, W32, W64};

/// Left, right and carry; the sum and RFLAGS.
#[rattlefmt::skip]
const SUMS: [(Width, u64, u64, bool, u64, u64); 28] = [
    (W8, 0x7f, 1, false, 0x80, 0x890),
    (W8, 0xff, 0, true, 0, 0x55),
    (W8, 0x80, 0x80, false, 0, 0x845),
    (W8, 0x7f, 0x80, true, 0, 0x55),
    (W8, 0xf, 0, true, 0x10, 0x10),
    (W8, 0x80, 0xff, true, 0x80, 0x91),
    (W8, 3, 4, false, 7, 0),
    (W16, 0x7fff, 1, false, 0x8000, 0x894),
    (W16, 0xffff, 0, true, 0, 0x55),
    (W16, 0x8000, 0x8000, false, 0, 0x845),
    (W16, 0x7fff, 0x8000, true, 0, 0x55),
    (W16, 0xf, 0, true, 0x10, 0x10),
    (W16, 0x8000, 0xffff, true, 0x8000, 0x95),
    (W16, 3, 4, false, 7, 0),
    (W32, 0x7fff_ffff, 1, false, 0x8000_0000, 0x894),
    (W32, 0xffff_ffff, 0, true, 0, 0x55),
    (W32, 0x8000_0000, 0x8000_0000, false, 0, 0x845),
    (W32, 0x7fff_ffff, 0x8000_0000, true, 0, 0x55),
    (W32, 0xf, 0, true, 0x10, 0x10),
    (W32, 0x8000_0000, 0xffff_ffff, true, 0x8000_0000, 0x95),
    (W32, 3, 4, false, 7, 0),
    (W64, 0x7fff_ffff_ffff_ffff, 1, false, 0x8000_0000_0000_0000, 0x894),
    (W64, 0xffff_ffff_ffff_ffff, 0, true, 0, 0x55),
    (W64, 0x8000_0000_0000_0000, 0x8000_0000_0000_0000, false, 0, 0x845),
    (W64, 0x7fff_ffff_ffff_ffff, 0x8000_0000_0000_0000, true, 0, 0x55),
    (W64, 0xf, 0, true, 0x10, 0x10),
    (W64, 0x8000_0000_0000_0000, 0xffff_ffff_ffff_ffff, true, 0x8000_0000_0000_0000, 0x95),
    (W64, 3, 4, false, 7, 0),
];

/// Left, right and borrow; the difference and RFLAGS.
#[rattlefmt::skip]
const DIFFERENCES: [(Width, u64, u64, bool, u64, u64); 28] = [
    (W8, 0, 1, false, 0xff, 0x95),
    (W8, 0x80, 1, false, 0x7f, 0x810),
    (W8, 0x7f, 0xff, false, 0x80, 0x881),
    (W8, 0, 0xff, true, 0, 0x55),
    (W8, 0x10, 0, true, 0xf, 0x14),
    (W8, 5, 5, false, 0, 0x44),
    (W8, 0x80, 0x7f, true, 0, 0x854),
    (W16, 0, 1, false, 0xffff, 0x95),
    (W16, 0x8000, 1, false, 0x7fff, 0x814),
    (W16, 0x7fff, 0xffff, false, 0x8000, 0x885),
    (W16, 0, 0xffff, true, 0, 0x55),
    (W16, 0x10, 0, true, 0xf, 0x14),
    (W16, 5, 5, false, 0, 0x44),
    (W16, 0x8000, 0x7fff, true, 0, 0x854),
    (W32, 0, 1, false, 0xffff_ffff, 0x95),
    (W32, 0x8000_0000, 1, false, 0x7fff_ffff, 0x814),
    (W32, 0x7fff_ffff, 0xffff_ffff, false, 0x8000_0000, 0x885),
    (W32, 0, 0xffff_ffff, true, 0, 0x55),
    (W32, 0x10, 0, true, 0xf, 0x14),
    (W32, 5, 5, false, 0, 0x44),
    (W32, 0x8000_0000, 0x7fff_ffff, true, 0, 0x854),
    (W64, 0, 1, false, 0xffff_ffff_ffff_ffff, 0x95),
    (W64, 0x8000_0000_0000_0000, 1, false, 0x7fff_ffff_ffff_ffff, 0x814),
    (W64, 0x7fff_ffff_ffff_ffff, 0xffff_ffff_ffff_ffff, false, 0x8000_0000_0000_0000, 0x885),
    (W64, 0, 0xffff_ffff_ffff_ffff, true, 0, 0x55),
    (W64, 0x10, 0, true, 0xf, 0x14),
    (W64, 5, 5, false, 0, 0x44),
    (W64, 0x8000_0000_0000_0000, 0x7fff_ffff_ffff_ffff, true, 0, 0x854),
];

/// Left, right and RFLAGS before; the result and RFLAGS.
#[rattlefmt::skip]
const LOGIC: [(Width, LogicKind, u64, u64, u64, u64, u64); 24] = [
    (W8, And, 0x8f, 0x83, 0x8d5, 0x83, 0x90),
    (W8, And, 0x7f, 0x80, 0, 0, 0x44),
    (W8, Or, 0x80, 1, 0x11, 0x81, 0x94),
    (W8, Or, 0, 0, 0x801, 0, 0x44),
    (W8, Xor, 0xff, 0xff, 0x8d5, 0, 0x54),
    (W8, Xor, 0xff, 0xd4, 0, 0x2b, 4),
    (W16, And, 0x800f, 0x8003, 0x8d5, 0x8003, 0x94),
    (W16, And, 0x7fff, 0x8000, 0, 0, 0x44),
    (W16, Or, 0x8000, 1, 0x11, 0x8001, 0x90),
    (W16, Or, 0, 0, 0x801, 0, 0x44),
    (W16, Xor, 0xffff, 0xffff, 0x8d5, 0, 0x54),
    (W16, Xor, 0xffff, 0x8054, 0, 0x7fab, 0),
    (W32, And, 0x8000_000f, 0x8000_0003, 0x8d5, 0x8000_0003, 0x94),
    (W32, And, 0x7fff_ffff, 0x8000_0000, 0, 0, 0x44),
    (W32, Or, 0x8000_0000, 1, 0x11, 0x8000_0001, 0x90),
    (W32, Or, 0, 0, 0x801, 0, 0x44),
    (W32, Xor, 0xffff_ffff, 0xffff_ffff, 0x8d5, 0, 0x54),
    (W32, Xor, 0xffff_ffff, 0x8000_0054, 0, 0x7fff_ffab, 0),
    (W64, And, 0x8000_0000_0000_000f, 0x8000_0000_0000_0003, 0x8d5, 0x8000_0000_0000_0003, 0x94),
    (W64, And, 0x7fff_ffff_ffff_ffff, 0x8000_0000_0000_0000, 0, 0, 0x44),
    (W64, Or, 0x8000_0000_0000_0000, 1, 0x11, 0x8000_0000_0000_0001, 0x90),
    (W64, Or, 0, 0, 0x801, 0, 0x44),
    (W64, Xor, 0xffff_ffff_ffff_ffff, 0xffff_ffff_ffff_ffff, 0x8d5, 0, 0x54),
    (W64, Xor, 0xffff_ffff_ffff_ffff, 0x8000_0000_0000_0054, 0, 0x7fff_ffff_ffff_ffab, 0),
];

/// Operand, count and RFLAGS before; the result and RFLAGS.
#[rattlefmt::skip]
const SHIFTS: [(Width, ShiftKind, u64, u8, u64, u64, u64); 130] = [
    (W8, Rol, 0x81, 1, 0, 3, 0x801),
    (W8, Rol, 0x42, 1, 0x8d5, 0x84, 0x8d4),
    (W8, Rol, 0xb5, 4, 0x810, 0x5b, 0x811),
    (W8, Rol, 0x83, 7, 0, 0xc1, 1),
    (W8, Rol, 0x81, 32, 0x8d5, 0x81, 0x8d5),
    (W8, Rol, 0x81, 8, 0, 0x81, 1),
    (W8, Rol, 0x85, 11, 0x8d5, 0x2c, 0x8d4),
    (W8, Ror, 0x81, 1, 0x8d5, 0xc0, 0xd5),
    (W8, Ror, 0x42, 1, 0x8d5, 0x21, 0xd4),
    (W8, Ror, 0xb5, 4, 0x810, 0x5b, 0x810),
    (W8, Ror, 0x83, 7, 0, 7, 0),
    (W8, Ror, 0x81, 32, 0x8d5, 0x81, 0x8d5),
    (W8, Ror, 0x81, 8, 0, 0x81, 1),
    (W8, Ror, 0x85, 11, 0x8d5, 0xb0, 0x8d5),
    (W8, Shl, 0x81, 1, 0, 2, 0x801),
    (W8, Shl, 0x42, 1, 0x8d5, 0x84, 0x894),
    (W8, Shl, 0xb5, 4, 0x810, 0x50, 0x815),
    (W8, Shl, 0x83, 7, 0, 0x80, 0x81),
    (W8, Shl, 0x81, 32, 0x8d5, 0x81, 0x8d5),
    (W8, Shl, 0x81, 8, 0, 0, 0x45),
    (W8, Shl, 0x85, 11, 0x8d5, 0, 0x854),
    (W8, Shr, 0x81, 1, 0x8d5, 0x40, 0x811),
    (W8, Shr, 0x42, 1, 0x8d5, 0x21, 0x14),
    (W8, Shr, 0xb5, 4, 0x810, 0xb, 0x810),
    (W8, Shr, 0x83, 7, 0, 1, 0),
    (W8, Shr, 0x81, 32, 0x8d5, 0x81, 0x8d5),
    (W8, Shr, 0x81, 8, 0, 0, 0x45),
    (W8, Shr, 0x85, 11, 0x8d5, 0, 0x854),
    (W8, Sar, 0x81, 1, 0, 0xc0, 0x85),
    (W8, Sar, 0x42, 1, 0x8d5, 0x21, 0x14),
    (W8, Sar, 0xb5, 4, 0x810, 0xfb, 0x890),
    (W8, Sar, 0x83, 7, 0, 0xff, 0x84),
    (W8, Sar, 0x81, 32, 0x8d5, 0x81, 0x8d5),
    (W8, Sar, 0x81, 8, 0, 0xff, 0x85),
    (W8, Sar, 0x85, 11, 0x8d5, 0xff, 0x895),
    (W16, Rol, 0x8001, 1, 0, 3, 0x801),
    (W16, Rol, 0x4002, 1, 0x8d5, 0x8004, 0x8d4),
    (W16, Rol, 0x8035, 4, 0x810, 0x358, 0x810),
    (W16, Rol, 0x8003, 15, 0, 0xc001, 1),
    (W16, Rol, 0x8001, 32, 0x8d5, 0x8001, 0x8d5),
    (W16, Rol, 0x8001, 16, 0, 0x8001, 1),
    (W16, Rol, 0x8005, 19, 0x8d5, 0x2c, 0x8d4),
    (W16, Ror, 0x8001, 1, 0x8d5, 0xc000, 0xd5),
    (W16, Ror, 0x4002, 1, 0x8d5, 0x2001, 0xd4),
    (W16, Ror, 0x8035, 4, 0x810, 0x5803, 0x810),
    (W16, Ror, 0x8003, 15, 0, 7, 0),
    (W16, Ror, 0x8001, 32, 0x8d5, 0x8001, 0x8d5),
    (W16, Ror, 0x8001, 16, 0, 0x8001, 1),
    (W16, Ror, 0x8005, 19, 0x8d5, 0xb000, 0x8d5),
    (W16, Shl, 0x8001, 1, 0, 2, 0x801),
    (W16, Shl, 0x4002, 1, 0x8d5, 0x8004, 0x890),
    (W16, Shl, 0x8035, 4, 0x810, 0x350, 0x814),
    (W16, Shl, 0x8003, 15, 0, 0x8000, 0x85),
    (W16, Shl, 0x8001, 32, 0x8d5, 0x8001, 0x8d5),
    (W16, Shl, 0x8001, 16, 0, 0, 0x45),
    (W16, Shl, 0x8005, 19, 0x8d5, 0, 0x854),
    (W16, Shr, 0x8001, 1, 0x8d5, 0x4000, 0x815),
    (W16, Shr, 0x4002, 1, 0x8d5, 0x2001, 0x10),
    (W16, Shr, 0x8035, 4, 0x810, 0x803, 0x814),
    (W16, Shr, 0x8003, 15, 0, 1, 0),
    (W16, Shr, 0x8001, 32, 0x8d5, 0x8001, 0x8d5),
    (W16, Shr, 0x8001, 16, 0, 0, 0x45),
    (W16, Shr, 0x8005, 19, 0x8d5, 0, 0x854),
    (W16, Sar, 0x8001, 1, 0, 0xc000, 0x85),
    (W16, Sar, 0x4002, 1, 0x8d5, 0x2001, 0x10),
    (W16, Sar, 0x8035, 4, 0x810, 0xf803, 0x894),
    (W16, Sar, 0x8003, 15, 0, 0xffff, 0x84),
    (W16, Sar, 0x8001, 32, 0x8d5, 0x8001, 0x8d5),
    (W16, Sar, 0x8001, 16, 0, 0xffff, 0x85),
    (W16, Sar, 0x8005, 19, 0x8d5, 0xffff, 0x895),
    (W32, Rol, 0x8000_0001, 1, 0, 3, 0x801),
    (W32, Rol, 0x4000_0002, 1, 0x8d5, 0x8000_0004, 0x8d4),
    (W32, Rol, 0x8000_0035, 4, 0x810, 0x358, 0x810),
    (W32, Rol, 0x8000_0003, 31, 0, 0xc000_0001, 1),
    (W32, Rol, 0x8000_0001, 32, 0x8d5, 0x8000_0001, 0x8d5),
    (W32, Rol, 0x8000_0011, 255, 0, 0xc000_0008, 0),
    (W32, Ror, 0x8000_0001, 1, 0x8d5, 0xc000_0000, 0xd5),
    (W32, Ror, 0x4000_0002, 1, 0x8d5, 0x2000_0001, 0xd4),
    (W32, Ror, 0x8000_0035, 4, 0x810, 0x5800_0003, 0x810),
    (W32, Ror, 0x8000_0003, 31, 0, 7, 0),
    (W32, Ror, 0x8000_0001, 32, 0x8d5, 0x8000_0001, 0x8d5),
    (W32, Ror, 0x8000_0011, 255, 0, 0x23, 0),
    (W32, Shl, 0x8000_0001, 1, 0, 2, 0x801),
    (W32, Shl, 0x4000_0002, 1, 0x8d5, 0x8000_0004, 0x890),
    (W32, Shl, 0x8000_0035, 4, 0x810, 0x350, 0x814),
    (W32, Shl, 0x8000_0003, 31, 0, 0x8000_0000, 0x85),
    (W32, Shl, 0x8000_0001, 32, 0x8d5, 0x8000_0001, 0x8d5),
    (W32, Shl, 0x8000_0011, 255, 0, 0x8000_0000, 0x84),
    (W32, Shr, 0x8000_0001, 1, 0x8d5, 0x4000_0000, 0x815),
    (W32, Shr, 0x4000_0002, 1, 0x8d5, 0x2000_0001, 0x10),
    (W32, Shr, 0x8000_0035, 4, 0x810, 0x800_0003, 0x814),
    (W32, Shr, 0x8000_0003, 31, 0, 1, 0),
    (W32, Shr, 0x8000_0001, 32, 0x8d5, 0x8000_0001, 0x8d5),
    (W32, Shr, 0x8000_0011, 255, 0, 1, 0),
    (W32, Sar, 0x8000_0001, 1, 0, 0xc000_0000, 0x85),
    (W32, Sar, 0x4000_0002, 1, 0x8d5, 0x2000_0001, 0x10),
    (W32, Sar, 0x8000_0035, 4, 0x810, 0xf800_0003, 0x894),
    (W32, Sar, 0x8000_0003, 31, 0, 0xffff_ffff, 0x84),
    (W32, Sar, 0x8000_0001, 32, 0x8d5, 0x8000_0001, 0x8d5),
    (W32, Sar, 0x8000_0011, 255, 0, 0xffff_ffff, 0x84),
    (W64, Rol, 0x8000_0000_0000_0001, 1, 0, 3, 0x801),
    (W64, Rol, 0x4000_0000_0000_0002, 1, 0x8d5, 0x8000_0000_0000_0004, 0x8d4),
    (W64, Rol, 0x8000_0000_0000_0035, 4, 0x810, 0x358, 0x810),
    (W64, Rol, 0x8000_0000_0000_0003, 63, 0, 0xc000_0000_0000_0001, 1),
    (W64, Rol, 0x8000_0000_0000_0001, 64, 0x8d5, 0x8000_0000_0000_0001, 0x8d5),
    (W64, Rol, 0x8000_0000_0000_0011, 255, 0, 0xc000_0000_0000_0008, 0),
    (W64, Ror, 0x8000_0000_0000_0001, 1, 0x8d5, 0xc000_0000_0000_0000, 0xd5),
    (W64, Ror, 0x4000_0000_0000_0002, 1, 0x8d5, 0x2000_0000_0000_0001, 0xd4),
    (W64, Ror, 0x8000_0000_0000_0035, 4, 0x810, 0x5800_0000_0000_0003, 0x810),
    (W64, Ror, 0x8000_0000_0000_0003, 63, 0, 7, 0),
    (W64, Ror, 0x8000_0000_0000_0001, 64, 0x8d5, 0x8000_0000_0000_0001, 0x8d5),
    (W64, Ror, 0x8000_0000_0000_0011, 255, 0, 0x23, 0),
    (W64, Shl, 0x8000_0000_0000_0001, 1, 0, 2, 0x801),
    (W64, Shl, 0x4000_0000_0000_0002, 1, 0x8d5, 0x8000_0000_0000_0004, 0x890),
    (W64, Shl, 0x8000_0000_0000_0035, 4, 0x810, 0x350, 0x814),
    (W64, Shl, 0x8000_0000_0000_0003, 63, 0, 0x8000_0000_0000_0000, 0x85),
    (W64, Shl, 0x8000_0000_0000_0001, 64, 0x8d5, 0x8000_0000_0000_0001, 0x8d5),
    (W64, Shl, 0x8000_0000_0000_0011, 255, 0, 0x8000_0000_0000_0000, 0x84),
    (W64, Shr, 0x8000_0000_0000_0001, 1, 0x8d5, 0x4000_0000_0000_0000, 0x815),
    (W64, Shr, 0x4000_0000_0000_0002, 1, 0x8d5, 0x2000_0000_0000_0001, 0x10),
    (W64, Shr, 0x8000_0000_0000_0035, 4, 0x810, 0x800_0000_0000_0003, 0x814),
    (W64, Shr, 0x8000_0000_0000_0003, 63, 0, 1, 0),
    (W64, Shr, 0x8000_0000_0000_0001, 64, 0x8d5, 0x8000_0000_0000_0001, 0x8d5),
    (W64, Shr, 0x8000_0000_0000_0011, 255, 0, 1, 0),
    (W64, Sar, 0x8000_0000_0000_0001, 1, 0, 0xc000_0000_0000_0000, 0x85),
    (W64, Sar, 0x4000_0000_0000_0002, 1, 0x8d5, 0x2000_0000_0000_0001, 0x10),
    (W64, Sar, 0x8000_0000_0000_0035, 4, 0x810, 0xf800_0000_0000_0003, 0x894),
    (W64, Sar, 0x8000_0000_0000_0003, 63, 0, 0xffff_ffff_ffff_ffff, 0x84),
    (W64, Sar, 0x8000_0000_0000_0001, 64, 0x8d5, 0x8000_0000_0000_0001, 0x8d5),
    (W64, Sar, 0x8000_0000_0000_0011, 255, 0, 0xffff_ffff_ffff_ffff, 0x84),
];

/// Signed or not, left, right and RFLAGS before; the low half, the high half and RFLAGS.
#[rattlefmt::skip]
const PRODUCTS: [(Width, bool, u64, u64, u64, u64, u64, u64); 56] = [
    (W8, false, 0xff, 0xff, 0x8d5, 1, 0xfe, 0x8d5),
    (W8, false, 0x80, 2, 0, 0, 1, 0x801),
    (W8, false, 0x80, 0xff, 0, 0x80, 0x7f, 0x801),
    (W8, false, 0x40, 2, 0x55, 0x80, 0, 0x54),
    (W8, false, 0xff, 2, 0xd4, 0xfe, 1, 0x8d5),
    (W8, false, 0x80, 0x80, 0, 0, 0x40, 0x801),
    (W8, true, 0xff, 0xff, 0x8d5, 1, 0, 0xd4),
    (W8, true, 0x80, 2, 0, 0, 0xff, 0x801),
    (W8, true, 0x80, 0xff, 0, 0x80, 0, 0x801),
    (W8, true, 0x40, 2, 0x55, 0x80, 0, 0x855),
    (W8, true, 0xff, 2, 0xd4, 0xfe, 0xff, 0xd4),
    (W8, true, 0x80, 0x80, 0, 0, 0x40, 0x801),
    (W8, true, 0x7f, 0x80, 0, 0x80, 0xc0, 0x801),
    (W8, true, 0, 0xff, 0x8d5, 0, 0, 0xd4),
    (W16, false, 0xffff, 0xffff, 0x8d5, 1, 0xfffe, 0x8d5),
    (W16, false, 0x8000, 2, 0, 0, 1, 0x801),
    (W16, false, 0x8000, 0xffff, 0, 0x8000, 0x7fff, 0x801),
    (W16, false, 0x4000, 2, 0x55, 0x8000, 0, 0x54),
    (W16, false, 0xffff, 2, 0xd4, 0xfffe, 1, 0x8d5),
    (W16, false, 0x8000, 0x8000, 0, 0, 0x4000, 0x801),
    (W16, true, 0xffff, 0xffff, 0x8d5, 1, 0, 0xd4),
    (W16, true, 0x8000, 2, 0, 0, 0xffff, 0x801),
    (W16, true, 0x8000, 0xffff, 0, 0x8000, 0, 0x801),
    (W16, true, 0x4000, 2, 0x55, 0x8000, 0, 0x855),
    (W16, true, 0xffff, 2, 0xd4, 0xfffe, 0xffff, 0xd4),
    (W16, true, 0x8000, 0x8000, 0, 0, 0x4000, 0x801),
    (W16, true, 0x7fff, 0x8000, 0, 0x8000, 0xc000, 0x801),
    (W16, true, 0, 0xffff, 0x8d5, 0, 0, 0xd4),
    (W32, false, 0xffff_ffff, 0xffff_ffff, 0x8d5, 1, 0xffff_fffe, 0x8d5),
    (W32, false, 0x8000_0000, 2, 0, 0, 1, 0x801),
    (W32, false, 0x8000_0000, 0xffff_ffff, 0, 0x8000_0000, 0x7fff_ffff, 0x801),
    (W32, false, 0x4000_0000, 2, 0x55, 0x8000_0000, 0, 0x54),
    (W32, false, 0xffff_ffff, 2, 0xd4, 0xffff_fffe, 1, 0x8d5),
    (W32, false, 0x8000_0000, 0x8000_0000, 0, 0, 0x4000_0000, 0x801),
    (W32, true, 0xffff_ffff, 0xffff_ffff, 0x8d5, 1, 0, 0xd4),
    (W32, true, 0x8000_0000, 2, 0, 0, 0xffff_ffff, 0x801),
    (W32, true, 0x8000_0000, 0xffff_ffff, 0, 0x8000_0000, 0, 0x801),
    (W32, true, 0x4000_0000, 2, 0x55, 0x8000_0000, 0, 0x855),
    (W32, true, 0xffff_ffff, 2, 0xd4, 0xffff_fffe, 0xffff_ffff, 0xd4),
    (W32, true, 0x8000_0000, 0x8000_0000, 0, 0, 0x4000_0000, 0x801),
    (W32, true, 0x7fff_ffff, 0x8000_0000, 0, 0x8000_0000, 0xc000_0000, 0x801),
    (W32, true, 0, 0xffff_ffff, 0x8d5, 0, 0, 0xd4),
    (W64, false, 0xffff_ffff_ffff_ffff, 0xffff_ffff_ffff_ffff, 0x8d5, 1, 0xffff_ffff_ffff_fffe, 0x8d5),
    (W64, false, 0x8000_0000_0000_0000, 2, 0, 0, 1, 0x801),
    (W64, false, 0x8000_0000_0000_0000, 0xffff_ffff_ffff_ffff, 0, 0x8000_0000_0000_0000, 0x7fff_ffff_ffff_ffff, 0x801),
    (W64, false, 0x4000_0000_0000_0000, 2, 0x55, 0x8000_0000_0000_0000, 0, 0x54),
    (W64, false, 0xffff_ffff_ffff_ffff, 2, 0xd4, 0xffff_ffff_ffff_fffe, 1, 0x8d5),
    (W64, false, 0x8000_0000_0000_0000, 0x8000_0000_0000_0000, 0, 0, 0x4000_0000_0000_0000, 0x801),
    (W64, true, 0xffff_ffff_ffff_ffff, 0xffff_ffff_ffff_ffff, 0x8d5, 1, 0, 0xd4),
    (W64, true, 0x8000_0000_0000_0000, 2, 0, 0, 0xffff_ffff_ffff_ffff, 0x801),
    (W64, true, 0x8000_0000_0000_0000, 0xffff_ffff_ffff_ffff, 0, 0x8000_0000_0000_0000, 0, 0x801),
    (W64, true, 0x4000_0000_0000_0000, 2, 0x55, 0x8000_0000_0000_0000, 0, 0x855),
    (W64, true, 0xffff_ffff_ffff_ffff, 2, 0xd4, 0xffff_ffff_ffff_fffe, 0xffff_ffff_ffff_ffff, 0xd4),
    (W64, true, 0x8000_0000_0000_0000, 0x8000_0000_0000_0000, 0, 0, 0x4000_0000_0000_0000, 0x801),
    (W64, true, 0x7fff_ffff_ffff_ffff, 0x8000_0000_0000_0000, 0, 0x8000_0000_0000_0000, 0xc000_0000_0000_0000, 0x801),
    (W64, true, 0, 0xffff_ffff_ffff_ffff, 0x8d5, 0, 0, 0xd4),
];

/// Signed or not, high half, low half and divisor; the quotient and the remainder.
#[rattlefmt::skip]
const DIVISIONS: [(Width, bool, u64, u64, u64, Result<(u64, u64), NoQuotient>); 60] = [
    (W8, false, 1, 0, 1, Err(NoQuotient)),
    (W8, false, 0, 7, 0, Err(NoQuotient)),
    (W8, false, 4, 3, 5, Ok((0xcd, 2))),
    (W8, false, 0xfe, 0xff, 0xff, Ok((0xff, 0xfe))),
    (W8, false, 0xff, 0, 0xff, Err(NoQuotient)),
    (W8, true, 0xff, 0xf9, 2, Ok((0xfd, 0xff))),
    (W8, true, 0, 7, 0xfe, Ok((0xfd, 1))),
    (W8, true, 0xff, 0x80, 0xff, Err(NoQuotient)),
    (W8, true, 0xff, 0x80, 1, Ok((0x80, 0))),
    (W8, true, 0, 0x80, 0xff, Ok((0x80, 0))),
    (W8, true, 0, 0x80, 1, Err(NoQuotient)),
    (W8, true, 0x80, 0, 0xff, Err(NoQuotient)),
    (W8, true, 0xff, 0xf9, 0, Err(NoQuotient)),
    (W8, true, 0x40, 0, 0x80, Ok((0x80, 0))),
    (W8, true, 0xff, 0xf9, 0xfe, Ok((3, 0xff))),
    (W16, false, 1, 0, 1, Err(NoQuotient)),
    (W16, false, 0, 7, 0, Err(NoQuotient)),
    (W16, false, 4, 3, 5, Ok((0xcccd, 2))),
    (W16, false, 0xfffe, 0xffff, 0xffff, Ok((0xffff, 0xfffe))),
    (W16, false, 0xffff, 0, 0xffff, Err(NoQuotient)),
    (W16, true, 0xffff, 0xfff9, 2, Ok((0xfffd, 0xffff))),
    (W16, true, 0, 7, 0xfffe, Ok((0xfffd, 1))),
    (W16, true, 0xffff, 0x8000, 0xffff, Err(NoQuotient)),
    (W16, true, 0xffff, 0x8000, 1, Ok((0x8000, 0))),
    (W16, true, 0, 0x8000, 0xffff, Ok((0x8000, 0))),
    (W16, true, 0, 0x8000, 1, Err(NoQuotient)),
    (W16, true, 0x8000, 0, 0xffff, Err(NoQuotient)),
    (W16, true, 0xffff, 0xfff9, 0, Err(NoQuotient)),
    (W16, true, 0x4000, 0, 0x8000, Ok((0x8000, 0))),
    (W16, true, 0xffff, 0xfff9, 0xfffe, Ok((3, 0xffff))),
    (W32, false, 1, 0, 1, Err(NoQuotient)),
    (W32, false, 0, 7, 0, Err(NoQuotient)),
    (W32, false, 4, 3, 5, Ok((0xcccc_cccd, 2))),
    (W32, false, 0xffff_fffe, 0xffff_ffff, 0xffff_ffff, Ok((0xffff_ffff, 0xffff_fffe))),
    (W32, false, 0xffff_ffff, 0, 0xffff_ffff, Err(NoQuotient)),
    (W32, true, 0xffff_ffff, 0xffff_fff9, 2, Ok((0xffff_fffd, 0xffff_ffff))),
    (W32, true, 0, 7, 0xffff_fffe, Ok((0xffff_fffd, 1))),
    (W32, true, 0xffff_ffff, 0x8000_0000, 0xffff_ffff, Err(NoQuotient)),
    (W32, true, 0xffff_ffff, 0x8000_0000, 1, Ok((0x8000_0000, 0))),
    (W32, true, 0, 0x8000_0000, 0xffff_ffff, Ok((0x8000_0000, 0))),
    (W32, true, 0, 0x8000_0000, 1, Err(NoQuotient)),
    (W32, true, 0x8000_0000, 0, 0xffff_ffff, Err(NoQuotient)),
    (W32, true, 0xffff_ffff, 0xffff_fff9, 0, Err(NoQuotient)),
    (W32, true, 0x4000_0000, 0, 0x8000_0000, Ok((0x8000_0000, 0))),
    (W32, true, 0xffff_ffff, 0xffff_fff9, 0xffff_fffe, Ok((3, 0xffff_ffff))),
    (W64, false, 1, 0, 1, Err(NoQuotient)),
    (W64, false, 0, 7, 0, Err(NoQuotient)),
    (W64, false, 4, 3, 5, Ok((0xcccc_cccc_cccc_cccd, 2))),
    (W64, false, 0xffff_ffff_ffff_fffe, 0xffff_ffff_ffff_ffff, 0xffff_ffff_ffff_ffff, Ok((0xffff_ffff_ffff_ffff, 0xffff_ffff_ffff_fffe))),
    (W64, false, 0xffff_ffff_ffff_ffff, 0, 0xffff_ffff_ffff_ffff, Err(NoQuotient)),
    (W64, true, 0xffff_ffff_ffff_ffff, 0xffff_ffff_ffff_fff9, 2, Ok((0xffff_ffff_ffff_fffd, 0xffff_ffff_ffff_ffff))),
    (W64, true, 0, 7, 0xffff_ffff_ffff_fffe, Ok((0xffff_ffff_ffff_fffd, 1))),
    (W64, true, 0xffff_ffff_ffff_ffff, 0x8000_0000_0000_0000, 0xffff_ffff_ffff_ffff, Err(NoQuotient)),
    (W64, true, 0xffff_ffff_ffff_ffff, 0x8000_0000_0000_0000, 1, Ok((0x8000_0000_0000_0000, 0))),
    (W64, true, 0, 0x8000_0000_0000_0000, 0xffff_ffff_ffff_ffff, Ok((0x8000_0000_0000_0000, 0))),
    (W64, true, 0, 0x8000_0000_0000_0000, 1, Err(NoQuotient)),
    (W64, true, 0x8000_0000_0000_0000, 0, 0xffff_ffff_ffff_ffff, Err(NoQuotient)),
    (W64, true, 0xffff_ffff_ffff_ffff, 0xffff_ffff_ffff_fff9, 0, Err(NoQuotient)),
    (W64, true, 0x4000_0000_0000_0000, 0, 0x8000_0000_0000_0000, Ok((0x8000_0000_0000_0000, 0))),
    (W64, true, 0xffff_ffff_ffff_ffff, 0xffff_ffff_ffff_fff9, 0xffff_ffff_ffff_fffe, Ok((3, 0xffff_ffff_ffff_ffff))),
];

#[test]
fn agrees_with_a_processor(rt: HostRuntime) {
    sums(&rt, &SUMS);
    differences(&rt, &DIFFERENCES);
    logics(&rt, &LOGIC);
    shifts(&rt, &SHIFTS);
    products(&rt, &PRODUCTS);
    divisions(&rt, &DIVISIONS);
}

fn sums<R: Abort>(rt: &R, rows: &[(Width, u64, u64, bool, u64, u64)]) {
    for &(width, left, right, carry, value, rflags) in rows {
        assert!(rt; u128::from(left) < modulus(width));
        assert!(rt; u128::from(right) < modulus(width));
        let (sum, flags) = add(width, left, right, carry);
        assert_eq!(rt;
            (sum, with_flags(0, flags)),
            (value, rflags),
            "{width:?} {left:x} {right:x} {carry}"
        );
    }
}

fn differences<R: Abort>(rt: &R, rows: &[(Width, u64, u64, bool, u64, u64)]) {
    for &(width, left, right, borrow, value, rflags) in rows {
        assert!(rt; u128::from(left) < modulus(width));
        assert!(rt; u128::from(right) < modulus(width));
        let (difference, flags) = sub(width, left, right, borrow);
        assert_eq!(rt;
            (difference, with_flags(0, flags)),
            (value, rflags),
            "{width:?} {left:x} {right:x} {borrow}"
        );
    }
}

fn logics<R: Abort>(rt: &R, rows: &[(Width, LogicKind, u64, u64, u64, u64, u64)]) {
    for &(width, kind, left, right, before, value, rflags) in rows {
        assert!(rt; u128::from(left) < modulus(width));
        assert!(rt; u128::from(right) < modulus(width));
        let (result, flags) = logic(width, kind, left, right, flags_in(before));
        assert_eq!(rt;
            (result, with_flags(0, flags)),
            (value, rflags),
            "{width:?} {kind:?} {left:x} {right:x}"
        );
    }
}

fn shifts<R: Abort>(rt: &R, rows: &[(Width, ShiftKind, u64, u8, u64, u64, u64)]) {
    for &(width, kind, operand, count, before, value, rflags) in rows {
        assert!(rt; u128::from(operand) < modulus(width));
        let (result, flags) = shift(width, kind, operand, count, flags_in(before));
        assert_eq!(rt;
            (result, with_flags(0, flags)),
            (value, rflags),
            "{width:?} {kind:?} {operand:x} {count}"
        );
    }
}

fn products<R: Abort>(rt: &R, rows: &[(Width, bool, u64, u64, u64, u64, u64, u64)]) {
    for &(width, signed, left, right, before, low, high, rflags) in rows {
        assert!(rt; u128::from(left) < modulus(width));
        assert!(rt; u128::from(right) < modulus(width));
        let (low_half, high_half, flags) = multiply(width, signed, left, right, flags_in(before));
        assert_eq!(rt;
            (low_half, high_half, with_flags(0, flags)),
            (low, high, rflags),
            "{width:?} {signed} {left:x} {right:x}"
        );
    }
}

fn divisions<R: Abort>(
    rt: &R,
    rows: &[(Width, bool, u64, u64, u64, Result<(u64, u64), NoQuotient>)],
) {
    for &(width, signed, high, low, divisor, answer) in rows {
        assert!(rt; u128::from(high) < modulus(width));
        assert!(rt; u128::from(low) < modulus(width));
        assert!(rt; u128::from(divisor) < modulus(width));
        assert_eq!(rt;
            divide(width, signed, high, low, divisor),
            answer,
            "{width:?} {signed} {high:x} {low:x} {divisor:x}"
        );
    }
}
