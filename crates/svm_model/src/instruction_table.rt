// The table of instruction rows, in the manual's order: a line for each form of volume 3 ('General-Purpose Instruction
// Reference' and 'System Instruction Reference'). It is the one table: definitions and code both take it from here.
//
// Where it departs from volume 3:
//
// - It lists the forms of 64-bit mode that the project's guests use, and no others. Of a group of opcodes it has the rows
//   that stand here; a digit or ModRM byte that is left out is no form.
// - ADD, OR, ADC, SBB, AND, SUB, XOR and CMP share a line for each of their nine forms, and ROL, ROR, SHL, SHR and SAR for
//   each of their six; `/6` of the shifts, a second SHL, is left out.
// - Legacy prefixes are 66h, F0h, and 64h or 65h, each at most once. 66h stands only with forms of operand size and with
//   IN and OUT; F3h only in PAUSE; F2h, 67h, 2Eh, 36h, 3Eh and 26h in none. IRETQ's REX prefix is exactly 48h.
// - BT, BTS, BTR and BTC with a bit's number in a register take a register operand alone. MOVSXD stands only with REX.W.
// - PUSH, POP, CALL, RET, JMP and LEAVE work on 64 bits, and 66h does not stand before them.
// - MOV to and from control and debug registers does not look at mod. It reaches CR0, CR2, CR3, CR4 and CR8, and DR6 and
//   DR7. SETcc takes every value of its reg field.
// - The fences are E8h, F0h and F8h alone. Of NOP there are 90h and 0Fh 1Fh /0.

use crate::row_lines::{
    Immediate, LineOperation, LockUse, OpcodeMap, OperandCode, OperandCodes, OperandFields,
    OperandSize, RexNeeds, RowClass, RowLine,
};
use crate::rows::{Form, Op};

/// What follows the opcode, in the manual's notation: `/r`, a digit as `/2` or any as `/n`, `+r`, a byte, or nothing.
/// `rAX` is nothing too, and the operand is the accumulator; `reg` and `mem` say that r/m names a register or memory
/// alone, `cr` and `dr` that reg names a control or a debug register.
macro_rules! fields {
    () => {
        OperandFields::Absent
    };
    (rAX) => {
        OperandFields::Accumulator
    };
    (+ r) => {
        OperandFields::Opcode
    };
    (/ r) => {
        OperandFields::Any
    };
    (/ r reg) => {
        OperandFields::Direct
    };
    (/ r mem) => {
        OperandFields::Memory
    };
    (/ r cr) => {
        OperandFields::Control
    };
    (/ r dr) => {
        OperandFields::Debug
    };
    (/ n) => {
        OperandFields::AnyDigit
    };
    (/ 0 1 4 5 7) => {
        OperandFields::ShiftDigit
    };
    (/ $digit:literal mem) => {
        OperandFields::DigitMemory($digit)
    };
    (/ $digit:literal) => {
        OperandFields::Digit($digit)
    };
    ($byte:literal) => {
        OperandFields::Exact($byte)
    };
}

/// The immediate: `ib` a byte and `iw` two, `ib s` a byte that is extended by its sign, `iz` as many as the operand has but
/// at most four, `iv` as many as it has; `cb` and `cd` a displacement of a byte or of four; `1` the number 1, without a byte.
macro_rules! immediate {
    () => {
        Immediate::Nothing
    };
    (1) => {
        Immediate::One
    };
    (ib) => {
        Immediate::Byte
    };
    (iw) => {
        Immediate::Word
    };
    (ib s) => {
        Immediate::Signed
    };
    (cb) => {
        Immediate::Signed
    };
    (iz) => {
        Immediate::Full
    };
    (cd) => {
        Immediate::Full
    };
    (iv) => {
        Immediate::Whole
    };
}

/// An operand in the letters of the opcode maps.
macro_rules! operand {
    (AL) => {
        OperandCode::Al
    };
    (eAX) => {
        OperandCode::Eax
    };
    (rAX) => {
        OperandCode::Rax
    };
    (CL) => {
        OperandCode::Cl
    };
    (DX) => {
        OperandCode::Dx
    };
    (1) => {
        OperandCode::One
    };
    ($code:ident) => {
        OperandCode::$code
    };
}

/// The operands, none to three.
macro_rules! operands {
    () => {
        operands!(Absent Absent Absent)
    };
    ($first:tt) => {
        operands!($first Absent Absent)
    };
    ($first:tt $second:tt) => {
        operands!($first $second Absent)
    };
    ($first:tt $second:tt $third:tt) => {
        OperandCodes {
            first: operand!($first),
            second: operand!($second),
            third: operand!($third),
        }
    };
}

/// What the REX prefix has to be: REX.W set, the byte 48h, REX.B set, REX.B clear, or REX.R clear.
macro_rules! needs {
    () => {
        RexNeeds::Nothing
    };
    (W) => {
        RexNeeds::Wide
    };
    (W alone) => {
        RexNeeds::WideAlone
    };
    (B) => {
        RexNeeds::Base
    };
    (no B) => {
        RexNeeds::NoBase
    };
    (no R) => {
        RexNeeds::NoRegister
    };
}

/// Whether LOCK may stand, where the destination is memory.
macro_rules! lock {
    () => {
        LockUse::Refused
    };
    (L) => {
        LockUse::Taken
    };
    (L but CMP) => {
        LockUse::TakenButByCmp
    };
}

/// A line: the opcode map; the first opcode, the step to the next one, and how many there are; what follows the opcode, and
/// the immediate; the instruction; its operands; the operand size; what the REX prefix has to be; whether LOCK may stand;
/// whether it is a user or a system row; the form.
macro_rules! line {
    ($map:ident, $first:literal, $step:literal, $count:literal, [$($fields:tt)*], [$($immediate:tt)*], $operation:ident $(($op:ident))?, [$($operands:tt)*], $size:ident, [$($needs:tt)*], [$($lock:tt)*], $class:ident, $form:ident) => {
        RowLine {
            map: OpcodeMap::$map,
            first: $first,
            step: $step,
            count: $count,
            fields: fields!($($fields)*),
            size: OperandSize::$size,
            immediate: immediate!($($immediate)*),
            needs: needs!($($needs)*),
            operation: LineOperation::$operation $((Op::$op))?,
            operands: operands!($($operands)*),
            lock: lock!($($lock)*),
            class: RowClass::$class,
            form: Form::$form,
        }
    };
}

/// Each form, at its number in `Form`.
#[rattlefmt::skip]
pub const TABLE: [RowLine; 137] = [
    // ADD OR ADC SBB AND SUB XOR CMP
    line!(Primary,   0x00, 8,  8, [/r],         [],     ByOpcode,            [Eb Gb],     Byte,     [],        [L but CMP], User,   Arithmetic00),
    line!(Primary,   0x01, 8,  8, [/r],         [],     ByOpcode,            [Ev Gv],     Operand,  [],        [L but CMP], User,   Arithmetic01),
    line!(Primary,   0x02, 8,  8, [/r],         [],     ByOpcode,            [Gb Eb],     Byte,     [],        [],          User,   Arithmetic02),
    line!(Primary,   0x03, 8,  8, [/r],         [],     ByOpcode,            [Gv Ev],     Operand,  [],        [],          User,   Arithmetic03),
    line!(Primary,   0x04, 8,  8, [rAX],        [ib],   ByOpcode,            [AL Ib],     Byte,     [],        [],          User,   Arithmetic04),
    line!(Primary,   0x05, 8,  8, [rAX],        [iz],   ByOpcode,            [rAX Iz],    Operand,  [],        [],          User,   Arithmetic05),
    line!(Primary,   0x80, 1,  1, [/n],         [ib],   ByDigit,             [Eb Ib],     Byte,     [],        [L but CMP], User,   Arithmetic80),
    line!(Primary,   0x81, 1,  1, [/n],         [iz],   ByDigit,             [Ev Iz],     Operand,  [],        [L but CMP], User,   Arithmetic81),
    line!(Primary,   0x83, 1,  1, [/n],         [ib s], ByDigit,             [Ev Ibs],    Operand,  [],        [L but CMP], User,   Arithmetic83),
    // TEST
    line!(Primary,   0x84, 1,  1, [/r],         [],     Is(Test),            [Eb Gb],     Byte,     [],        [],          User,   Test84),
    line!(Primary,   0x85, 1,  1, [/r],         [],     Is(Test),            [Ev Gv],     Operand,  [],        [],          User,   Test85),
    line!(Primary,   0xA8, 1,  1, [rAX],        [ib],   Is(Test),            [AL Ib],     Byte,     [],        [],          User,   TestA8),
    line!(Primary,   0xA9, 1,  1, [rAX],        [iz],   Is(Test),            [rAX Iz],    Operand,  [],        [],          User,   TestA9),
    line!(Primary,   0xF6, 1,  1, [/0],         [ib],   Is(Test),            [Eb Ib],     Byte,     [],        [],          User,   TestF6),
    line!(Primary,   0xF7, 1,  1, [/0],         [iz],   Is(Test),            [Ev Iz],     Operand,  [],        [],          User,   TestF7),
    // NOT NEG
    line!(Primary,   0xF6, 1,  1, [/2],         [],     Is(Not),             [Eb],        Byte,     [],        [L],         User,   NotF6),
    line!(Primary,   0xF7, 1,  1, [/2],         [],     Is(Not),             [Ev],        Operand,  [],        [L],         User,   NotF7),
    line!(Primary,   0xF6, 1,  1, [/3],         [],     Is(Neg),             [Eb],        Byte,     [],        [L],         User,   NegF6),
    line!(Primary,   0xF7, 1,  1, [/3],         [],     Is(Neg),             [Ev],        Operand,  [],        [L],         User,   NegF7),
    // MUL IMUL DIV IDIV
    line!(Primary,   0xF6, 1,  1, [/4],         [],     Is(Mul),             [Eb],        Byte,     [],        [],          User,   MulF6),
    line!(Primary,   0xF7, 1,  1, [/4],         [],     Is(Mul),             [Ev],        Operand,  [],        [],          User,   MulF7),
    line!(Primary,   0xF6, 1,  1, [/5],         [],     Is(Imul),            [Eb],        Byte,     [],        [],          User,   ImulF6),
    line!(Primary,   0xF7, 1,  1, [/5],         [],     Is(Imul),            [Ev],        Operand,  [],        [],          User,   ImulF7),
    line!(Primary,   0xF6, 1,  1, [/6],         [],     Is(Div),             [Eb],        Byte,     [],        [],          User,   DivF6),
    line!(Primary,   0xF7, 1,  1, [/6],         [],     Is(Div),             [Ev],        Operand,  [],        [],          User,   DivF7),
    line!(Primary,   0xF6, 1,  1, [/7],         [],     Is(Idiv),            [Eb],        Byte,     [],        [],          User,   IdivF6),
    line!(Primary,   0xF7, 1,  1, [/7],         [],     Is(Idiv),            [Ev],        Operand,  [],        [],          User,   IdivF7),
    line!(Secondary, 0xAF, 1,  1, [/r],         [],     Is(Imul),            [Gv Ev],     Operand,  [],        [],          User,   Imul0FAF),
    line!(Primary,   0x69, 1,  1, [/r],         [iz],   Is(Imul),            [Gv Ev Iz],  Operand,  [],        [],          User,   Imul69),
    line!(Primary,   0x6B, 1,  1, [/r],         [ib s], Is(Imul),            [Gv Ev Ibs], Operand,  [],        [],          User,   Imul6B),
    // INC DEC
    line!(Primary,   0xFE, 1,  1, [/0],         [],     Is(Inc),             [Eb],        Byte,     [],        [L],         User,   IncFE),
    line!(Primary,   0xFF, 1,  1, [/0],         [],     Is(Inc),             [Ev],        Operand,  [],        [L],         User,   IncFF),
    line!(Primary,   0xFE, 1,  1, [/1],         [],     Is(Dec),             [Eb],        Byte,     [],        [L],         User,   DecFE),
    line!(Primary,   0xFF, 1,  1, [/1],         [],     Is(Dec),             [Ev],        Operand,  [],        [L],         User,   DecFF),
    // ROL ROR SHL SHR SAR
    line!(Primary,   0xC0, 1,  1, [/0 1 4 5 7], [ib],   ByShiftDigit,        [Eb Ib],     Byte,     [],        [],          User,   ShiftC0),
    line!(Primary,   0xC1, 1,  1, [/0 1 4 5 7], [ib],   ByShiftDigit,        [Ev Ib],     Operand,  [],        [],          User,   ShiftC1),
    line!(Primary,   0xD0, 1,  1, [/0 1 4 5 7], [1],    ByShiftDigit,        [Eb 1],      Byte,     [],        [],          User,   ShiftD0),
    line!(Primary,   0xD1, 1,  1, [/0 1 4 5 7], [1],    ByShiftDigit,        [Ev 1],      Operand,  [],        [],          User,   ShiftD1),
    line!(Primary,   0xD2, 1,  1, [/0 1 4 5 7], [],     ByShiftDigit,        [Eb CL],     Byte,     [],        [],          User,   ShiftD2),
    line!(Primary,   0xD3, 1,  1, [/0 1 4 5 7], [],     ByShiftDigit,        [Ev CL],     Operand,  [],        [],          User,   ShiftD3),
    // MOV
    line!(Primary,   0x88, 1,  1, [/r],         [],     Is(Mov),             [Eb Gb],     Byte,     [],        [],          User,   Mov88),
    line!(Primary,   0x89, 1,  1, [/r],         [],     Is(Mov),             [Ev Gv],     Operand,  [],        [],          User,   Mov89),
    line!(Primary,   0x8A, 1,  1, [/r],         [],     Is(Mov),             [Gb Eb],     Byte,     [],        [],          User,   Mov8A),
    line!(Primary,   0x8B, 1,  1, [/r],         [],     Is(Mov),             [Gv Ev],     Operand,  [],        [],          User,   Mov8B),
    line!(Primary,   0xC6, 1,  1, [/0],         [ib],   Is(Mov),             [Eb Ib],     Byte,     [],        [],          User,   MovC6),
    line!(Primary,   0xC7, 1,  1, [/0],         [iz],   Is(Mov),             [Ev Iz],     Operand,  [],        [],          User,   MovC7),
    line!(Primary,   0xB0, 1,  8, [+r],         [ib],   Is(Mov),             [Zb Ib],     Byte,     [],        [],          User,   MovB0),
    line!(Primary,   0xB8, 1,  8, [+r],         [iv],   Is(Mov),             [Zv Iv],     Operand,  [],        [],          User,   MovB8),
    // MOVZX MOVSX MOVSXD
    line!(Secondary, 0xB6, 1,  1, [/r],         [],     Is(Movzx),           [Gv Eb],     FromByte, [],        [],          User,   Movzx0FB6),
    line!(Secondary, 0xB7, 1,  1, [/r],         [],     Is(Movzx),           [Gv Ew],     Operand,  [],        [],          User,   Movzx0FB7),
    line!(Secondary, 0xBE, 1,  1, [/r],         [],     Is(Movsx),           [Gv Eb],     FromByte, [],        [],          User,   Movsx0FBE),
    line!(Secondary, 0xBF, 1,  1, [/r],         [],     Is(Movsx),           [Gv Ew],     Operand,  [],        [],          User,   Movsx0FBF),
    line!(Primary,   0x63, 1,  1, [/r],         [],     Is(Movsxd),          [Gv Ed],     Operand,  [W],       [],          User,   Movsxd63),
    // LEA
    line!(Primary,   0x8D, 1,  1, [/r mem],     [],     Is(Lea),             [Gv M],      Operand,  [],        [],          User,   Lea8D),
    // XCHG
    line!(Primary,   0x86, 1,  1, [/r],         [],     Is(Xchg),            [Eb Gb],     Byte,     [],        [L],         User,   Xchg86),
    line!(Primary,   0x87, 1,  1, [/r],         [],     Is(Xchg),            [Ev Gv],     Operand,  [],        [L],         User,   Xchg87),
    line!(Primary,   0x90, 1,  1, [+r],         [],     Is(Xchg),            [Zv rAX],    Operand,  [B],       [],          User,   Xchg90),
    line!(Primary,   0x91, 1,  7, [+r],         [],     Is(Xchg),            [Zv rAX],    Operand,  [],        [],          User,   Xchg91),
    // CMPXCHG XADD
    line!(Secondary, 0xB0, 1,  1, [/r],         [],     Is(Cmpxchg),         [Eb Gb],     Byte,     [],        [L],         User,   Cmpxchg0FB0),
    line!(Secondary, 0xB1, 1,  1, [/r],         [],     Is(Cmpxchg),         [Ev Gv],     Operand,  [],        [L],         User,   Cmpxchg0FB1),
    line!(Secondary, 0xC0, 1,  1, [/r],         [],     Is(Xadd),            [Eb Gb],     Byte,     [],        [L],         User,   Xadd0FC0),
    line!(Secondary, 0xC1, 1,  1, [/r],         [],     Is(Xadd),            [Ev Gv],     Operand,  [],        [L],         User,   Xadd0FC1),
    // BT BTS BTR BTC
    line!(Secondary, 0xBA, 1,  1, [/4],         [ib],   Is(Bt),              [Ev Ib],     Operand,  [],        [],          User,   Bt0FBA),
    line!(Secondary, 0xBA, 1,  1, [/5],         [ib],   Is(Bts),             [Ev Ib],     Operand,  [],        [L],         User,   Bts0FBA),
    line!(Secondary, 0xBA, 1,  1, [/6],         [ib],   Is(Btr),             [Ev Ib],     Operand,  [],        [L],         User,   Btr0FBA),
    line!(Secondary, 0xBA, 1,  1, [/7],         [ib],   Is(Btc),             [Ev Ib],     Operand,  [],        [L],         User,   Btc0FBA),
    line!(Secondary, 0xA3, 1,  1, [/r reg],     [],     Is(Bt),              [Rv Gv],     Operand,  [],        [],          User,   Bt0FA3),
    line!(Secondary, 0xAB, 1,  1, [/r reg],     [],     Is(Bts),             [Rv Gv],     Operand,  [],        [],          User,   Bts0FAB),
    line!(Secondary, 0xB3, 1,  1, [/r reg],     [],     Is(Btr),             [Rv Gv],     Operand,  [],        [],          User,   Btr0FB3),
    line!(Secondary, 0xBB, 1,  1, [/r reg],     [],     Is(Btc),             [Rv Gv],     Operand,  [],        [],          User,   Btc0FBB),
    // PUSH POP
    line!(Primary,   0x50, 1,  8, [+r],         [],     Is(Push),            [Zq],        Quad,     [],        [],          User,   Push50),
    line!(Primary,   0xFF, 1,  1, [/6],         [],     Is(Push),            [Eq],        Quad,     [],        [],          User,   PushFF),
    line!(Primary,   0x68, 1,  1, [],           [iz],   Is(Push),            [Iz],        Quad,     [],        [],          User,   Push68),
    line!(Primary,   0x6A, 1,  1, [],           [ib s], Is(Push),            [Ibs],       Quad,     [],        [],          User,   Push6A),
    line!(Primary,   0x58, 1,  8, [+r],         [],     Is(Pop),             [Zq],        Quad,     [],        [],          User,   Pop58),
    line!(Primary,   0x8F, 1,  1, [/0],         [],     Is(Pop),             [Eq],        Quad,     [],        [],          User,   Pop8F),
    // CALL RET JMP
    line!(Primary,   0xE8, 1,  1, [],           [cd],   Is(Call),            [Jz],        Quad,     [],        [],          User,   CallE8),
    line!(Primary,   0xFF, 1,  1, [/2],         [],     Is(Call),            [Eq],        Quad,     [],        [],          User,   CallFF),
    line!(Primary,   0xC3, 1,  1, [],           [],     Is(Ret),             [],          Quad,     [],        [],          User,   RetC3),
    line!(Primary,   0xC2, 1,  1, [],           [iw],   Is(Ret),             [Iw],        Quad,     [],        [],          User,   RetC2),
    line!(Primary,   0xE9, 1,  1, [],           [cd],   Is(Jmp),             [Jz],        Quad,     [],        [],          User,   JmpE9),
    line!(Primary,   0xEB, 1,  1, [],           [cb],   Is(Jmp),             [Jb],        Quad,     [],        [],          User,   JmpEB),
    line!(Primary,   0xFF, 1,  1, [/4],         [],     Is(Jmp),             [Eq],        Quad,     [],        [],          User,   JmpFF),
    // Jcc SETcc CMOVcc
    line!(Primary,   0x70, 1, 16, [],           [cb],   Conditional(Jcc),    [Jb],        Quad,     [],        [],          User,   Jcc70),
    line!(Secondary, 0x80, 1, 16, [],           [cd],   Conditional(Jcc),    [Jz],        Quad,     [],        [],          User,   Jcc0F80),
    line!(Secondary, 0x90, 1, 16, [/n],         [],     Conditional(Setcc),  [Eb],        Byte,     [],        [],          User,   Setcc0F90),
    line!(Secondary, 0x40, 1, 16, [/r],         [],     Conditional(Cmovcc), [Gv Ev],     Operand,  [],        [],          User,   Cmovcc0F40),
    // LEAVE; CBW CWDE CDQE; CWD CDQ CQO
    line!(Primary,   0xC9, 1,  1, [],           [],     Is(Leave),           [],          Quad,     [],        [],          User,   LeaveC9),
    line!(Primary,   0x98, 1,  1, [],           [],     Is(Cbw),             [],          Operand,  [],        [],          User,   Cbw98),
    line!(Primary,   0x99, 1,  1, [],           [],     Is(Cwd),             [],          Operand,  [],        [],          User,   Cwd99),
    // CLC STC CMC CLD STD; NOP; fences
    line!(Primary,   0xF8, 1,  1, [],           [],     Is(Clc),             [],          Byte,     [],        [],          User,   ClcF8),
    line!(Primary,   0xF9, 1,  1, [],           [],     Is(Stc),             [],          Byte,     [],        [],          User,   StcF9),
    line!(Primary,   0xF5, 1,  1, [],           [],     Is(Cmc),             [],          Byte,     [],        [],          User,   CmcF5),
    line!(Primary,   0xFC, 1,  1, [],           [],     Is(Cld),             [],          Byte,     [],        [],          User,   CldFC),
    line!(Primary,   0xFD, 1,  1, [],           [],     Is(Std),             [],          Byte,     [],        [],          User,   StdFD),
    line!(Primary,   0x90, 1,  1, [],           [],     Is(Nop),             [],          Operand,  [no B],    [],          User,   Nop90),
    line!(Secondary, 0x1F, 1,  1, [/0],         [],     Is(Nop),             [Ev],        Operand,  [],        [],          User,   Nop0F1F),
    line!(Secondary, 0xAE, 1,  1, [0xE8],       [],     Is(Lfence),          [],          Byte,     [],        [],          User,   Lfence0FAEE8),
    line!(Secondary, 0xAE, 1,  1, [0xF0],       [],     Is(Mfence),          [],          Byte,     [],        [],          User,   Mfence0FAEF0),
    line!(Secondary, 0xAE, 1,  1, [0xF8],       [],     Is(Sfence),          [],          Byte,     [],        [],          User,   Sfence0FAEF8),
    // system rows: PAUSE HLT UD2
    line!(Repeat,    0x90, 1,  1, [],           [],     Is(Pause),           [],          Byte,     [],        [],          System, PauseF390),
    line!(Primary,   0xF4, 1,  1, [],           [],     Is(Hlt),             [],          Byte,     [],        [],          System, HltF4),
    line!(Secondary, 0x0B, 1,  1, [],           [],     Is(Ud2),             [],          Byte,     [],        [],          System, Ud20F0B),
    // CLI STI PUSHFQ POPFQ
    line!(Primary,   0xFA, 1,  1, [],           [],     Is(Cli),             [],          Byte,     [],        [],          System, CliFA),
    line!(Primary,   0xFB, 1,  1, [],           [],     Is(Sti),             [],          Byte,     [],        [],          System, StiFB),
    line!(Primary,   0x9C, 1,  1, [],           [],     Is(Pushfq),          [],          Byte,     [],        [],          System, Pushfq9C),
    line!(Primary,   0x9D, 1,  1, [],           [],     Is(Popfq),           [],          Byte,     [],        [],          System, Popfq9D),
    // INT3 INT IRETQ
    line!(Primary,   0xCC, 1,  1, [],           [],     Is(Int3),            [],          Byte,     [],        [],          System, Int3CC),
    line!(Primary,   0xCD, 1,  1, [],           [ib],   Is(Int),             [Ib],        Byte,     [],        [],          System, IntCD),
    line!(Primary,   0xCF, 1,  1, [],           [],     Is(Iretq),           [],          Byte,     [W alone], [],          System, IretqCF),
    // IN OUT
    line!(Primary,   0xE4, 1,  1, [],           [ib],   Is(In),              [AL Ib],     PortByte, [],        [],          System, InE4),
    line!(Primary,   0xE5, 1,  1, [],           [ib],   Is(In),              [eAX Ib],    Port,     [],        [],          System, InE5),
    line!(Primary,   0xEC, 1,  1, [],           [],     Is(In),              [AL DX],     PortByte, [],        [],          System, InEC),
    line!(Primary,   0xED, 1,  1, [],           [],     Is(In),              [eAX DX],    Port,     [],        [],          System, InED),
    line!(Primary,   0xE6, 1,  1, [],           [ib],   Is(Out),             [Ib AL],     PortByte, [],        [],          System, OutE6),
    line!(Primary,   0xE7, 1,  1, [],           [ib],   Is(Out),             [Ib eAX],    Port,     [],        [],          System, OutE7),
    line!(Primary,   0xEE, 1,  1, [],           [],     Is(Out),             [DX AL],     PortByte, [],        [],          System, OutEE),
    line!(Primary,   0xEF, 1,  1, [],           [],     Is(Out),             [DX eAX],    Port,     [],        [],          System, OutEF),
    // MOV CR, MOV DR
    line!(Secondary, 0x20, 1,  1, [/r cr],      [],     Is(MovCr),           [Rq Cq],     Quad,     [],        [],          System, MovCr0F20),
    line!(Secondary, 0x22, 1,  1, [/r cr],      [],     Is(MovCr),           [Cq Rq],     Quad,     [],        [],          System, MovCr0F22),
    line!(Secondary, 0x21, 1,  1, [/r dr],      [],     Is(MovDr),           [Rq Dq],     Quad,     [no R],    [],          System, MovDr0F21),
    line!(Secondary, 0x23, 1,  1, [/r dr],      [],     Is(MovDr),           [Dq Rq],     Quad,     [no R],    [],          System, MovDr0F23),
    // RDMSR WRMSR CPUID RDTSC
    line!(Secondary, 0x32, 1,  1, [],           [],     Is(Rdmsr),           [],          Byte,     [],        [],          System, Rdmsr0F32),
    line!(Secondary, 0x30, 1,  1, [],           [],     Is(Wrmsr),           [],          Byte,     [],        [],          System, Wrmsr0F30),
    line!(Secondary, 0xA2, 1,  1, [],           [],     Is(Cpuid),           [],          Byte,     [],        [],          System, Cpuid0FA2),
    line!(Secondary, 0x31, 1,  1, [],           [],     Is(Rdtsc),           [],          Byte,     [],        [],          System, Rdtsc0F31),
    // LGDT LIDT INVLPG SWAPGS
    line!(Secondary, 0x01, 1,  1, [/2 mem],     [],     Is(Lgdt),            [M],         Byte,     [],        [],          System, Lgdt0F01),
    line!(Secondary, 0x01, 1,  1, [/3 mem],     [],     Is(Lidt),            [M],         Byte,     [],        [],          System, Lidt0F01),
    line!(Secondary, 0x01, 1,  1, [/7 mem],     [],     Is(Invlpg),          [M],         Byte,     [],        [],          System, Invlpg0F01),
    line!(Secondary, 0x01, 1,  1, [0xF8],       [],     Is(Swapgs),          [],          Byte,     [],        [],          System, Swapgs0F01F8),
    // VMRUN VMMCALL VMLOAD VMSAVE STGI CLGI INVLPGA
    line!(Secondary, 0x01, 1,  1, [0xD8],       [],     Is(Vmrun),           [],          Byte,     [],        [],          System, Vmrun0F01D8),
    line!(Secondary, 0x01, 1,  1, [0xD9],       [],     Is(Vmmcall),         [],          Byte,     [],        [],          System, Vmmcall0F01D9),
    line!(Secondary, 0x01, 1,  1, [0xDA],       [],     Is(Vmload),          [],          Byte,     [],        [],          System, Vmload0F01DA),
    line!(Secondary, 0x01, 1,  1, [0xDB],       [],     Is(Vmsave),          [],          Byte,     [],        [],          System, Vmsave0F01DB),
    line!(Secondary, 0x01, 1,  1, [0xDC],       [],     Is(Stgi),            [],          Byte,     [],        [],          System, Stgi0F01DC),
    line!(Secondary, 0x01, 1,  1, [0xDD],       [],     Is(Clgi),            [],          Byte,     [],        [],          System, Clgi0F01DD),
    line!(Secondary, 0x01, 1,  1, [0xDF],       [],     Is(Invlpga),         [],          Byte,     [],        [],          System, Invlpga0F01DF),
];
