// Reads the bytes of an instruction.
ghost use Rattle.std.specs.Prelude.{◌≡◌, ◌≢◌, ◌<◌, ◌≤◌, ◌++◌, ℕ, List, [], length, Bool};
ghost use Rattle.svm_model.specs.Instructions.Decoding.{escape_of, line_at, opened_at, row_at};
ghost use Rattle.svm_model.specs.Instructions.RowParts.{arithmetic, shift_or_rotation, op_by, condition_by, width_of, is_byte, is_of_byte, full_at, whole_at, immediate_at, operand_field_at, register_by};
ghost use Rattle.svm_model.specs.Instructions.InstructionBytes.{Reads};
ghost use Rattle.svm_model.specs.Instructions.Rows.{decoded, IsForm, LeavesForms, IsDecoded};
ghost use Rattle.row_table.specs.Read.{answer_in, in_place};
ghost use Rattle.svm_model.specs.Instructions.Spelling.{IsSpelled, IsDecodedSpelling};

use crate::fields::{extended_8, extended_32, read_rm, register_code, register_operand};
use crate::input::Input;
use crate::prefixes::{read_prefixes, read_rex};
use crate::table::{first_line, fitting_line, has_modrm, leading_line};
use register_file::cut;
use svm_model::{
    Decoded, Form, Immediate, LineOperation, Op, OpcodeMap, OpenedLine, Operand, OperandFields,
    OperandSize, Prefixes, Rex, Row, Unread, Width,
};

/// ADD OR ADC SBB AND SUB XOR CMP.
fn arithmetic(number: u8) -> Op
    ensures { result ≡ arithmetic number }
{
    match number {
        0 => Op::Add,
        1 => Op::Or,
        2 => Op::Adc,
        3 => Op::Sbb,
        4 => Op::And,
        5 => Op::Sub,
        6 => Op::Xor,
        _ => Op::Cmp,
    }
}

/// ROL ROR SHL SHR SAR.
fn shift_or_rotation(digit: u8) -> Op
    ensures { result ≡ shift_or_rotation digit }
{
    match digit {
        0 => Op::Rol,
        1 => Op::Ror,
        4 => Op::Shl,
        5 => Op::Shr,
        _ => Op::Sar,
    }
}

fn op_by(operation: LineOperation, opcode: u8, modrm: u8) -> Op
    ensures { result ≡ op_by operation opcode modrm }
{
    match operation {
        LineOperation::ByOpcode => arithmetic(opcode / 8),
        LineOperation::ByDigit => arithmetic(modrm / 8 % 8),
        LineOperation::ByShiftDigit => shift_or_rotation(modrm / 8 % 8),
        LineOperation::Is(op) => op,
        LineOperation::Conditional(op) => op,
    }
}

fn condition_by(operation: LineOperation, opcode: u8) -> u8
    ensures { result ≡ condition_by operation opcode }
{
    match operation {
        LineOperation::Conditional(_) => opcode % 16,
        _ => 0,
    }
}

fn width_of(size: OperandSize, prefixes: Prefixes, rex: Rex) -> Width
    ensures { result ≡ width_of size prefixes rex }
{
    match size {
        OperandSize::Byte | OperandSize::PortByte => Width::W8,
        OperandSize::Quad => Width::W64,
        OperandSize::Port if prefixes.operand_size => Width::W16,
        OperandSize::Port => Width::W32,
        OperandSize::Operand | OperandSize::FromByte if rex.wide => Width::W64,
        OperandSize::Operand | OperandSize::FromByte if prefixes.operand_size => Width::W16,
        OperandSize::Operand | OperandSize::FromByte => Width::W32,
    }
}

/// Whether the register of reg has 8 bits.
fn is_byte(size: OperandSize) -> bool
    ensures { result ≡ is_byte size }
{
    matches!(size, OperandSize::Byte)
}

/// Whether the operand of r/m has 8 bits.
fn is_of_byte(size: OperandSize) -> bool
    ensures { result ≡ is_of_byte size }
{
    matches!(size, OperandSize::Byte | OperandSize::FromByte)
}

/// Reads as many bytes as the width has, at most four, and extends them by their sign.
fn read_full(input: &mut Input, width: Width) -> Result<u64, Unread>
    ensures { Reads result input.new.rest.now (full_at width input.old.rest.now) }
{
    match width {
        Width::W8 => Ok(u64::from(input.byte()?)),
        Width::W16 => Ok(u64::from(input.word()?)),
        Width::W32 => Ok(u64::from(input.double()?)),
        Width::W64 => Ok(extended_32(input.double()?)),
    }
}

/// Reads as many bytes as the width has.
fn read_whole(input: &mut Input, width: Width) -> Result<u64, Unread>
    ensures { Reads result input.new.rest.now (whole_at width input.old.rest.now) }
{
    match width {
        Width::W8 => Ok(u64::from(input.byte()?)),
        Width::W16 => Ok(u64::from(input.word()?)),
        Width::W32 => Ok(u64::from(input.double()?)),
        Width::W64 => input.quad(),
    }
}

#[tactic(auto, unfolding(svm_model::specs::Instructions::RowParts::immediate_at))]
fn read_immediate(input: &mut Input, immediate: Immediate, width: Width) -> Result<u64, Unread>
    ensures { Reads result input.new.rest.now (immediate_at immediate width input.old.rest.now) }
{
    match immediate {
        Immediate::Nothing => Ok(0),
        Immediate::One => Ok(1),
        Immediate::Byte => Ok(u64::from(input.byte()?)),
        Immediate::Word => Ok(u64::from(input.word()?)),
        Immediate::Signed => Ok(cut(width, extended_8(input.byte()?))),
        Immediate::Full => read_full(input, width),
        Immediate::Whole => read_whole(input, width),
    }
}

/// The map that the byte leads to.
fn escape_of(byte: u8) -> Option<OpcodeMap>
    ensures { result ≡ escape_of byte }
{
    match byte {
        0x0f => Some(OpcodeMap::Secondary),
        0xf3 => Some(OpcodeMap::Repeat),
        _ => None,
    }
}

/// Reads the ModRM byte after an opcode, where it has one.
#[tactic(auto, unfolding(svm_model::specs::Instructions::Decoding::line_at, svm_model::specs::Instructions::Decoding::modrm_at))]
fn read_line(
    input: &mut Input,
    prefixes: Prefixes,
    rex: Rex,
    map: OpcodeMap,
    opcode: u8,
) -> Result<OpenedLine, Unread>
    requires { rex.register ≤ 8 }
    ensures { Reads result input.new.rest.now (line_at prefixes rex map opcode input.old.rest.now) }
{
    let Some(line) = first_line(prefixes, rex, map, opcode) else {
        return Err(Unread::Unlisted { byte: opcode });
    };
    if !has_modrm(line.fields) {
        return Ok(OpenedLine {
            line,
            opcode,
            modrm: 0,
        });
    }
    let modrm = input.byte()?;
    let Some(line) = fitting_line(line, prefixes, rex, map, opcode, modrm) else {
        return Err(Unread::Unlisted { byte: modrm });
    };
    Ok(OpenedLine {
        line,
        opcode,
        modrm,
    })
}

/// Reads the opcode and the ModRM byte.
#[tactic(auto, unfolding(svm_model::specs::Instructions::Decoding::opened_at, svm_model::specs::Instructions::Decoding::after_first, svm_model::specs::Instructions::Decoding::escaped_at))]
fn read_opened(input: &mut Input, prefixes: Prefixes, rex: Rex) -> Result<OpenedLine, Unread>
    requires { rex.register ≤ 8 }
    ensures { Reads result input.new.rest.now (opened_at prefixes rex input.old.rest.now) }
{
    let first = input.byte()?;
    let Some(map) = escape_of(first) else {
        return read_line(input, prefixes, rex, OpcodeMap::Primary, first);
    };
    if leading_line(prefixes, rex, map).is_none() {
        return Err(Unread::Unlisted { byte: first });
    }
    let opcode = input.byte()?;
    read_line(input, prefixes, rex, map, opcode)
}

/// Reads the operand that the form has.
#[tactic(auto, unfolding(svm_model::specs::Instructions::RowParts::operand_field_at))]
fn read_operand(
    input: &mut Input,
    segment: u8,
    rex: Rex,
    opened: &OpenedLine,
) -> Result<Operand, Unread>
    requires index { rex.index ≤ 8 }
    requires base { rex.base ≤ 8 }
    ensures { Reads result input.new.rest.now (operand_field_at segment rex opened.now input.old.rest.now) }
{
    let small = is_of_byte(opened.line.size);
    match opened.line.fields {
        OperandFields::Absent | OperandFields::Exact(_) => Ok(Operand::None),
        OperandFields::Accumulator => Ok(Operand::Register {
            index: 0,
            high: false,
        }),
        OperandFields::Opcode => Ok(register_operand(rex, small, opened.opcode % 8)),
        OperandFields::Control | OperandFields::Debug => Ok(register_operand(
            rex,
            false,
            opened.modrm % 8,
        )),
        OperandFields::Any
        | OperandFields::Direct
        | OperandFields::Memory
        | OperandFields::AnyDigit
        | OperandFields::ShiftDigit
        | OperandFields::Digit(_)
        | OperandFields::DigitMemory(_) => read_rm(input, segment, rex, small, opened.modrm),
    }
}

/// The register that reg names.
fn register_by(fields: OperandFields, rex: Rex, small: bool, modrm: u8) -> u8
    requires { rex.register ≤ 8 }
    ensures { result ≡ register_by fields rex small modrm }
{
    match fields {
        OperandFields::Any
        | OperandFields::Direct
        | OperandFields::Memory
        | OperandFields::Control
        | OperandFields::Debug => { register_code(rex, small, modrm / 8 % 8) }
        _ => 0,
    }
}

/// Reads what stands after the legacy prefixes. The row is written once all of it is read.
#[inline(always)]
#[tactic(auto, unfolding(svm_model::specs::Instructions::Decoding::body_at))]
fn read_row(row: &mut Row, input: &mut Input, prefixes: Prefixes) -> Result<(), Unread>
    ensures { Reads (in_place result row.new) input.new.rest.now (row_at prefixes input.old.rest.now) }
{
    let rex = read_rex(input);
    let opened = read_opened(input, prefixes, rex)?;
    let operand = read_operand(input, prefixes.segment, rex, &opened)?;
    let line = opened.line;
    let width = width_of(line.size, prefixes, rex);
    let immediate = read_immediate(input, line.immediate, width)?;
    *row = Row {
        op: op_by(line.operation, opened.opcode, opened.modrm),
        form: line.form,
        width,
        lock: prefixes.lock,
        register: register_by(line.fields, rex, is_byte(line.size), opened.modrm),
        operand,
        immediate,
        condition: condition_by(line.operation, opened.opcode),
    };
    Ok(())
}

/// Reads the form at the front of the bytes: its row into its place, and its length.
#[tactic(auto, unfolding(svm_model::specs::Instructions::Rows::decoded))]
pub fn read_form(row: &mut Row, bytes: &[u8]) -> Result<u8, Unread>
    ensures { answer_in result row.new ≡ decoded bytes.now }
{
    let mut input = Input { rest: bytes };
    let prefixes = read_prefixes(&mut input);
    read_row(row, &mut input, prefixes)?;
    Ok((bytes.len() - input.rest.len()) as u8)
}

/// The answer of what was read, with its row.
fn answer_in(read: Result<u8, Unread>, row: &Row) -> Decoded
    ensures { result ≡ answer_in read row.now }
{
    match read {
        Ok(length) => Decoded::Row { row: *row, length },
        Err(Unread::More) => Decoded::More,
        Err(Unread::Unlisted { byte }) => Decoded::Unlisted { byte },
    }
}

/// The row of no bytes: NOP.
pub const BLANK: Row = Row {
    op: Op::Nop,
    form: Form::Nop90,
    width: Width::W32,
    lock: false,
    register: 0,
    operand: Operand::None,
    immediate: 0,
    condition: 0,
};

/// Decodes the instruction at the front of the bytes (volume 3, 'Instruction Encoding').
///
/// The answer is the row and its length where a form stands at the front; More where the bytes are a proper part of a
/// form, so that they are fewer than 15; else Unlisted, with the first byte with which they begin no form.
pub fn decode(bytes: &[u8]) -> Decoded
    ensures exact { result ≡ decoded bytes.now }
    ensures answer { IsDecoded bytes.now result }
    // At most one form stands at the front of any bytes.
    ensures row { (front rest : List ℕ) (row : _) → bytes.now ≡ front ++ rest → IsForm front row → result ≡ Decoded.Row row (length front) }
    ensures more { (next : List ℕ) (row : _) → next ≢ [] → IsForm (bytes.now ++ next) row → result ≡ Decoded.More }
    ensures unlisted { (byte : ℕ) → LeavesForms bytes.now byte → result ≡ Decoded.Unlisted byte }
    // The same of forms as the table spells them: prefixes, opcode, ModRM, operand and immediate.
    ensures spelled { IsDecodedSpelling bytes.now result }
    ensures spelled_row { (front rest : List ℕ) (row : _) → bytes.now ≡ front ++ rest → IsSpelled front row → result ≡ Decoded.Row row (length front) }
    ensures spelled_more { (next : List ℕ) (row : _) → next ≢ [] → IsSpelled (bytes.now ++ next) row → result ≡ Decoded.More }
    ensures few { result ≡ Decoded.More → length bytes.now < 15 }
{
    let mut row = BLANK;
    let read = read_form(&mut row, bytes);
    answer_in(read, &row)
}
