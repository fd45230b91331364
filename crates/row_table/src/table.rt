// What a line of the table says of an opcode, and the look-ups in the table.
ghost use Rattle.std.specs.Prelude.{◌≡◌, ◌<◌, ◌≤◌, Some, length};
ghost use Rattle.svm_model.specs.Instructions.RowLines.{opens, takes_size, meets, is_allowed, has_modrm, is_control, is_shift_digit, takes_modrm, leads, starts, matches, leading_line, first_line, fitting_line};
ghost use Rattle.svm_model.specs.Instructions.RowTable.{table};

use crate::first_lines::{first_of_map, first_with};
use svm_model::{OpcodeMap, OperandFields, OperandSize, Prefixes, Rex, RexNeeds, RowLine, TABLE};

/// Whether the opcode is one of the line's.
fn opens(line: &RowLine, map: OpcodeMap, opcode: u8) -> bool
    ensures { result ≡ opens line.now map opcode }
{
    if line.map != map || opcode < line.first || line.step == 0 {
        return false;
    }
    let over = opcode - line.first;
    over % line.step == 0 && over / line.step < line.count
}

/// Whether 66h may stand before forms of the size.
fn takes_size(size: OperandSize) -> bool
    ensures { result ≡ takes_size size }
{
    !matches!(size, OperandSize::Byte | OperandSize::Quad)
}

/// Whether the REX prefix is as a line needs it.
fn meets(needs: RexNeeds, rex: Rex) -> bool
    ensures { result ≡ meets needs rex }
{
    match needs {
        RexNeeds::Nothing => true,
        RexNeeds::Wide => rex.wide,
        RexNeeds::WideAlone => rex.wide && rex.register == 0 && rex.index == 0 && rex.base == 0,
        RexNeeds::Base => rex.base == 8,
        RexNeeds::NoBase => rex.base == 0,
        RexNeeds::NoRegister => rex.register == 0,
    }
}

/// Whether the prefixes may stand before the line's opcodes.
fn is_allowed(line: &RowLine, prefixes: Prefixes, rex: Rex) -> bool
    ensures { result ≡ is_allowed line.now prefixes rex }
{
    (takes_size(line.size) || !prefixes.operand_size) && meets(line.needs, rex)
}

/// Whether a ModRM byte follows the opcode.
pub fn has_modrm(fields: OperandFields) -> bool
    ensures { result ≡ has_modrm fields }
{
    !matches!(
        fields,
        OperandFields::Absent | OperandFields::Accumulator | OperandFields::Opcode
    )
}

fn is_control(number: u8) -> bool
    ensures { result ≡ is_control number }
{
    number == 0 || number == 2 || number == 3 || number == 4 || number == 8
}

/// Whether reg is a digit of ROL, ROR, SHL, SHR or SAR.
fn is_shift_digit(number: u8) -> bool
    ensures { result ≡ is_shift_digit number }
{
    matches!(number, 0 | 1 | 4 | 5 | 7)
}

/// Whether the ModRM byte is one of the line's.
fn takes_modrm(fields: OperandFields, rex: Rex, modrm: u8) -> bool
    requires { rex.register ≤ 8 }
    ensures { result ≡ takes_modrm fields rex modrm }
{
    let reg = modrm / 8 % 8;
    match fields {
        OperandFields::Absent | OperandFields::Accumulator | OperandFields::Opcode => false,
        OperandFields::Any | OperandFields::AnyDigit => true,
        OperandFields::Direct => modrm >= 0xc0,
        OperandFields::Memory => modrm < 0xc0,
        OperandFields::ShiftDigit => is_shift_digit(reg),
        OperandFields::Digit(digit) => reg == digit,
        OperandFields::DigitMemory(digit) => reg == digit && modrm < 0xc0,
        OperandFields::Control => is_control(reg + rex.register),
        OperandFields::Debug => reg >= 6,
        OperandFields::Exact(byte) => modrm == byte,
    }
}

/// Whether the line is of the map, and the prefixes may stand before it.
fn leads(line: &RowLine, prefixes: Prefixes, rex: Rex, map: OpcodeMap) -> bool
    ensures { result ≡ leads prefixes rex map line.now }
{
    line.map == map && is_allowed(line, prefixes, rex)
}

/// Whether the line has this opcode, under these prefixes.
fn starts(line: &RowLine, prefixes: Prefixes, rex: Rex, map: OpcodeMap, opcode: u8) -> bool
    ensures { result ≡ starts prefixes rex map opcode line.now }
{
    opens(line, map, opcode) && is_allowed(line, prefixes, rex)
}

/// Whether the line has this opcode and ModRM byte, under these prefixes.
fn matches(
    line: &RowLine,
    prefixes: Prefixes,
    rex: Rex,
    map: OpcodeMap,
    opcode: u8,
    modrm: u8,
) -> bool
    requires { rex.register ≤ 8 }
    ensures { result ≡ matches prefixes rex map opcode modrm line.now }
{
    starts(line, prefixes, rex, map, opcode) && takes_modrm(line.fields, rex, modrm)
}

/// Whether one of the lines is of the map, under these prefixes.
#[tactic(auto, unfolding(svm_model::specs::Instructions::RowLines::first_where))]
fn leading_of(lines: &[RowLine], prefixes: Prefixes, rex: Rex, map: OpcodeMap) -> Option<RowLine>
    ensures { result ≡ leading_line prefixes rex map lines.now }
{
    for line in lines {
        if leads(line, prefixes, rex, map) {
            return Some(*line);
        }
    }
    None
}

/// The first of the lines with this opcode.
#[tactic(auto, unfolding(svm_model::specs::Instructions::RowLines::first_where))]
fn first_of(
    lines: &[RowLine],
    prefixes: Prefixes,
    rex: Rex,
    map: OpcodeMap,
    opcode: u8,
) -> Option<RowLine>
    ensures { result ≡ first_line prefixes rex map opcode lines.now }
{
    for line in lines {
        if starts(line, prefixes, rex, map, opcode) {
            return Some(*line);
        }
    }
    None
}

/// The first of the lines with this opcode and ModRM byte.
#[tactic(auto, unfolding(svm_model::specs::Instructions::RowLines::first_where))]
fn fitting_of(
    lines: &[RowLine],
    prefixes: Prefixes,
    rex: Rex,
    map: OpcodeMap,
    opcode: u8,
    modrm: u8,
) -> Option<RowLine>
    requires { rex.register ≤ 8 }
    ensures { result ≡ fitting_line prefixes rex map opcode modrm lines.now }
{
    for line in lines {
        if matches(line, prefixes, rex, map, opcode, modrm) {
            return Some(*line);
        }
    }
    None
}

/// The lines of the table.
#[tactic(auto, unfolding(svm_model::specs::Instructions::RowTable::table))]
pub fn lines() -> &'static [RowLine]
    ensures value { result.now ≡ table }
    ensures count { length result.now ≡ 137 }
{
    &TABLE
}

/// The first line of the table that is of the map, under these prefixes.
pub fn leading_line(prefixes: Prefixes, rex: Rex, map: OpcodeMap) -> Option<RowLine>
    ensures { result ≡ leading_line prefixes rex map table }
{
    let from = first_of_map(map);
    leading_of(&lines()[from..], prefixes, rex, map)
}

/// The first line of the table with this opcode.
pub fn first_line(prefixes: Prefixes, rex: Rex, map: OpcodeMap, opcode: u8) -> Option<RowLine>
    ensures { result ≡ first_line prefixes rex map opcode table }
{
    let from = first_with(map, opcode);
    first_of(&lines()[from..], prefixes, rex, map, opcode)
}

/// The first line of the table with this opcode and ModRM byte, where the first one with the opcode is known. Mostly it is
/// that one.
pub fn fitting_line(
    first: RowLine,
    prefixes: Prefixes,
    rex: Rex,
    map: OpcodeMap,
    opcode: u8,
    modrm: u8,
) -> Option<RowLine>
    requires register { rex.register ≤ 8 }
    requires first { first_line prefixes rex map opcode table ≡ Some first }
    ensures { result ≡ fitting_line prefixes rex map opcode modrm table }
{
    if takes_modrm(first.fields, rex, modrm) {
        return Some(first);
    }
    let from = first_with(map, opcode);
    fitting_of(&lines()[from..], prefixes, rex, map, opcode, modrm)
}
