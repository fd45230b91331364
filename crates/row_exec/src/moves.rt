// Rows that move data.
ghost use Rattle.std.specs.Prelude.{◌≡◌, ◌^◌, ◌<◌};
ghost use Rattle.svm_model.specs.Instructions.Widths.{bits};
ghost use Rattle.svm_model.specs.Instructions.Operands.{state};
ghost use Rattle.svm_model.specs.Instructions.Moves.{moves, movzx_extends, extended_by_sign, movsx_extends, lea_loads, cmovcc_moves, setcc_sets, half_of, cbw_extends, cwd_spreads_sign};

use crate::conditions::condition_holds;
use crate::sources::source_value;
use crate::widths::ones;
use flag_math::is_negative;
use register_file::{
    ACCUMULATOR, RDX, effective_address, operand_value, read_flags, register_named, write_operand,
    write_rip,
};
use row_table::{destination, operand_width};
use svm_model::{Registers, Row, Width};

/// MOV.
#[tactic(auto, unfolding(svm_model::specs::Instructions::Moves::moves))]
pub fn apply_move(
    row: &Row,
    registers: &mut Registers,
    next_rip: u64,
    values: &[u64; 8],
    results: &mut [u64; 8],
)
    ensures { state registers.new results.new ≡ moves row.now next_rip values.now (state registers.old results.old) }
{
    let value = source_value(row, registers, values);
    write_operand(row.width, destination(row), value, registers, results);
    write_rip(registers, next_rip);
}

/// MOVZX.
#[tactic(auto, unfolding(svm_model::specs::Instructions::Moves::movzx_extends))]
pub fn apply_movzx(
    row: &Row,
    registers: &mut Registers,
    next_rip: u64,
    values: &[u64; 8],
    results: &mut [u64; 8],
)
    ensures { state registers.new results.new ≡ movzx_extends row.now next_rip values.now (state registers.old results.old) }
{
    let value = operand_value(operand_width(row), row.operand, registers, values);
    write_operand(
        row.width,
        register_named(row.register),
        value,
        registers,
        results,
    );
    write_rip(registers, next_rip);
}

/// An operand as 64 bits of the same signed number.
#[tactic(auto, unfolding(svm_model::specs::Instructions::Moves::extended_by_sign))]
fn extended_by_sign(width: Width, value: u64) -> u64
    requires { value < 2 ^ bits width }
    ensures { result ≡ extended_by_sign width value }
{
    match width {
        Width::W8 if value >= 0x80 => value + 0xffff_ffff_ffff_ff00,
        Width::W16 if value >= 0x8000 => value + 0xffff_ffff_ffff_0000,
        Width::W32 if value >= 0x8000_0000 => value + 0xffff_ffff_0000_0000,
        _ => value,
    }
}

/// MOVSX and MOVSXD.
#[tactic(auto, unfolding(svm_model::specs::Instructions::Moves::movsx_extends))]
pub fn apply_movsx(
    row: &Row,
    registers: &mut Registers,
    next_rip: u64,
    values: &[u64; 8],
    results: &mut [u64; 8],
)
    ensures { state registers.new results.new ≡ movsx_extends row.now next_rip values.now (state registers.old results.old) }
{
    let from = operand_width(row);
    let value = extended_by_sign(from, operand_value(from, row.operand, registers, values));
    write_operand(
        row.width,
        register_named(row.register),
        value,
        registers,
        results,
    );
    write_rip(registers, next_rip);
}

/// LEA.
#[tactic(auto, unfolding(svm_model::specs::Instructions::Moves::lea_loads))]
pub fn apply_lea(row: &Row, registers: &mut Registers, next_rip: u64, results: &mut [u64; 8])
    ensures { state registers.new results.new ≡ lea_loads row.now next_rip (state registers.old results.old) }
{
    let address = effective_address(row.operand, next_rip, registers);
    write_operand(
        row.width,
        register_named(row.register),
        address,
        registers,
        results,
    );
    write_rip(registers, next_rip);
}

/// CMOVcc.
#[tactic(auto, unfolding(svm_model::specs::Instructions::Moves::cmovcc_moves))]
pub fn apply_cmovcc(
    row: &Row,
    registers: &mut Registers,
    next_rip: u64,
    values: &[u64; 8],
    results: &mut [u64; 8],
)
    ensures { state registers.new results.new ≡ cmovcc_moves row.now next_rip values.now (state registers.old results.old) }
{
    let target = register_named(row.register);
    let source = operand_value(row.width, row.operand, registers, values);
    let old = operand_value(row.width, target, registers, values);
    let value = if condition_holds(row.condition, read_flags(registers)) {
        source
    } else {
        old
    };
    write_operand(row.width, target, value, registers, results);
    write_rip(registers, next_rip);
}

/// SETcc.
#[tactic(auto, unfolding(svm_model::specs::Instructions::Moves::setcc_sets))]
pub fn apply_setcc(row: &Row, registers: &mut Registers, next_rip: u64, results: &mut [u64; 8])
    ensures { state registers.new results.new ≡ setcc_sets row.now next_rip (state registers.old results.old) }
{
    let holds = condition_holds(row.condition, read_flags(registers));
    write_operand(Width::W8, row.operand, u64::from(holds), registers, results);
    write_rip(registers, next_rip);
}

fn half_of(width: Width) -> Width
    ensures { result ≡ half_of width }
{
    match width {
        Width::W64 => Width::W32,
        Width::W32 => Width::W16,
        Width::W16 | Width::W8 => Width::W8,
    }
}

/// CBW, CWDE and CDQE.
#[tactic(auto, unfolding(svm_model::specs::Instructions::Moves::cbw_extends))]
pub fn apply_cbw(
    row: &Row,
    registers: &mut Registers,
    next_rip: u64,
    values: &[u64; 8],
    results: &mut [u64; 8],
)
    ensures { state registers.new results.new ≡ cbw_extends row.now next_rip values.now (state registers.old results.old) }
{
    let half = half_of(row.width);
    let value = extended_by_sign(half, operand_value(half, ACCUMULATOR, registers, values));
    write_operand(row.width, ACCUMULATOR, value, registers, results);
    write_rip(registers, next_rip);
}

/// CWD, CDQ and CQO.
#[tactic(auto, unfolding(svm_model::specs::Instructions::Moves::cwd_spreads_sign))]
pub fn apply_cwd(
    row: &Row,
    registers: &mut Registers,
    next_rip: u64,
    values: &[u64; 8],
    results: &mut [u64; 8],
)
    ensures { state registers.new results.new ≡ cwd_spreads_sign row.now next_rip values.now (state registers.old results.old) }
{
    let low = operand_value(row.width, ACCUMULATOR, registers, values);
    let copies = if is_negative(row.width, low) {
        ones(row.width)
    } else {
        0
    };
    write_operand(row.width, RDX, copies, registers, results);
    write_rip(registers, next_rip);
}
