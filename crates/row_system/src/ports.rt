// IN and OUT (volume 3, 'IN', 'OUT').
ghost use Rattle.std.specs.Prelude.{◌≡◌, List, ℕ};
ghost use Rattle.svm_model.specs.Instructions.Operands.{state};
ghost use Rattle.svm_model.specs.Instructions.SystemState.{Fits, asking, output_of, port_bytes, port_of, reads_port, writes_port};
ghost use Rattle.svm_model.specs.Machine.Bus.{IsWidth};
ghost use Rattle.row_system.specs.Moving.{MovesOn};

use crate::registers::{RAX, RDX, step_over};
use register_file::whole_register;
use row_table::names_dx;
use svm_model::{Outside, Registers, Row, Width};

/// The port of IN and OUT: in DX, or a byte of the instruction (volume 3, 'IN', 'OUT').
pub fn port_of(row: &Row, registers: &Registers) -> u16
    ensures { result ≡ port_of row.now registers.now }
{
    let port = if names_dx(row.form) {
        whole_register(registers, RDX)
    } else {
        row.immediate
    };
    (port % 0x1_0000) as u16
}

/// How many bytes IN and OUT move: 1, 2 or 4 (volume 3, 'IN', 'OUT').
pub fn port_bytes(width: Width) -> u8
    ensures count { result ≡ port_bytes width }
    ensures width { IsWidth result }
{
    match width {
        Width::W8 => 1,
        Width::W16 => 2,
        Width::W32 | Width::W64 => 4,
    }
}

/// What OUT writes: AL, AX or EAX.
fn output_of(width: Width, registers: &Registers) -> u32
    ensures { result ≡ output_of width registers.now }
{
    let whole = whole_register(registers, RAX);
    match width {
        Width::W8 => (whole % 0x100) as u32,
        Width::W16 => (whole % 0x1_0000) as u32,
        Width::W32 | Width::W64 => (whole % 0x1_0000_0000) as u32,
    }
}

/// IN. What the port gives is written by who reads it.
pub fn read_port(row: &Row, registers: &mut Registers, next_rip: u64) -> Outside
    ensures answer { (results : List ℕ) → reads_port row.now next_rip (state registers.old results) ≡ asking result (state registers.new results) }
    ensures fits { Fits result }
    ensures moves_on { MovesOn next_rip registers.new result }
{
    let port = port_of(row, registers);
    let width = port_bytes(row.width);
    step_over(registers, next_rip);
    Outside::PortRead { port, width }
}

/// OUT.
pub fn write_port(row: &Row, registers: &mut Registers, next_rip: u64) -> Outside
    ensures answer { (results : List ℕ) → writes_port row.now next_rip (state registers.old results) ≡ asking result (state registers.new results) }
    ensures fits { Fits result }
    ensures moves_on { MovesOn next_rip registers.new result }
{
    let port = port_of(row, registers);
    let width = port_bytes(row.width);
    let value = output_of(row.width, registers);
    step_over(registers, next_rip);
    Outside::PortWrite { port, width, value }
}
