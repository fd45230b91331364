// The exits of rows.
ghost use Rattle.std.specs.Prelude.{◌≡◌, ◌≤◌};
ghost use Rattle.svm_model.specs.Instructions.Guards.{guard_of};
ghost use Rattle.svm_model.specs.Svm.Intercepts.{exit_by as exit_of, exit_where as exit_if, register_bit as bit_of_register, row_exit};

use svm_model::{Exit, Field, Form, Intercept, Op, Row};
use vmcb_layout::Fields;

/// The intercept of a row, by the table of the manual.
#[tactic(auto, unfolding(svm_model::specs::Instructions::Guards::guard_of))]
fn intercept(op: Op) -> Intercept
    ensures { result ≡ (guard_of op).intercept }
{
    match op {
        Op::Pause => Intercept::WordC { number: 23 },
        Op::Hlt => Intercept::WordC { number: 24 },
        Op::Pushfq => Intercept::WordC { number: 16 },
        Op::Popfq => Intercept::WordC { number: 17 },
        Op::Int => Intercept::WordC { number: 21 },
        Op::Iretq => Intercept::WordC { number: 20 },
        Op::In | Op::Out => Intercept::Ports,
        Op::MovCr => Intercept::Control,
        Op::MovDr => Intercept::Debug,
        Op::Rdmsr | Op::Wrmsr => Intercept::Msrs,
        Op::Cpuid => Intercept::WordC { number: 18 },
        Op::Rdtsc => Intercept::WordC { number: 14 },
        Op::Lgdt => Intercept::WordC { number: 11 },
        Op::Lidt => Intercept::WordC { number: 10 },
        Op::Invlpg => Intercept::WordC { number: 25 },
        Op::Vmrun => Intercept::Always { code: 0x80 },
        Op::Vmmcall => Intercept::Word10 { number: 1 },
        Op::Vmload => Intercept::Word10 { number: 2 },
        Op::Vmsave => Intercept::Word10 { number: 3 },
        Op::Stgi => Intercept::Word10 { number: 4 },
        Op::Clgi => Intercept::Word10 { number: 5 },
        Op::Invlpga => Intercept::WordC { number: 26 },
        _ => Intercept::Never,
    }
}

/// An exit that tells its code and the next instruction, where it comes.
fn exit_where(comes: bool, code: u64, next_rip: u64) -> Option<Exit>
    ensures { result ≡ exit_if comes code next_rip }
{
    if comes {
        Some(Exit {
            code,
            info1: 0,
            info2: 0,
            next_rip,
        })
    } else {
        None
    }
}

/// The bit of a control or debug register: bits 15:0 for reads, bits 31:16 for writes.
#[tactic(auto, unfolding(svm_model::specs::Instructions::Guards::writes_special))]
fn register_bit(row: &Row) -> u16
    ensures value { result ≡ bit_of_register row.now }
    ensures few { result ≤ 271 }
{
    let base = match row.form {
        Form::MovCr0F22 | Form::MovDr0F23 => 16,
        _ => 0,
    };
    base + u16::from(row.register)
}

/// The exit of a row by the intercepts of a VMCB, with the next instruction (volume 2, 'Instruction Intercepts'). A row that a
/// permission map decides, IN, OUT, RDMSR and WRMSR, has none here, nor has a row that is never intercepted. VMRUN always
/// has one.
#[tactic(auto, unfolding(svm_model::specs::Svm::Intercepts::row_exit, svm_model::specs::Instructions::Guards::guard_of))]
pub fn by_row(fields: &Fields, row: &Row, next_rip: u64) -> Option<Exit>
    ensures { result ≡ row_exit fields.now row.now next_rip }
{
    match intercept(row.op) {
        Intercept::Never | Intercept::Ports | Intercept::Msrs => None,
        Intercept::WordC { number } => exit_where(
            fields.has_bit(Field::InterceptWordC, u16::from(number)),
            0x60 + u64::from(number),
            next_rip,
        ),
        Intercept::Word10 { number } => exit_where(
            fields.has_bit(Field::InterceptWord10, u16::from(number)),
            0x80 + u64::from(number),
            next_rip,
        ),
        Intercept::Control => {
            let bit = register_bit(row);
            exit_where(
                fields.has_bit(Field::CrIntercepts, bit),
                u64::from(bit),
                next_rip,
            )
        }
        Intercept::Debug => {
            let bit = register_bit(row);
            exit_where(
                fields.has_bit(Field::DrIntercepts, bit),
                0x20 + u64::from(bit),
                next_rip,
            )
        }
        Intercept::Always { code } => exit_where(true, u64::from(code), next_rip),
    }
}
