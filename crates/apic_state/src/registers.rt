// The registers of the APIC's page, by their offsets (volume 2, 'Local APIC Registers').
ghost use Rattle.std.specs.Prelude.{◌≡◌, IfSome};
ghost use Rattle.svm_model.specs.Machine.ApicRegisters.{is_on_line as on_line, place_of as place_at, place_on as place_among};
ghost use Rattle.apic_state.specs.Places.{AreLines, IsNumbered};

use svm_model::{APIC_REGISTERS, ApicPlace, ApicRegisterLine};

fn is_on_line(line: &ApicRegisterLine, offset: u16) -> bool
    ensures { result ≡ on_line line.now offset }
{
    line.offset <= offset
        && u32::from(offset) < u32::from(line.offset) + 16 * u32::from(line.count)
        && offset % 16 == 0
}

/// The register of an offset among these lines.
#[tactic(auto, unfolding(svm_model::specs::Machine::ApicRegisters::place_on))]
fn place_on(lines: &[ApicRegisterLine], offset: u16) -> Option<ApicPlace>
    requires { AreLines lines.now }
    ensures place { result ≡ place_among lines.now offset }
    ensures number { IfSome result IsNumbered }
{
    let [line, rest @ ..] = lines else {
        return None;
    };
    if !is_on_line(line, offset) {
        return place_on(rest, offset);
    }
    Some(ApicPlace {
        register: line.register,
        number: ((offset - line.offset) / 16) as u8,
    })
}

/// The register of an offset, where one is there.
pub fn place_of(offset: u16) -> Option<ApicPlace>
    ensures place { result ≡ place_at offset }
    ensures number { IfSome result IsNumbered }
{
    place_on(&APIC_REGISTERS, offset)
}
