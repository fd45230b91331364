// Translates parts of pages, and reads and writes in their frames.
ghost use Rattle.std.specs.Prelude.{◌≡◌, ℕ, ◌+◌, ◌*◌, ◌/◌, ◌%◌, ◌^◌, ◌<◌, ◌≤◌, List, length, take, drop, IfOk, OnErr};
ghost use Rattle.fault_counts.specs.Causes.{Rose};
ghost use Rattle.svm_model.specs.Memory.Bytes.{IsWithin, SameOutside, guest_of, put_at};
ghost use Rattle.svm_model.specs.Memory.PhysicalAnswers.{IsPhysical};
ghost use Rattle.svm_model.specs.Turn.Course.{Told, told_of};
ghost use Rattle.svm_model.specs.Turn.Play.{access_of, apic_frame, located, missed_at, place_in, translated};
ghost use Rattle.turn_exec.specs.Follows.{Finds, IsInside, Needs};

use crate::translator::Translator;
use host_memory::{GuestWindow, HostMemory, Steps};
use std::sync::ledger::Ledger;
use svm_model::{Access, Frame, LinearPage, Nested, NoMemory, Part, Space, Translated};

// The page of the local APIC, FEE00000h.
const APIC_FRAME: u64 = 0xfee00;

/// Where a part lies, by its frame.
#[tactic(auto, using(svm_model::proofs::WindowLemmas::windows))]
fn locate(memory: &HostMemory, window: GuestWindow, frame: Frame, part: Part) -> Translated
    requires window { IsWithin window memory.now.bytes }
    requires pages { window.size % 4096 ≡ 0 }
    requires width { frame.0 < 2 ^ 28 }
    ensures located { result ≡ located part frame.0 (guest_of window memory.now.bytes) }
    ensures inside { IsInside window.size result }
{
    let start = 4096 * frame.0;
    if frame.0 == APIC_FRAME {
        Translated::OnApic
    } else if start < window.size {
        Translated::Here { frame }
    } else {
        Translated::Outside {
            address: start + part.address % 4096,
        }
    }
}

fn access_to(part: Part) -> Access
    ensures { result ≡ access_of part }
{
    Access {
        page: LinearPage(part.address / 4096),
        kind: part.kind,
        user: part.user,
    }
}

/// The address of a nested fault: that of a table entry, or of the part's first byte in its final page.
fn missed_at(part: Part, code: u64, address: u64) -> u64
    requires { address < 2 ^ 63 }
    ensures { result ≡ missed_at part code address }
{
    if code < 0x2_0000_0000 {
        address + part.address % 4096
    } else {
        address
    }
}

/// Where a part lies, by the walk for it.
fn place(memory: &HostMemory, window: GuestWindow, part: Part, answer: Nested) -> Translated
    requires window { IsWithin window memory.now.bytes }
    requires pages { window.size % 4096 ≡ 0 }
    requires physical { IsPhysical answer }
    ensures translated { result ≡ translated part answer (guest_of window memory.now.bytes) }
    ensures inside { IsInside window.size result }
{
    match answer {
        Nested::Leaf { leaf, .. } => locate(memory, window, leaf.frame, part),
        Nested::Bar { .. } => Translated::OnApic,
        Nested::PageFault { code } => Translated::Faults { code },
        Nested::NestedFault { code, address } => Translated::NestedFault {
            code,
            address: missed_at(part, code, address),
        },
        Nested::Ended(outside) => Translated::Outside {
            address: outside.address,
        },
    }
}

/// Translates a part of a page, unless its notice is refused.
#[tactic(auto, using(svm_model::proofs::WindowLemmas::windows))]
pub fn translate_part<T: Translator, L: Ledger>(
    translator: &mut T,
    memory: &mut HostMemory,
    window: GuestWindow,
    space: &Space,
    part: Part,
    steps: &mut Steps<L>,
) -> Result<Translated, NoMemory>
    requires window { IsWithin window memory.old.bytes }
    requires pages { window.size % 4096 ≡ 0 }
    ensures finds { (history : List Told) → T.stands translator.old history →
        Needs T.copies (T.rule history (told_of space.now (guest_of window memory.old.bytes) (access_of part))) →
        Finds T.stands T.tells space.now (guest_of window memory.old.bytes) part history translator.old result translator.new (guest_of window memory.new.bytes) }
    ensures inside { IfOk result (λ found. IsInside window.size found) }
    ensures refused { OnErr result (Rose (T.refusals translator.old) (T.refusals translator.new)) }
    ensures none_fell { T.refusals translator.old ≤ T.refusals translator.new }
    ensures name { T.name translator.new ≡ T.name translator.old }
    ensures others { SameOutside window memory.old memory.new }
    ensures steps { steps.new ≤ steps.old + T.cost }
    ensures later { steps.old ≤ steps.new }
{
    match translator.translate(memory, window, space, access_to(part), steps) {
        Ok(answer) => Ok(place(memory, window, part, answer)),
        Err(refusal) => Err(refusal),
    }
}

/// Reads bytes of a page, from the offset of a linear address on, by one counted read.
#[tactic(auto, using(svm_model::proofs::WindowLemmas::windows))]
pub fn read_part<L: Ledger>(
    memory: &HostMemory,
    window: GuestWindow,
    frame: u64,
    address: u64,
    count: u8,
    steps: &mut Steps<L>,
) -> [u8; 16]
    requires window { IsWithin window memory.now.bytes }
    requires inside { 4096 * frame + 4096 ≤ window.size }
    requires some { 1 ≤ count }
    requires few { count ≤ 15 }
    requires page { address % 4096 + count ≤ 4096 }
    ensures bytes { take count result ≡ take count (drop (place_in frame address) (guest_of window memory.now.bytes)) }
    ensures steps { steps.new ≡ steps.old + 1 }
{
    let mut bytes = [0; 16];
    let _ = memory.read_guest(
        window,
        4096 * frame + address % 4096,
        count,
        &mut bytes,
        steps,
    );
    bytes
}

/// Writes bytes in a page, from the offset of a linear address on.
#[tactic(auto, using(svm_model::proofs::WindowLemmas::windows))]
pub fn write_part(
    memory: &mut HostMemory,
    window: GuestWindow,
    frame: u64,
    address: u64,
    bytes: &[u8],
)
    requires window { IsWithin window memory.old.bytes }
    requires inside { 4096 * frame + 4096 ≤ window.size }
    requires some { 1 ≤ length bytes.now }
    requires few { length bytes.now ≤ 8 }
    requires page { address % 4096 + length bytes.now ≤ 4096 }
    ensures written { guest_of window memory.new.bytes ≡ put_at (guest_of window memory.old.bytes) (place_in frame address) bytes.now }
    ensures others { SameOutside window memory.old memory.new }
{
    let mut piece = [0; 16];
    piece[..bytes.len()].copy_from_slice(bytes);
    let _ = memory.write_guest(
        window,
        4096 * frame + address % 4096,
        &piece,
        bytes.len() as u8,
    );
}
