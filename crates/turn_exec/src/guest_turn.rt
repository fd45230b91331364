// A turn in its guest's memory.
ghost use Rattle.std.specs.Prelude.{◌≡◌, ℕ, ◌+◌, ◌*◌, ◌%◌, ◌<◌, ◌≤◌, true, not, List, Option, None, is_ok, is_some, length, IfOk, OnErr};
ghost use Rattle.fault_counts.specs.Causes.{Rose};
ghost use Rattle.svm_model.specs.Memory.Bytes.{IsWithin, SameOutside, guest_of};
ghost use Rattle.svm_model.specs.Turn.Course.{Course};
ghost use Rattle.svm_model.specs.Turn.Play.{frames_after, heard, is_refused, numbered};
ghost use Rattle.svm_model.specs.declared.names.RunEnd.{RunEnd as RunEndRecord};
ghost use Rattle.svm_model.specs.declared.ports.PortWrite.{PortWrite as PortWriteRecord};
ghost use Rattle.svm_model.specs.declared.turns.Translated.{Translated as TranslatedRecord};
ghost use Rattle.turn_exec.specs.Begun.{nothing};
ghost use Rattle.turn_exec.specs.Follows.{AreInside, IsInside};
ghost use Rattle.turn_exec.specs.Plays.{board_with, CallsFrom, IsCalled, Plays, refused_at, SameNames};

use crate::apics::{Apics, answer_to};
use crate::frames::frame_of;
use crate::parts::{read_part, translate_part, write_part};
use crate::reach::Reach;
use crate::translator::Translator;
use arrayvec::ArrayVec;
use host_memory::{GuestWindow, HostMemory, Steps};
use port_bus::Ports;
use std::sync::ledger::Ledger;
use svm_model::{
    ApicAnswer, Flush, Ipi, NoMemory, OutsideMemory, Part, PortWrite, RunEnd, Space, Translated,
    Translation,
};

/// What came of a turn's outward calls: how many were granted, the refusal by which the turn was cut off, the write to a port
/// that was refused, and the interprocessor interrupt that was sent.
#[derive(Clone, Copy)]
pub struct Outward {
    pub calls: u64,
    pub refused: Option<RunEnd>,
    pub denied: Option<PortWrite>,
    pub sent: Option<Ipi>,
}

impl Outward {
    /// Nothing, as at the start of a turn.
    pub fn new() -> Outward
        ensures { result ≡ nothing }
    {
        Outward {
            calls: 0,
            refused: None,
            denied: None,
            sent: None,
        }
    }
}

/// What a turn reaches of its guest: the parts that it has translated, and where they are; and its outward calls, of which
/// those that were granted are counted.
#[derive(Drop)]
pub struct GuestTurn<'t, 'm, 'b, 'a, 's, 'o, T: Translator, B: Ports, A: Apics, L: Ledger> {
    pub translator: &'t mut T,
    pub memory: &'m mut HostMemory,
    pub bus: &'b mut B,
    pub apics: &'a mut A,
    pub steps: &'s mut Steps<L>,
    pub outward: &'o mut Outward,
    pub window: GuestWindow,
    pub space: Space,
    pub frames: ArrayVec<u64, 18>,
    pub spent: u64,
    pub ghost within: { IsWithin window memory.now.bytes },
    pub ghost pages: { window.size % 4096 ≡ 0 },
    pub ghost some: { 4096 ≤ window.size },
    pub ghost inside: { AreInside window.size frames.items },
    /// A write to a port that was refused cuts the turn off.
    pub ghost out: { is_some outward.now.denied ≡ true → is_some outward.now.refused ≡ true },
    /// A call that is granted is one that may cost reads.
    pub ghost few: { outward.now.calls ≤ 1 + spent },
    /// A translation may cost a read at least.
    pub ghost some_cost: { 1 ≤ T.cost },
}

/// What is heard of a part whose notice may be refused: then, and behind a refusal, as if its guest ended there.
#[tactic(auto, using(port_bus::proofs::Counts::counts, crate::proofs::Calls::calls))]
fn hear(found: Result<Translated, NoMemory>, outward: &mut Outward) -> Translated
    requires room { outward.old.calls ≤ 1_000_000 }
    ensures heard { (between after : ℕ) (before last_faults : List (Option ℕ)) (last_refused : Option RunEndRecord) (last_denied : Option PortWriteRecord) (last_calls : ℕ) (place : TranslatedRecord) →
        CallsFrom outward.new.refused outward.new.denied outward.new.calls between before last_refused last_denied last_calls after last_faults →
        IfOk found (λ there. there ≡ place) → heard (is_refused (refused_at last_refused last_calls) outward.old.calls) place ≡ result }
    ensures called { (between after : ℕ) (before last_faults : List (Option ℕ)) (last_refused : Option RunEndRecord) (last_denied : Option PortWriteRecord) (last_calls : ℕ) →
        CallsFrom outward.new.refused outward.new.denied outward.new.calls between before last_refused last_denied last_calls after last_faults →
        IsCalled outward.old.calls outward.old.refused last_refused last_calls outward.new.calls outward.new.refused }
    ensures granted { (between after : ℕ) (before last_faults : List (Option ℕ)) (last_refused : Option RunEndRecord) (last_denied : Option PortWriteRecord) (last_calls : ℕ) →
        CallsFrom outward.new.refused outward.new.denied outward.new.calls between before last_refused last_denied last_calls after last_faults →
        last_refused ≡ None → is_ok found ≡ true }
    ensures calls { (first between after : ℕ) (before last_faults : List (Option ℕ)) (last_refused : Option RunEndRecord) (last_denied : Option PortWriteRecord) (last_calls : ℕ) →
        first ≤ between → OnErr found (Rose first between) →
        CallsFrom outward.new.refused outward.new.denied outward.new.calls between before last_refused last_denied last_calls after last_faults →
        CallsFrom outward.old.refused outward.old.denied outward.old.calls first before last_refused last_denied last_calls after last_faults }
    ensures inside { (size : ℕ) → IfOk found (λ there. IsInside size there) → IsInside size result }
    ensures few { outward.new.calls ≤ outward.old.calls + 1 }
    ensures denied { outward.new.denied ≡ outward.old.denied }
    ensures sent { outward.new.sent ≡ outward.old.sent }
    ensures kept { is_some outward.old.refused ≡ true → is_some outward.new.refused ≡ true }
{
    if outward.refused.is_some() {
        return Translated::Outside { address: 0 };
    }
    match found {
        Ok(found) => {
            outward.calls += 1;
            found
        }
        Err(_) => {
            outward.refused = Some(RunEnd::NoMemory);
            Translated::Outside { address: 0 }
        }
    }
}

/// Whether a flush whose notice may be refused is done; none is behind a refusal.
#[tactic(auto, using(port_bus::proofs::Counts::counts, crate::proofs::Calls::calls))]
fn grant(dropped: Result<(), NoMemory>, outward: &mut Outward) -> bool
    requires room { outward.old.calls ≤ 1_000_000 }
    ensures done { (between after : ℕ) (before last_faults : List (Option ℕ)) (last_refused : Option RunEndRecord) (last_denied : Option PortWriteRecord) (last_calls : ℕ) →
        CallsFrom outward.new.refused outward.new.denied outward.new.calls between before last_refused last_denied last_calls after last_faults →
        not (is_refused (refused_at last_refused last_calls) outward.old.calls) ≡ result }
    ensures called { (between after : ℕ) (before last_faults : List (Option ℕ)) (last_refused : Option RunEndRecord) (last_denied : Option PortWriteRecord) (last_calls : ℕ) →
        CallsFrom outward.new.refused outward.new.denied outward.new.calls between before last_refused last_denied last_calls after last_faults →
        IsCalled outward.old.calls outward.old.refused last_refused last_calls outward.new.calls outward.new.refused }
    ensures granted { (between after : ℕ) (before last_faults : List (Option ℕ)) (last_refused : Option RunEndRecord) (last_denied : Option PortWriteRecord) (last_calls : ℕ) →
        CallsFrom outward.new.refused outward.new.denied outward.new.calls between before last_refused last_denied last_calls after last_faults →
        last_refused ≡ None → is_ok dropped ≡ true }
    ensures calls { (first between after : ℕ) (before last_faults : List (Option ℕ)) (last_refused : Option RunEndRecord) (last_denied : Option PortWriteRecord) (last_calls : ℕ) →
        first ≤ between → OnErr dropped (Rose first between) →
        CallsFrom outward.new.refused outward.new.denied outward.new.calls between before last_refused last_denied last_calls after last_faults →
        CallsFrom outward.old.refused outward.old.denied outward.old.calls first before last_refused last_denied last_calls after last_faults }
    ensures few { outward.new.calls ≤ outward.old.calls + 1 }
    ensures denied { outward.new.denied ≡ outward.old.denied }
    ensures sent { outward.new.sent ≡ outward.old.sent }
    ensures kept { is_some outward.old.refused ≡ true → is_some outward.new.refused ≡ true }
{
    if outward.refused.is_some() {
        return false;
    }
    match dropped {
        Ok(()) => {
            outward.calls += 1;
            true
        }
        Err(_) => {
            outward.refused = Some(RunEnd::NoMemory);
            false
        }
    }
}

/// The frame of a part that is there comes behind the others.
fn note(found: Translated, frames: &mut ArrayVec<u64, 18>)
    requires room { length frames.old.items < 18 }
    ensures frames { frames.new.items ≡ frames_after frames.old.items found }
    ensures inside { (size : ℕ) → AreInside size frames.old.items → IsInside size found → AreInside size frames.new.items }
    ensures few { length frames.new.items ≤ length frames.old.items + 1 }
{
    if let Translated::Here { frame } = found {
        frames.push(frame.0);
    }
}

/// What is learned of a part, where so many have a number.
fn numbered(number: u8, found: Translated) -> Translation
    ensures { result ≡ numbered number found }
{
    match found {
        Translated::Here { .. } => Translation::Here { number },
        Translated::OnApic => Translation::OnApic,
        Translated::Faults { code } => Translation::Faults { code },
        Translated::NestedFault { code, address } => Translation::NestedFault { code, address },
        Translated::Outside { address } => Translation::Outside { address },
    }
}

impl<'t, 'm, 'b, 'a, 's, 'o, T: Translator, B: Ports, A: Apics, L: Ledger> Reach
    for GuestTurn<'t, 'm, 'b, 'a, 's, 'o, T, B, A, L> {
    ghost plays = { λ m course last vcpu stepped.
        SameNames m.translator.ghost_name last.translator.ghost_name m.memory.ghost_name last.memory.ghost_name m.bus.ghost_name last.bus.ghost_name m.apics.ghost_name last.apics.ghost_name m.steps.ghost_name last.steps.ghost_name m.outward.ghost_name last.outward.ghost_name (T.name m.translator.now) (T.name last.translator.now)
        × (((last.steps.now + T.cost * m.spent ≤ m.steps.now + T.cost * last.spent) × (m.steps.now ≤ last.steps.now))
        × (CallsFrom m.outward.now.refused m.outward.now.denied m.outward.now.calls (T.refusals m.translator.now) (B.faults m.bus.now) last.outward.now.refused last.outward.now.denied last.outward.now.calls (T.refusals last.translator.now) (B.faults last.bus.now)
        × Plays T.stands T.tells T.copies T.rule m.space m.window m.translator.now m.memory.now (board_with (B.bus m.bus.now) (A.apic m.apics.now) m.outward.now.sent m.outward.now.calls m.outward.now.refused m.outward.now.denied) m.frames.items course
        last.translator.now last.memory.now (board_with (B.bus last.bus.now) (A.apic last.apics.now) last.outward.now.sent last.outward.now.calls last.outward.now.refused last.outward.now.denied) last.outward.now.refused vcpu stepped)) };

    ghost spent = { λ m. m.spent };

    ghost parts = { λ m. length m.frames.items };

    fn release(&mut self) {
        self.frames = ArrayVec::new();
    }

    #[tactic(auto, using(svm_model::proofs::WindowLemmas::windows, crate::proofs::Hearing::on_heard))]
    fn translate(&mut self, part: Part) -> Translation {
        self.spent += 1;
        let found = translate_part(
            self.translator,
            self.memory,
            self.window,
            &self.space,
            part,
            self.steps,
        );
        let found = hear(found, self.outward);
        let number = self.frames.len() as u8;
        note(found, &mut self.frames);
        numbered(number, found)
    }

    #[inline(always)]
    #[tactic(auto, using(svm_model::proofs::WindowLemmas::windows, crate::proofs::Costs::costs))]
    fn read(&mut self, number: usize, address: u64, count: u8) -> [u8; 16] {
        let frame = frame_of(&self.frames, number, self.window.size);
        self.spent += 1;
        read_part(self.memory, self.window, frame, address, count, self.steps)
    }

    #[inline(always)]
    #[tactic(auto, using(svm_model::proofs::WindowLemmas::windows))]
    fn write(&mut self, number: usize, address: u64, bytes: &[u8]) {
        let frame = frame_of(&self.frames, number, self.window.size);
        write_part(self.memory, self.window, frame, address, bytes);
    }

    #[tactic(auto, using(svm_model::proofs::WindowLemmas::windows, port_bus::proofs::Counts::counts, crate::proofs::Costs::costs))]
    fn look(&mut self, address: u64, count: u8) -> Result<[u8; 16], OutsideMemory> {
        self.spent += 1;
        let mut bytes = [0; 16];
        match self
            .memory
            .read_guest(self.window, address, count, &mut bytes, self.steps)
        {
            Ok(()) => Ok(bytes),
            Err(outside) => Err(outside),
        }
    }

    #[tactic(auto, using(svm_model::proofs::WindowLemmas::windows, crate::proofs::Calls::calls, crate::proofs::Costs::costs))]
    fn flush(&mut self, flush: Flush) -> bool {
        self.spent += 1;
        let dropped = self.translator.flush(flush);
        grant(dropped, self.outward)
    }

    #[tactic(auto, using(svm_model::proofs::WindowLemmas::windows, port_bus::proofs::Counts::counts))]
    fn input(&mut self, port: u16, width: u8) -> u32 {
        self.bus.read_port(port, width)
    }

    #[tactic(auto, using(svm_model::proofs::WindowLemmas::windows, crate::proofs::Calls::calls, crate::proofs::Costs::costs))]
    fn output(&mut self, write: &PortWrite) -> bool {
        self.spent += 1;
        if self.outward.refused.is_some() {
            return false;
        }
        match self.bus.write_port(write) {
            Ok(()) => {
                self.outward.calls += 1;
                true
            }
            Err(end) => {
                self.outward.refused = Some(end);
                self.outward.denied = Some(*write);
                false
            }
        }
    }

    #[tactic(auto, using(svm_model::proofs::WindowLemmas::windows, port_bus::proofs::Counts::counts))]
    fn apic_read(&mut self, offset: u16, event: u32) -> ApicAnswer {
        match self.apics.read(offset, event) {
            Some(value) => ApicAnswer::Value { value },
            None => ApicAnswer::Unoffered,
        }
    }

    #[tactic(auto, using(svm_model::proofs::WindowLemmas::windows, port_bus::proofs::Counts::counts))]
    fn apic_write(&mut self, offset: u16, value: u32, event: u32) -> ApicAnswer {
        let written = self.apics.write(offset, value, event);
        answer_to(written, &mut self.outward.sent)
    }

    #[tactic(auto, using(svm_model::proofs::WindowLemmas::windows, port_bus::proofs::Counts::counts))]
    fn take(&mut self) {
        self.apics.take();
    }

    #[tactic(auto, using(svm_model::proofs::WindowLemmas::windows, port_bus::proofs::Counts::counts))]
    fn set_priority(&mut self, tpr: u8) {
        self.apics.set_priority(tpr);
    }
}
