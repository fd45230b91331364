// Who watches is told of a turn: of each access that is walked for, and of what a VMRUN and a #VMEXIT find, drop and store.
ghost use Rattle.std.specs.Prelude.{◌≡◌, ℕ, ◌+◌, ◌≤◌, List, [], None, not, is_ok, true, false, IfOk, OnOk, OnErr};
ghost use Rattle.fault_counts.specs.Causes.{Rose};
ghost use Rattle.svm_model.specs.Audit.Makings.{leaf_of, making, outcome_of, passed_leaf, passed_outcome, passing};
ghost use Rattle.svm_model.specs.Audit.WatchCalls.{Finds, Flushes, Leaves, Makes, Notice, made_in, noticed_passes, told_first};
ghost use Rattle.svm_model.specs.Memory.Bytes.{IsWithin, SameOutside, guest_of};
ghost use Rattle.svm_model.specs.Memory.NestedPaging.{walked_over};
ghost use Rattle.svm_model.specs.Memory.PhysicalAnswers.{IsPhysical};
ghost use Rattle.svm_model.specs.Svm.Vmcb.{values_of};
ghost use Rattle.svm_model.specs.Turn.Course.{Board, told_of};
ghost use Rattle.svm_model.specs.Turn.Play.{called, is_refused};
ghost use Rattle.turn_exec.specs.Plays.{IsCause, refused_at};
ghost use Rattle.turn_exec.specs.declared.guest_turn.Outward.{Outward as OutwardRecord};
ghost use Rattle.watch.specs.Leads.{Leads};
ghost use Rattle.plain_machine.specs.Turning.{heard_board, IsGoing, Later};

use arrayvec::ArrayVec;
use host_memory::{GuestWindow, HostMemory, Steps};
use nested_walk::nested_walk;
use page_walk::{answer_of, walk};
use std::sync::ledger::Ledger;
use svm_model::{
    Access, Field, Flush, Leaf, LinearPage, Made, Nested, Nesting, NoMemory, Outcome, Outer, Pass,
    RunEnd, Space, TurnId, Walked,
};
use turn_exec::{Outward, Translator};
use vmcb_layout::Fields;
use watch::Watch;

/// The way to translate that keeps no copies: it walks for each access, and tells one who watches of it, in a turn.
#[derive(Drop)]
pub struct Walking<'w, W: Watch> {
    pub watch: &'w mut W,
    pub turn: TurnId,
}

/// The leaf that a walk found.
fn leaf_in(answer: Nested) -> Option<Leaf>
    ensures { result ≡ leaf_of answer }
{
    match answer {
        Nested::Leaf { leaf, .. } | Nested::Bar { leaf, .. } => Some(leaf),
        Nested::PageFault { .. } | Nested::NestedFault { .. } | Nested::Ended(_) => None,
    }
}

/// What a walk came to.
fn outcome_in(answer: Nested) -> Outcome
    ensures { result ≡ outcome_of answer }
{
    match answer {
        Nested::Leaf { leaf, changed, .. } | Nested::Bar { leaf, changed } => Outcome::Frame {
            frame: leaf.frame,
            changed,
        },
        Nested::PageFault { code } => Outcome::Fault {
            code: u64::from(code),
        },
        Nested::NestedFault { code, .. } => Outcome::Fault { code },
        Nested::Ended(_) => Outcome::End,
    }
}

/// The translation that a walk for an access makes.
fn made_by(turn: TurnId, space: &Space, access: Access, answer: Nested) -> Made
    ensures { result ≡ made_in turn (making space.now.asid space.now.paging.write_protect access answer) }
{
    Made {
        turn,
        asid: space.asid,
        nested: false,
        access,
        write_protect: space.paging.write_protect,
        leaf: leaf_in(answer),
        outcome: outcome_in(answer),
    }
}

/// The leaf that a pass through the outer tables found.
fn passed_leaf_in(walked: Walked) -> Option<Leaf>
    ensures { result ≡ passed_leaf walked }
{
    match walked {
        Walked::Leaf { leaf, .. } => Some(leaf),
        Walked::PageFault { .. } | Walked::Ended(_) => None,
    }
}

/// What a pass through the outer tables came to.
fn passed_outcome_in(walked: Walked) -> Outcome
    ensures { result ≡ passed_outcome walked }
{
    match walked {
        Walked::Leaf { leaf, changed } => Outcome::Frame {
            frame: leaf.frame,
            changed,
        },
        Walked::PageFault { code } => Outcome::Fault {
            code: u64::from(code),
        },
        Walked::Ended(_) => Outcome::End,
    }
}

/// The translation that a pass through the outer tables makes, which is a user's access.
fn made_passing(turn: TurnId, space: &Space, pass: &Pass) -> Made
    ensures { result ≡ made_in turn (passing space.now.asid space.now.paging.write_protect pass.now) }
{
    Made {
        turn,
        asid: space.asid,
        nested: true,
        access: Access {
            page: LinearPage(pass.page.0),
            kind: pass.kind,
            user: true,
        },
        write_protect: space.paging.write_protect,
        leaf: passed_leaf_in(pass.walked),
        outcome: passed_outcome_in(pass.walked),
    }
}

/// Tells of the passes of an access through the outer tables, in their order, before others.
fn tell_passes<W: Watch>(
    watch: &mut W,
    turn: TurnId,
    space: &Space,
    passes: &[Pass],
) -> Result<(), NoMemory>
    ensures told { OnOk result ((next : List Notice) (final : W) → Leads W.tells watch.new next final →
        Leads W.tells watch.old (noticed_passes turn space.now.asid space.now.paging.write_protect passes.now next) final) }
    ensures refused { OnErr result (Rose (W.refusals watch.old) (W.refusals watch.new)) }
    ensures later { W.refusals watch.old ≤ W.refusals watch.new }
{
    let [pass, rest @ ..] = passes else {
        return Ok(());
    };
    watch.made(&made_passing(turn, space, pass))?;
    tell_passes(watch, turn, space, rest)
}

impl<'w, W: Watch> Walking<'w, W> {
    /// The walk over both levels of tables, and its passes are told. It stands apart from a walk of one level, which has none of
    /// its room on the stack.
    #[inline(never)]
    fn walk_both<L: Ledger>(
        &mut self,
        memory: &mut HostMemory,
        window: GuestWindow,
        space: &Space,
        outer: &Nesting,
        access: Access,
        steps: &mut Steps<L>,
    ) -> Result<Nested, NoMemory>
        requires window { IsWithin window memory.old.bytes }
        ensures answer { IfOk result (λ answer. answer ≡ (walked_over (Outer.Tables outer.now) (guest_of window memory.old.bytes) space.now.paging access).answer) }
        ensures memory { guest_of window memory.new.bytes ≡ (walked_over (Outer.Tables outer.now) (guest_of window memory.old.bytes) space.now.paging access).memory }
        ensures physical { IfOk result IsPhysical }
        ensures others { SameOutside window memory.old memory.new }
        ensures told { OnOk result ((next : List Notice) (final : W) → Leads W.tells self.new.watch.now next final →
            Leads W.tells self.old.watch.now (noticed_passes self.old.turn space.now.asid space.now.paging.write_protect (walked_over (Outer.Tables outer.now) (guest_of window memory.old.bytes) space.now.paging access).passes next) final) }
        ensures refused { OnErr result (Rose (W.refusals self.old.watch.now) (W.refusals self.new.watch.now)) }
        ensures none_fell { W.refusals self.old.watch.now ≤ W.refusals self.new.watch.now }
        ensures turn { self.new.turn ≡ self.old.turn }
        ensures name { self.new.watch.ghost_name ≡ self.old.watch.ghost_name }
        ensures steps { steps.new ≤ steps.old + 28 }
        ensures later { steps.old ≤ steps.new }
    {
        let mut passes = ArrayVec::new();
        let answer = nested_walk(
            memory,
            window,
            &space.paging,
            outer,
            access,
            &mut passes,
            steps,
        );
        tell_passes(self.watch, self.turn, space, &passes)?;
        Ok(answer)
    }
}

impl<'w, W: Watch> Translator for Walking<'w, W> {
    ghost stands = { λ _ _. Unit {0} };

    ghost tells = { λ t told u. (u.turn ≡ t.turn) × Leads W.tells t.watch.now (told_first t.turn told []) u.watch.now };

    ghost copies = { false };

    ghost rule = { λ _ _. true };

    ghost refusals = { λ t. W.refusals t.watch.now };

    ghost name = { λ t. t.watch.ghost_name };

    ghost cost = { 28 };

    fn translate<L: Ledger>(
        &mut self,
        memory: &mut HostMemory,
        window: GuestWindow,
        space: &Space,
        access: Access,
        steps: &mut Steps<L>,
    ) -> Result<Nested, NoMemory> {
        let answer = match &space.outer {
            Outer::Direct => answer_of(walk(memory, window, &space.paging, access, steps)),
            Outer::Tables(outer) => self.walk_both(memory, window, space, outer, access, steps)?,
        };
        self.watch.made(&made_by(self.turn, space, access, answer))?;
        Ok(answer)
    }

    fn flush(&mut self, flush: Flush) -> Result<(), NoMemory> {
        self.watch.flushed(self.turn.vcpu, flush)
    }
}

/// Whether a notice was granted; where it was refused the turn is cut off.
fn hear(heard: Result<(), NoMemory>, outward: &mut Outward) -> bool
    requires going { IsGoing outward.old }
    requires few { outward.old.calls ≤ 1000 }
    ensures answer { result ≡ is_ok heard }
    ensures granted { (last : OutwardRecord) → Later outward.new last → is_refused (refused_at last.refused last.calls) outward.old.calls ≡ not result }
    ensures board { (board : Board) → heard_board board outward.new ≡ called (not result) (heard_board board outward.old) }
    ensures going { result ≡ true → IsGoing outward.new }
    ensures cause { (old new : ℕ) → OnErr heard (Rose old new) → IsCause outward.new.refused None old new }
    ensures more { outward.old.calls ≤ outward.new.calls }
    ensures few { outward.new.calls ≤ outward.old.calls + 1 }
    ensures denied { outward.new.denied ≡ outward.old.denied }
    ensures sent { outward.new.sent ≡ outward.old.sent }
{
    match heard {
        Ok(()) => {
            outward.calls += 1;
            true
        }
        Err(NoMemory) => {
            outward.refused = Some(RunEnd::NoMemory);
            false
        }
    }
}

impl<'w, W: Watch> Walking<'w, W> {
    /// Tells of the fields of a VMCB that were found in memory; answers whether that was granted.
    #[inline(always)]
    pub fn tell_found(
        &mut self,
        vmcb: u64,
        entering: bool,
        found: &Fields,
        outward: &mut Outward,
    ) -> bool
        requires going { IsGoing outward.old }
        requires few { outward.old.calls ≤ 1000 }
        ensures granted { (last : OutwardRecord) → Later outward.new last → is_refused (refused_at last.refused last.calls) outward.old.calls ≡ not result }
        ensures board { (board : Board) → heard_board board outward.new ≡ called (not result) (heard_board board outward.old) }
        ensures going { result ≡ true → IsGoing outward.new }
        ensures cause { IsCause outward.new.refused None (W.refusals self.old.watch.now) (W.refusals self.new.watch.now) }
        ensures none_refused { W.refusals self.old.watch.now ≤ W.refusals self.new.watch.now }
        ensures more { outward.old.calls ≤ outward.new.calls }
        ensures few { outward.new.calls ≤ outward.old.calls + 1 }
        ensures denied { outward.new.denied ≡ outward.old.denied }
        ensures sent { outward.new.sent ≡ outward.old.sent }
        ensures told { result ≡ true → W.tells self.old.watch.now (Finds self.old.turn vmcb entering found.now) self.new.watch.now }
        ensures turn { self.new.turn ≡ self.old.turn }
        ensures name { self.new.watch.ghost_name ≡ self.old.watch.ghost_name }
    {
        let heard = self.watch.fields(self.turn, vmcb, entering, found);
        hear(heard, outward)
    }

    /// Tells of a flush of the vcpu's translations; answers whether that was granted.
    #[inline(always)]
    pub fn tell_flushed(&mut self, flush: Flush, outward: &mut Outward) -> bool
        requires going { IsGoing outward.old }
        requires few { outward.old.calls ≤ 1000 }
        ensures granted { (last : OutwardRecord) → Later outward.new last → is_refused (refused_at last.refused last.calls) outward.old.calls ≡ not result }
        ensures board { (board : Board) → heard_board board outward.new ≡ called (not result) (heard_board board outward.old) }
        ensures going { result ≡ true → IsGoing outward.new }
        ensures cause { IsCause outward.new.refused None (W.refusals self.old.watch.now) (W.refusals self.new.watch.now) }
        ensures none_refused { W.refusals self.old.watch.now ≤ W.refusals self.new.watch.now }
        ensures more { outward.old.calls ≤ outward.new.calls }
        ensures few { outward.new.calls ≤ outward.old.calls + 1 }
        ensures denied { outward.new.denied ≡ outward.old.denied }
        ensures sent { outward.new.sent ≡ outward.old.sent }
        ensures told { result ≡ true → W.tells self.old.watch.now (Flushes self.old.turn.vcpu flush) self.new.watch.now }
        ensures turn { self.new.turn ≡ self.old.turn }
        ensures name { self.new.watch.ghost_name ≡ self.old.watch.ghost_name }
    {
        let heard = self.watch.flushed(self.turn.vcpu, flush);
        hear(heard, outward)
    }

    /// Tells of the fields that a #VMEXIT is about to store in a VMCB; answers whether that was granted.
    #[inline(always)]
    pub fn tell_left(
        &mut self,
        vmcb: u64,
        stored: &[Field],
        values: &Fields,
        outward: &mut Outward,
    ) -> bool
        requires going { IsGoing outward.old }
        requires few { outward.old.calls ≤ 1000 }
        ensures granted { (last : OutwardRecord) → Later outward.new last → is_refused (refused_at last.refused last.calls) outward.old.calls ≡ not result }
        ensures board { (board : Board) → heard_board board outward.new ≡ called (not result) (heard_board board outward.old) }
        ensures going { result ≡ true → IsGoing outward.new }
        ensures cause { IsCause outward.new.refused None (W.refusals self.old.watch.now) (W.refusals self.new.watch.now) }
        ensures none_refused { W.refusals self.old.watch.now ≤ W.refusals self.new.watch.now }
        ensures more { outward.old.calls ≤ outward.new.calls }
        ensures few { outward.new.calls ≤ outward.old.calls + 1 }
        ensures denied { outward.new.denied ≡ outward.old.denied }
        ensures sent { outward.new.sent ≡ outward.old.sent }
        ensures told { result ≡ true → W.tells self.old.watch.now (Leaves self.old.turn.vcpu vmcb (values_of values.now stored.now)) self.new.watch.now }
        ensures turn { self.new.turn ≡ self.old.turn }
        ensures name { self.new.watch.ghost_name ≡ self.old.watch.ghost_name }
    {
        let heard = self.watch.left(self.turn.vcpu, vmcb, stored, values);
        hear(heard, outward)
    }
}
