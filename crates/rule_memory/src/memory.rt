// The rules of maintenance, held against a run as it goes on.
ghost use Rattle.std.specs.Prelude.{◌≡◌, ◌≤◌, ◌+◌, ◌-◌, ◌^◌, min};
ghost use Rattle.std.specs.Option.{option_copied};
ghost use Rattle.fault_counts.specs.Causes.{Rose};
ghost use Rattle.svm_model.specs.Audit.WatchCalls.{Rules, no_rules};
ghost use Rattle.rule_memory.specs.Stands.{Keeps, Stands};

use crate::breaches::{breach_at, breach_of, joined};
use crate::flushes::drop_covered;
use crate::held::{HeldMap, held_place, hold_exit, hold_found, stale_held};
use crate::leaf_rules::{found_huge, stale_among};
use crate::places::place_of;
use crate::recent::{Recent, is_known, keep_recent};
use crate::translations::{Translations, add_found, leaves_at};
use std::alloc::Global;
use std::collections::BTreeMap;
use svm_model::{Breach, Field, Flush, Made, NoMemory, TurnId, VcpuId};
use vmcb_layout::Fields;
use watch::Watch;

/// What may have been kept of each vcpu, and the first breach so far.
#[derive(Drop)]
pub struct RuleMemory {
    alloc: Global,
    translations: Translations,
    huge: bool,
    held: HeldMap,
    recent: [Option<Recent>; 64],
    first: Option<Breach>,
    refusals: u64,
}

impl RuleMemory {
    /// What is known before the first turn: nothing. Memory is asked for as the run goes on.
    pub fn new(alloc: Global) -> RuleMemory
        ensures stands { Stands result no_rules }
    {
        RuleMemory {
            alloc,
            translations: BTreeMap::new(alloc),
            huge: false,
            held: BTreeMap::new(alloc),
            recent: [None; 64],
            first: None,
            refusals: 0,
        }
    }

    /// The first breach of what was told so far.
    pub fn first(&self) -> Option<&Breach>
        ensures { (rules : Rules) → Stands self.now rules → option_copied result ≡ rules.first }
    {
        self.first.as_ref()
    }

    fn refuse(&mut self) -> NoMemory
        ensures rose { Rose self.old.refusals self.new.refusals }
        ensures none_fell { self.old.refusals ≤ self.new.refusals }
    {
        self.refusals = self.refusals.saturating_add(1);
        NoMemory
    }
}

impl Watch for RuleMemory {
    ghost tells = { Keeps };

    ghost refusals = { λ m. m.refusals };

    fn made(&mut self, made: &Made) -> Result<(), NoMemory> {
        if is_known(&self.recent, made) {
            return Ok(());
        }
        let place = place_of(made);
        let stale = stale_among(leaves_at(&self.translations, &place), made);
        if add_found(&mut self.translations, self.alloc, place, made.leaf).is_err() {
            return Err(self.refuse());
        }
        self.huge = self.huge | found_huge(&made.leaf);
        keep_recent(
            &mut self.recent,
            place,
            made.leaf,
            leaves_at(&self.translations, &place),
        );
        self.first = joined(self.first, breach_of(made, stale));
        Ok(())
    }

    fn flushed(&mut self, vcpu: VcpuId, flush: Flush) -> Result<(), NoMemory> {
        drop_covered(&mut self.translations, vcpu, flush, self.huge);
        self.recent = [None; 64];
        Ok(())
    }

    fn fields(
        &mut self,
        turn: TurnId,
        vmcb: u64,
        entering: bool,
        found: &Fields,
    ) -> Result<(), NoMemory> {
        let place = held_place(turn.vcpu, vmcb);
        let stale = stale_held(&self.held, place, entering, found);
        if hold_found(&mut self.held, place, entering, found).is_err() {
            return Err(self.refuse());
        }
        self.first = joined(self.first, breach_at(turn, stale));
        Ok(())
    }

    fn left(
        &mut self,
        vcpu: VcpuId,
        vmcb: u64,
        stored: &[Field],
        values: &Fields,
    ) -> Result<(), NoMemory> {
        hold_exit(&mut self.held, held_place(vcpu, vmcb), stored, values);
        Ok(())
    }
}
