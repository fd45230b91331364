//! Who is told of what the turns of vcpus do.
//!
//! A machine tells a `Watch` of each translation, of each flush of translations, of the fields of each VMCB that it finds at a
//! VMRUN or at a turn inside one, and of those that each #VMEXIT stores, in the order in which they come. What a call makes of
//! one who watches is a relation of its own, `tells`, over the calls as `specs/Audit/WatchCalls.antt` of svm_model has them;
//! `Leads` (specs/Leads.antt) follows it over several. `Unwatched` is told and heeds nothing.
//!
//! The crate stands on the VMCB's fields. The layers above call it where a turn translates and switches, and remember by it
//! what a processor may have kept.
#![tactic(auto)]

ghost use Rattle.std.specs.Prelude.{◌≡◌, ℕ, ◌≤◌, OnOk, OnErr};
ghost use Rattle.fault_counts.specs.Causes.{Rose};
ghost use Rattle.svm_model.specs.Audit.WatchCalls.{Notice, Makes, Flushes, Finds, Leaves};
ghost use Rattle.svm_model.specs.Svm.Vmcb.{values_of};

use svm_model::{Field, Flush, Made, NoMemory, TurnId, VcpuId};
use vmcb_layout::Fields;

/// One who is told of turns. `tells` says what a call makes of it, and `refusals` counts the calls that it refused, in a number
/// of 64 bits that never falls. A call that it refuses for want of memory cuts the turn off: what the call tells of is not done,
/// nor anything behind it.
pub trait Watch {
    ghost tells: { Self → Notice → Self → Type 0 };

    ghost refusals: { Self → ℕ };

    /// A translation was made, before what it is made for takes place. Through outer tables the pages on its way come first.
    fn made(&mut self, made: &Made) -> Result<(), NoMemory>
        ensures told { OnOk result (tells self.old (Makes made.now) self.new) }
        ensures refused { OnErr result (Rose (refusals self.old) (refusals self.new)) }
        ensures later { refusals self.old ≤ refusals self.new };

    /// Translations that a processor may have kept of the vcpu are to be dropped.
    fn flushed(&mut self, vcpu: VcpuId, flush: Flush) -> Result<(), NoMemory>
        ensures told { OnOk result (tells self.old (Flushes vcpu flush) self.new) }
        ensures refused { OnErr result (Rose (refusals self.old) (refusals self.new)) }
        ensures later { refusals self.old ≤ refusals self.new };

    /// The fields of the VMCB at this physical address, as they are in memory: before the work of a VMRUN (`entering`), or
    /// before a turn inside it.
    fn fields(
        &mut self,
        turn: TurnId,
        vmcb: u64,
        entering: bool,
        found: &Fields,
    ) -> Result<(), NoMemory>
        ensures told { OnOk result (tells self.old (Finds turn vmcb entering found.now) self.new) }
        ensures refused { OnErr result (Rose (refusals self.old) (refusals self.new)) }
        ensures later { refusals self.old ≤ refusals self.new };

    /// A #VMEXIT is about to store these fields, with the values that they have in `values`, in the VMCB at this physical
    /// address.
    fn left(
        &mut self,
        vcpu: VcpuId,
        vmcb: u64,
        stored: &[Field],
        values: &Fields,
    ) -> Result<(), NoMemory>
        ensures told { OnOk result (tells self.old (Leaves vcpu vmcb (values_of values.now stored.now)) self.new) }
        ensures refused { OnErr result (Rose (refusals self.old) (refusals self.new)) }
        ensures later { refusals self.old ≤ refusals self.new };
}

/// Nobody: it heeds nothing and refuses nothing.
#[derive(Clone, Copy)]
pub struct Unwatched;

impl Watch for Unwatched {
    ghost tells = { λ _ _ _. Unit {0} };

    ghost refusals = { λ _. 0 };

    #[inline(always)]
    fn made(&mut self, made: &Made) -> Result<(), NoMemory> {
        let _ = made;
        Ok(())
    }

    #[inline(always)]
    fn flushed(&mut self, vcpu: VcpuId, flush: Flush) -> Result<(), NoMemory> {
        let _ = vcpu;
        let _ = flush;
        Ok(())
    }

    #[inline(always)]
    fn fields(
        &mut self,
        turn: TurnId,
        vmcb: u64,
        entering: bool,
        found: &Fields,
    ) -> Result<(), NoMemory> {
        let _ = turn;
        let _ = vmcb;
        let _ = entering;
        let _ = found;
        Ok(())
    }

    #[inline(always)]
    fn left(
        &mut self,
        vcpu: VcpuId,
        vmcb: u64,
        stored: &[Field],
        values: &Fields,
    ) -> Result<(), NoMemory> {
        let _ = vcpu;
        let _ = vmcb;
        let _ = stored;
        let _ = values;
        Ok(())
    }
}
