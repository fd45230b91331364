// The translator that keeps one copy.
ghost use Rattle.std.specs.Prelude.{◌≡◌, List, ◌∷◌, Bool, None, true};
ghost use Rattle.svm_model.specs.Turn.Course.{Told, Accessed};
ghost use Rattle.svm_model.specs.Memory.NestedPaging.{as_nested};
ghost use Rattle.svm_model.specs.Memory.PageTables.{HasFrame};
ghost use Rattle.svm_model.specs.declared.page_tables.Pass.{Pass};
ghost use Rattle.one_copy.specs.Recalls.{is_kind, is_same as same_access, leaf_for, keeps, Stands};

use crate::kept::Kept;
use arrayvec::ArrayVec;
use host_memory::{GuestWindow, HostMemory, Steps};
use nested_walk::nested_walk;
use page_walk::{answer_of, walk};
use std::sync::ledger::Ledger;
use svm_model::{Access, Flush, Kind, Leaf, Nested, NoMemory, Outer, Space, Walked};
use turn_exec::Translator;

/// The way to translate that keeps one copy: the leaf of the last walk that found one. Where addresses pass through outer tables
/// it walks each time, and keeps nothing.
#[derive(Drop)]
pub struct OneCopy {
    kept: Option<Kept>,
}

/// Whether two accesses are of one kind.
fn is_same_kind(kind: Kind, other: Kind) -> bool
    ensures { result ≡ is_kind kind other }
{
    match kind {
        Kind::Read => matches!(other, Kind::Read),
        Kind::Write => matches!(other, Kind::Write),
        Kind::Fetch => matches!(other, Kind::Fetch),
    }
}

/// Whether two accesses are the same, in the same address space.
fn is_same(asid: u32, access: Access, other_asid: u32, other: Access) -> bool
    ensures { result ≡ same_access asid access other_asid other }
{
    let same_kind = is_same_kind(access.kind, other.kind);
    let same_user = access.user == other.user;
    (asid == other_asid) & (access.page.0 == other.page.0) & same_kind & same_user
}

/// The kept leaf, where it was found for this access.
fn find(kept: Option<Kept>, asid: u32, access: Access) -> Option<Leaf>
    ensures { result ≡ leaf_for kept asid access }
{
    let kept = kept?;
    if is_same(kept.asid, kept.access, asid, access) {
        Some(kept.leaf)
    } else {
        None
    }
}

/// Keeps the leaf that a walk found, if it found one, in the place of what was kept.
fn refill(kept: &mut Option<Kept>, asid: u32, access: Access, walked: Walked)
    requires frame { HasFrame walked }
    ensures { (history : List Told) (write_protect : Bool) (passed : List Pass) → leaf_for kept.old asid access ≡ None → Stands kept.old history →
        Stands kept.new (Accessed asid write_protect access (as_nested walked) passed ∷ history) }
{
    if let Walked::Leaf { leaf, .. } = walked {
        *kept = Some(Kept { asid, access, leaf });
    }
}

impl Translator for OneCopy {
    ghost stands = { λ c history. Stands c.kept history };

    ghost tells = { λ _ _ _. Unit {0} };

    ghost copies = { true };

    ghost rule = { keeps };

    ghost refusals = { λ _. 0 };

    ghost name = { λ _. 0 };

    ghost cost = { 28 };

    fn translate<L: Ledger>(
        &mut self,
        memory: &mut HostMemory,
        window: GuestWindow,
        space: &Space,
        access: Access,
        steps: &mut Steps<L>,
    ) -> Result<Nested, NoMemory> {
        if let Outer::Tables(outer) = &space.outer {
            self.drop_copy();
            let mut passes = ArrayVec::new();
            let guest = &space.paging;
            return Ok(nested_walk(memory, window, guest, outer, access, &mut passes, steps));
        }
        if let Some(leaf) = find(self.kept, space.asid, access) {
            return Ok(Nested::Leaf {
                leaf,
                guest_frame: leaf.frame,
                changed: false,
            });
        }
        let walked = walk(memory, window, &space.paging, access, steps);
        refill(&mut self.kept, space.asid, access, walked);
        Ok(answer_of(walked))
    }

    fn flush(&mut self, _flush: Flush) -> Result<(), NoMemory> {
        self.drop_copy();
        Ok(())
    }
}

impl OneCopy {
    /// A translator that keeps nothing yet.
    pub fn new() -> OneCopy
        ensures stands { (history : List Told) → ⟦<OneCopy as Translator>⟧.stands result history }
    {
        OneCopy { kept: None }
    }

    /// Drops what is kept.
    pub fn drop_copy(&mut self)
        ensures stands { (history : List Told) → ⟦<OneCopy as Translator>⟧.stands self.new history }
    {
        self.kept = None;
    }
}
