// Passes of guest-physical pages through the outer tables.
ghost use Rattle.std.specs.Prelude.{◌≡◌, ◌+◌, ◌<◌, ◌≤◌, ◌^◌, length};
ghost use Rattle.svm_model.specs.Memory.Bytes.{IsWithin, SameOutside, guest_of};
ghost use Rattle.svm_model.specs.Memory.NestedPaging.{as_nested};
ghost use Rattle.svm_model.specs.Memory.OuterPasses.{final_fault, outer_paging, table_fault};
ghost use Rattle.svm_model.specs.Memory.PageTables.{HasFrame};
ghost use Rattle.svm_model.specs.Memory.PhysicalAnswers.{IsPhysical};
ghost use Rattle.svm_model.specs.declared.page_tables.Outer.TheVariants.{Tables};
ghost use Rattle.nested_walk.specs.Reaching.{Passes};

use arrayvec::ArrayVec;
use host_memory::{GuestWindow, HostMemory, Steps};
use page_walk::{answer_of, walk};
use std::sync::ledger::Ledger;
use svm_model::{Access, Frame, Kind, LinearPage, Nested, Nesting, Paging, Pass, Walked};

/// Bit 33 of a nested fault's code: a table of the guest was passed on.
const TABLE: u64 = 1 << 33;

/// Bit 32: the final page was.
const FINAL: u64 = 1 << 32;

/// An access that is walked for: the guest's memory, and the tables of both levels.
#[derive(Clone, Copy)]
pub struct NestedAccess {
    pub window: GuestWindow,
    pub guest: Paging,
    pub outer: Nesting,
    pub access: Access,
}

/// The outer level takes every pass for a user's, heeds L1's EFER.NXE, and ignores G.
fn outer_paging(outer: &Nesting) -> Paging
    ensures { result ≡ outer_paging outer.now }
{
    Paging {
        root: outer.root,
        write_protect: true,
        no_execute: outer.no_execute,
        page_global: false,
    }
}

/// Passes a guest-physical page through the outer tables, by four reads at most, and tells it.
pub fn pass_on<L: Ledger>(
    of: &NestedAccess,
    memory: &mut HostMemory,
    page: Frame,
    kind: Kind,
    passes: &mut ArrayVec<Pass, 5>,
    steps: &mut Steps<L>,
) -> Walked
    requires window { IsWithin of.now.window memory.old.bytes }
    requires room { length passes.old.items < 5 }
    ensures passed { Passes (Tables of.now.outer) (guest_of of.now.window memory.old.bytes) page.0 kind passes.old.items result (guest_of of.now.window memory.new.bytes) passes.new.items }
    ensures one { length passes.new.items ≡ length passes.old.items + 1 }
    ensures others { SameOutside of.now.window memory.old memory.new }
    ensures frame { HasFrame result }
    ensures steps { steps.new ≤ steps.old + 4 }
    ensures later { steps.old ≤ steps.new }
{
    let access = Access {
        page: LinearPage(page.0),
        kind,
        user: true,
    };
    let walked = walk(memory, of.window, &outer_paging(&of.outer), access, steps);
    passes.push(Pass { page, kind, walked });
    walked
}

/// A fault of the pass of a table's page, for the entry at this address.
#[cold]
pub fn table_fault(at: u64, code: u32) -> Nested
    requires { at < 2 ^ 63 }
    ensures value { result ≡ table_fault at code }
    ensures physical { IsPhysical result }
{
    Nested::NestedFault {
        code: code as u64 + TABLE,
        address: at,
    }
}

/// A fault of the pass of the final page.
#[cold]
pub fn final_fault(page: Frame, code: u32) -> Nested
    requires { page.0 < 2 ^ 28 }
    ensures value { result ≡ final_fault page.0 code }
    ensures physical { IsPhysical result }
{
    Nested::NestedFault {
        code: code as u64 + FINAL,
        address: 4096 * page.0,
    }
}

/// What stops a walk of the guest's tables.
#[cold]
pub fn stop(end: Walked) -> Nested
    requires { HasFrame end }
    ensures value { result ≡ as_nested end }
    ensures physical { IsPhysical result }
{
    answer_of(end)
}
