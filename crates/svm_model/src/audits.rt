// What is told of turns, the copies that a processor may have kept of it, and the breaches of the rules that they lead to.

use crate::names::{Access, CpuId, Frame, LinearPage, VcpuId};
use crate::page_tables::Leaf;
use crate::vmcbs::Field;

/// A turn: the vcpu whose it is, the processor that it is placed on, and the number of the event.
#[derive(Clone, Copy, Debug, PartialEq, Eq)]
pub struct TurnId {
    pub vcpu: VcpuId,
    pub cpu: CpuId,
    pub event: u32,
}

/// What a walk of the tables came to: a frame, with whether it set an accessed or dirty bit; a page fault or a nested page
/// fault with its code; or the end of the guest, as a table entry lies outside its memory.
#[derive(Clone, Copy, Debug, PartialEq, Eq)]
pub enum Outcome {
    Frame { frame: Frame, changed: bool },
    Fault { code: u64 },
    End,
}

/// A translation that an access made, in a turn: under an address-space identifier, and under CR0.WP (`write_protect`). It is
/// of linear memory or, where it is nested, of a page of the memory that outer tables map, which is then the access's page
/// (volume 2, 'Nested Paging'). There is a leaf where the walk succeeded.
#[derive(Clone, Copy)]
pub struct Made {
    pub turn: TurnId,
    pub asid: u32,
    pub nested: bool,
    pub access: Access,
    pub write_protect: bool,
    pub leaf: Option<Leaf>,
    pub outcome: Outcome,
}

/// A translation that a processor may have kept, under its address-space identifier; nested where it is of a page that outer
/// tables map.
#[derive(Clone, Copy)]
pub struct Remembered {
    pub asid: u32,
    pub nested: bool,
    pub page: LinearPage,
    pub leaf: Leaf,
}

/// What is stale: a translation that was kept, with what the walk comes to at the access; or the value of a field that was
/// kept of the VMCB at a physical address, with the group of its clean bit and what memory has there.
#[derive(Clone, Copy)]
pub enum Stale {
    Translation {
        kept: Remembered,
        plain: Outcome,
    },
    Field {
        group: u8,
        vmcb: u64,
        field: Field,
        held: u64,
        found: u64,
    },
}

/// A breach of the rules: the turn in which a stale copy counts, and the copy.
#[derive(Clone, Copy)]
pub struct Breach {
    pub turn: TurnId,
    pub stale: Stale,
}

/// The verdict on a run: it keeps the rules in so many events, or its first breach.
#[derive(Clone, Copy)]
pub enum Verdict {
    Keeps { events: u32 },
    Breach(Breach),
}
