// Situations of maintenance: what is told, and the first breach that it leads to.
ghost use Rattle.std.specs.Prelude.{◌≡◌};

use crate::RuleMemory;
use PageSize::{Huge, Large, Small};
use std::alloc::Global;
use std::process::Abort;
use svm_model::{
    Access, Breach, CpuId, Field, Flush, Frame, GuestId, Kind, Leaf, LinearPage, NoMemory, Outcome,
    PageSize, Stale, TurnId, VcpuId,
};
use vmcb_layout::{Fields, place};
use watch::Watch;

/// The marks of a leaf: global, writable, user, executable and dirty.
const G: u8 = 1;

const W: u8 = 2;

const U: u8 = 4;

const X: u8 = 8;

const D: u8 = 16;

/// A translation: of a page, in an event and by a vcpu, under an address-space identifier, to a frame.
#[derive(Clone, Copy)]
struct Walk {
    event: u32,
    vcpu: u8,
    asid: u32,
    nested: bool,
    page: u64,
    kind: Kind,
    user: bool,
    frame: u64,
    size: PageSize,
    marks: u8,
    /// The walk set an accessed or dirty bit.
    changed: bool,
}

/// A read of page 5 by the supervisor.
const READ: Walk = Walk {
    event: 1,
    vcpu: 0,
    asid: 1,
    nested: false,
    page: 5,
    kind: Kind::Read,
    user: false,
    frame: 0x10,
    size: Small,
    marks: W | U | X | D,
    changed: false,
};

/// The same, once the tables have another frame there.
const MOVED: Walk = Walk {
    event: 9,
    frame: 0x20,
    ..READ
};

#[derive(Clone, Copy)]
enum Call {
    Made(Walk),
    /// A page fault at page 5, in event 9.
    Faulted,
    Flushed(u8, Flush),
    /// INVLPG by vcpu 0, under identifier 1.
    Invlpg(u64),
    /// An event, a VMCB that vcpu 0 enters, and its fields that are not 0.
    Enters(u32, u64, &'static [(Field, u64)]),
    /// The same at a turn inside.
    Inside(u32, u64, &'static [(Field, u64)]),
    /// A VMCB, and the fields that a #VMEXIT of vcpu 0 stores there.
    Left(u64, &'static [(Field, u64)]),
}

/// The first breach that is wanted.
#[derive(Clone, Copy)]
enum Wanted {
    None,
    /// The event, and the frame and the marks of the leaf that was kept.
    Leaf(u32, u64, u8),
    /// The event, the group, the field, what is held and what is found.
    Field(u32, u8, Field, u64, u64),
}

use Call::{Enters, Faulted, Flushed, Inside, Invlpg, Left, Made};
use Wanted::{Field as FieldOf, Leaf as LeafOf};

/// The marks of `READ`.
const ALL: u8 = W | U | X | D;

/// What a supervisor alone may use.
const INNER: Walk = Walk {
    marks: W | X | D,
    ..READ
};

/// What a user finds.
const OUTER: Walk = Walk {
    event: 2,
    user: true,
    ..READ
};

const GLOBAL: Walk = Walk {
    marks: W | U | X | D | G,
    ..READ
};

/// Of a page of 2 MiB.
const LARGE: Walk = Walk {
    page: 0x234,
    size: Large,
    ..READ
};

/// Of a page of 1 GiB.
const HUGE: Walk = Walk {
    page: 0x5_1234,
    size: Huge,
    ..READ
};

/// Of a page that outer tables map.
const NESTED: Walk = Walk {
    nested: true,
    ..READ
};

const NESTED_MOVED: Walk = Walk {
    nested: true,
    ..MOVED
};

const PAGE_5: Flush = Flush::Page {
    asid: 1,
    address: 0x5fff,
};

/// What the copy of `READ` leads to in event 9.
const KEPT: Wanted = LeafOf(9, 0x10, ALL);

#[rattlefmt::skip]
const TRANSLATIONS: [(&str, &[Call], Wanted); 55] = [
    // who drops a page
    ("a page that is not dropped", &[Made(READ), Made(MOVED)], KEPT),
    ("INVLPG", &[Made(READ), Flushed(0, PAGE_5), Made(MOVED)], Wanted::None),
    ("another vcpu's INVLPG", &[Made(READ), Flushed(1, PAGE_5), Made(MOVED)], KEPT),
    ("another vcpu's access", &[Made(READ), Made(Walk { vcpu: 1, ..MOVED })], Wanted::None),
    ("INVLPG of the next page", &[Made(READ), Invlpg(0x6000), Made(MOVED)], KEPT),
    ("INVLPG of the page before", &[Made(READ), Invlpg(0x4fff), Made(MOVED)], KEPT),
    ("INVLPGA of another space", &[Made(READ), Flushed(0, Flush::Page { asid: 2, address: 0x5000 }), Made(MOVED)], KEPT),
    ("INVLPG of a global page", &[Made(GLOBAL), Flushed(0, PAGE_5), Made(MOVED)], Wanted::None),
    ("MOV to CR3", &[Made(READ), Flushed(0, Flush::Local { asid: 1 }), Made(MOVED)], Wanted::None),
    ("MOV to CR3, a global page", &[Made(GLOBAL), Flushed(0, Flush::Local { asid: 1 }), Made(MOVED)], LeafOf(9, 0x10, ALL | G)),
    ("MOV to CR3 of another space", &[Made(READ), Flushed(0, Flush::Local { asid: 2 }), Made(MOVED)], KEPT),
    ("MOV to CR3 of another vcpu", &[Made(READ), Flushed(1, Flush::Local { asid: 1 }), Made(MOVED)], KEPT),
    ("CR4.PGE, a global page", &[Made(GLOBAL), Flushed(0, Flush::Asid { asid: 1 }), Made(MOVED)], Wanted::None),
    ("CR4.PGE of another space", &[Made(READ), Flushed(0, Flush::Asid { asid: 0 }), Made(MOVED)], KEPT),
    ("TLB_CONTROL 1", &[Made(GLOBAL), Flushed(0, Flush::All), Made(MOVED)], Wanted::None),
    ("TLB_CONTROL 1 of another vcpu", &[Made(READ), Flushed(1, Flush::All), Made(MOVED)], KEPT),
    ("TLB_CONTROL 3", &[Made(GLOBAL), Flushed(0, Flush::Whole { asid: 1 }), Made(MOVED)], Wanted::None),
    ("TLB_CONTROL 3 of another space", &[Made(READ), Flushed(0, Flush::Whole { asid: 2 }), Made(MOVED)], KEPT),
    ("an access in another space", &[Made(READ), Made(Walk { asid: 2, ..MOVED })], Wanted::None),
    // pages of 2 MiB and 1 GiB
    ("INVLPG at the end of 2 MiB", &[Made(LARGE), Invlpg(0x3f_ffff), Made(Walk { page: 0x234, ..MOVED })], Wanted::None),
    ("INVLPG at the start of 2 MiB", &[Made(LARGE), Invlpg(0x20_0000), Made(Walk { page: 0x234, ..MOVED })], Wanted::None),
    ("INVLPG behind 2 MiB", &[Made(LARGE), Invlpg(0x40_0000), Made(Walk { page: 0x234, ..MOVED })], KEPT),
    ("INVLPG beside a page of 4 KiB", &[Made(Walk { page: 0x234, ..READ }), Invlpg(0x20_0000), Made(Walk { page: 0x234, ..MOVED })], KEPT),
    ("INVLPG at the end of 1 GiB", &[Made(HUGE), Invlpg(0x7fff_ffff), Made(Walk { page: 0x5_1234, ..MOVED })], Wanted::None),
    ("INVLPG at the start of 1 GiB", &[Made(HUGE), Invlpg(0x4000_0000), Made(Walk { page: 0x5_1234, ..MOVED })], Wanted::None),
    ("INVLPG behind 1 GiB", &[Made(HUGE), Invlpg(0x8000_0000), Made(Walk { page: 0x5_1234, ..MOVED })], KEPT),
    ("INVLPG of 1 GiB, a page of 4 KiB in it", &[Made(HUGE), Made(Walk { page: 0x4_0005, ..READ }), Invlpg(0x7fff_f000), Made(Walk { page: 0x4_0005, ..MOVED })], KEPT),
    ("INVLPG of 1 GiB, one of 2 MiB at its end", &[Made(HUGE), Made(Walk { page: 0x7_ffff, size: Large, ..READ }), Invlpg(0x7fe0_0000), Made(Walk { page: 0x7_ffff, ..MOVED })], Wanted::None),
    // nested ones
    ("a nested page", &[Made(NESTED), Made(NESTED_MOVED)], KEPT),
    ("INVLPGA, a nested page", &[Made(NESTED), Flushed(0, PAGE_5), Made(NESTED_MOVED)], KEPT),
    ("TLB_CONTROL 7, a nested page", &[Made(NESTED), Flushed(0, Flush::Local { asid: 1 }), Made(NESTED_MOVED)], KEPT),
    ("CR4.PGE, a nested page", &[Made(NESTED), Flushed(0, Flush::Asid { asid: 1 }), Made(NESTED_MOVED)], KEPT),
    ("TLB_CONTROL 3, a nested page", &[Made(NESTED), Flushed(0, Flush::Whole { asid: 1 }), Made(NESTED_MOVED)], Wanted::None),
    ("TLB_CONTROL 1, a nested page", &[Made(NESTED), Flushed(0, Flush::All), Made(NESTED_MOVED)], Wanted::None),
    ("a linear page beside a nested one", &[Made(NESTED), Made(MOVED)], Wanted::None),
    ("a nested page that may be written no more", &[Made(NESTED), Made(Walk { event: 9, marks: U | X | D, ..NESTED })], KEPT),
    ("a nested page whose dirty mark is gone", &[Made(NESTED), Made(Walk { event: 9, marks: W | U | X, ..NESTED })], KEPT),
    ("a nested page with another right", &[Made(Walk { marks: U | X, ..NESTED }), Made(Walk { event: 9, ..NESTED })], Wanted::None),
    // what an access may use
    ("a write, not marked dirty", &[Made(Walk { marks: W | U | X, ..READ }), Made(Walk { kind: Kind::Write, ..MOVED })], Wanted::None),
    ("a write, marked dirty", &[Made(READ), Made(Walk { kind: Kind::Write, ..MOVED })], KEPT),
    ("a write, not writable", &[Made(Walk { marks: U | X | D, ..READ }), Made(Walk { kind: Kind::Write, ..MOVED })], Wanted::None),
    ("a fetch, not executable", &[Made(Walk { marks: W | U | D, ..READ }), Made(Walk { kind: Kind::Fetch, ..MOVED })], Wanted::None),
    ("a user's read of an inner page", &[Made(INNER), Made(Walk { user: true, ..MOVED })], Wanted::None),
    ("a page fault", &[Made(READ), Faulted], KEPT),
    ("an accessed bit that is set", &[Made(READ), Made(Walk { event: 9, changed: true, ..READ })], KEPT),
    ("a right that is gone, the same frame", &[Made(READ), Made(Walk { event: 9, marks: U | X, ..READ })], Wanted::None),
    // which one counts
    ("the first breach stays", &[Made(READ), Made(MOVED), Made(Walk { event: 10, frame: 8, ..READ })], KEPT),
    ("the less frame, added later", &[Made(Walk { frame: 0x18, ..INNER }), Made(OUTER), Made(MOVED)], KEPT),
    ("the less frame, added first", &[Made(Walk { frame: 8, ..INNER }), Made(OUTER), Made(MOVED)], LeafOf(9, 8, W | X | D)),
    ("one frame, the oldest", &[Made(INNER), Made(OUTER), Made(INNER), Made(MOVED)], LeafOf(9, 0x10, W | X | D)),
    ("one frame, the oldest dropped", &[Made(INNER), Flushed(0, PAGE_5), Made(OUTER), Made(INNER), Made(MOVED)], KEPT),
    // what was told last
    ("the same again, then another frame", &[Made(READ), Made(READ), Made(READ), Made(MOVED)], KEPT),
    ("the same again behind a flush", &[Made(READ), Made(READ), Flushed(0, PAGE_5), Made(READ), Made(MOVED)], KEPT),
    ("a page of the same slot between", &[Made(READ), Made(Walk { page: 69, ..READ }), Made(READ), Made(MOVED)], KEPT),
    ("the same again after a breach", &[Made(READ), Made(MOVED), Made(READ), Made(READ)], KEPT),
];

const VMCB: u64 = 0x3000;

/// The clean bit of the control registers.
const CR_CLEAN: (Field, u64) = (Field::Clean, 1 << 5);

#[rattlefmt::skip]
const FIELDS: [(&str, &[Call], Wanted); 24] = [
    // at a VMRUN
    ("CR3, marked clean", &[Enters(1, VMCB, &[(Field::Cr3, 1)]), Enters(9, VMCB, &[(Field::Cr3, 2), CR_CLEAN])], FieldOf(9, 5, Field::Cr3, 1, 2)),
    ("CR3, not marked clean", &[Enters(1, VMCB, &[(Field::Cr3, 1)]), Enters(9, VMCB, &[(Field::Cr3, 2), (Field::Clean, 0xfdf)])], Wanted::None),
    ("CR3 read again", &[Enters(1, VMCB, &[(Field::Cr3, 1)]), Enters(2, VMCB, &[(Field::Cr3, 2)]), Enters(9, VMCB, &[(Field::Cr3, 2), CR_CLEAN])], Wanted::None),
    ("CR3 read again, then changed", &[Enters(1, VMCB, &[(Field::Cr3, 1)]), Enters(2, VMCB, &[(Field::Cr3, 2)]), Enters(9, VMCB, &[(Field::Cr3, 1), CR_CLEAN])], FieldOf(9, 5, Field::Cr3, 2, 1)),
    ("the first VMRUN", &[Enters(9, VMCB, &[(Field::Cr3, 2), (Field::Clean, 0xfff)])], Wanted::None),
    ("another VMCB", &[Enters(1, VMCB, &[(Field::Cr3, 1)]), Enters(9, 0x4000, &[(Field::Cr3, 2), CR_CLEAN])], Wanted::None),
    ("fields of no group", &[Enters(1, VMCB, &[]), Enters(9, VMCB, &[(Field::Rip, 2), (Field::FsBase, 3), (Field::Clean, 0xfff)])], Wanted::None),
    ("fields of group 11", &[Enters(1, VMCB, &[]), Enters(9, VMCB, &[(Field::AvicBar, 0x1000), (Field::Clean, 0xfff)])], Wanted::None),
    ("the first of two groups", &[Enters(1, VMCB, &[]), Enters(9, VMCB, &[(Field::Cr3, 2), (Field::Asid, 3), (Field::Clean, 0xfff)])], FieldOf(9, 2, Field::Asid, 0, 3)),
    ("the first field of a group", &[Enters(1, VMCB, &[]), Enters(9, VMCB, &[(Field::Cr3, 2), (Field::Cr0, 3), CR_CLEAN])], FieldOf(9, 5, Field::Cr0, 0, 3)),
    // at a turn inside
    ("inside, intercepts", &[Enters(1, VMCB, &[]), Inside(9, VMCB, &[(Field::InterceptWordC, 1)])], FieldOf(9, 0, Field::InterceptWordC, 0, 1)),
    ("inside, nested paging", &[Enters(1, VMCB, &[]), Inside(9, VMCB, &[(Field::NCr3, 0x1000)])], FieldOf(9, 4, Field::NCr3, 0, 0x1000)),
    ("inside, control registers", &[Enters(1, VMCB, &[]), Inside(9, VMCB, &[(Field::Cr3, 2), (Field::Clean, 0xfff)])], Wanted::None),
    ("inside nothing is held", &[Inside(8, VMCB, &[(Field::Asid, 2)]), Inside(9, VMCB, &[(Field::Asid, 3)])], Wanted::None),
    ("inside nothing is read again", &[Enters(1, VMCB, &[]), Inside(2, VMCB, &[(Field::Cr3, 2)]), Enters(9, VMCB, &[(Field::Cr3, 2), CR_CLEAN])], FieldOf(9, 5, Field::Cr3, 0, 2)),
    // behind a #VMEXIT
    ("what #VMEXIT stores", &[Enters(1, VMCB, &[(Field::Cr3, 1)]), Left(VMCB, &[(Field::Cr3, 7)]), Enters(9, VMCB, &[(Field::Cr3, 7), CR_CLEAN])], Wanted::None),
    ("what #VMEXIT stored, changed back", &[Enters(1, VMCB, &[(Field::Cr3, 1)]), Left(VMCB, &[(Field::Cr3, 7)]), Enters(9, VMCB, &[(Field::Cr3, 1), CR_CLEAN])], FieldOf(9, 5, Field::Cr3, 7, 1)),
    ("#VMEXIT to another VMCB", &[Enters(1, VMCB, &[(Field::Cr3, 1)]), Left(0x4000, &[(Field::Cr3, 7)]), Enters(9, VMCB, &[(Field::Cr3, 1), CR_CLEAN])], Wanted::None),
    ("#VMEXIT to a VMCB that is not held", &[Left(VMCB, &[(Field::Cr3, 7)]), Enters(9, VMCB, &[(Field::Cr3, 1), CR_CLEAN])], Wanted::None),
    // beside a stale translation
    ("behind a translation's breach of the same event", &[Made(READ), Enters(1, VMCB, &[]), Made(MOVED), Enters(9, VMCB, &[(Field::Cr3, 2), CR_CLEAN])], FieldOf(9, 5, Field::Cr3, 0, 2)),
    ("behind one of an earlier event", &[Made(READ), Enters(1, VMCB, &[]), Made(MOVED), Enters(10, VMCB, &[(Field::Cr3, 2), CR_CLEAN])], KEPT),
    ("before a translation's breach", &[Made(READ), Enters(1, VMCB, &[]), Enters(9, VMCB, &[(Field::Cr3, 2), CR_CLEAN]), Made(MOVED)], FieldOf(9, 5, Field::Cr3, 0, 2)),
    ("behind another field's", &[Enters(1, VMCB, &[]), Enters(9, VMCB, &[(Field::Cr3, 2), CR_CLEAN]), Enters(9, VMCB, &[(Field::Asid, 2), (Field::Clean, 4)])], FieldOf(9, 5, Field::Cr3, 0, 2)),
    ("flushes keep fields", &[Enters(1, VMCB, &[]), Flushed(0, Flush::All), Enters(9, VMCB, &[(Field::Cr3, 2), CR_CLEAN])], FieldOf(9, 5, Field::Cr3, 0, 2)),
];

/// Fields of each group, with whether a change counts while L2 runs.
#[rattlefmt::skip]
const GROUPS: [(Field, u8, bool); 22] = [
    (Field::CrIntercepts, 0, true), (Field::InterceptWord10, 0, true), (Field::TscOffset, 0, true), (Field::IopmBase, 1, true),
    (Field::MsrpmBase, 1, true), (Field::Asid, 2, true), (Field::VirtualInterrupt, 3, true), (Field::NpEnable, 4, true),
    (Field::NCr3, 4, true), (Field::GPat, 4, true), (Field::Cr0, 5, false), (Field::Cr4, 5, false), (Field::Efer, 5, false),
    (Field::Dr6, 6, false), (Field::Dr7, 6, false), (Field::GdtrBase, 7, false), (Field::IdtrLimit, 7, false),
    (Field::EsSelector, 8, false), (Field::CsAttributes, 8, false), (Field::DsBase, 8, false), (Field::Cpl, 8, false),
    (Field::Cr2, 9, false),
];

fn vcpu(index: u8) -> VcpuId {
    VcpuId {
        guest: GuestId(1),
        index,
    }
}

fn turn(event: u32, index: u8) -> TurnId {
    TurnId {
        vcpu: vcpu(index),
        cpu: CpuId(index),
        event,
    }
}

fn made(walk: &Walk) -> svm_model::Made {
    let leaf = Leaf {
        frame: Frame(walk.frame),
        size: walk.size,
        global: walk.marks & G != 0,
        writable: walk.marks & W != 0,
        user: walk.marks & U != 0,
        executable: walk.marks & X != 0,
        dirty: walk.marks & D != 0,
    };
    svm_model::Made {
        turn: turn(walk.event, walk.vcpu),
        asid: walk.asid,
        nested: walk.nested,
        access: Access {
            page: LinearPage(walk.page),
            kind: walk.kind,
            user: walk.user,
        },
        write_protect: true,
        leaf: Some(leaf),
        outcome: Outcome::Frame {
            frame: leaf.frame,
            changed: walk.changed,
        },
    }
}

/// Fields that are 0 but for these.
fn fields<R: Abort>(rt: &R, list: &[(Field, u64)]) -> Fields {
    let mut fields = Fields::zeros();
    for &(field, value) in list {
        match place(field).1 {
            1 => assert!(rt; value < 1 << 8),
            2 => assert!(rt; value < 1 << 16),
            4 => assert!(rt; value < 1 << 32),
            width => assert!(rt; width == 8),
        }
        fields.set(field, value);
    }
    fields
}

/// Tells of one call.
fn tell<R: Abort>(rt: &R, memory: &mut RuleMemory, call: &Call) -> Result<(), NoMemory> {
    match call {
        Made(walk) => memory.made(&made(walk)),
        Faulted => memory.made(&svm_model::Made {
            leaf: None,
            outcome: Outcome::Fault { code: 0 },
            ..made(&MOVED)
        }),
        Flushed(index, flush) => memory.flushed(vcpu(*index), *flush),
        Invlpg(address) => memory.flushed(
            vcpu(0),
            Flush::Page {
                asid: 1,
                address: *address,
            },
        ),
        Enters(event, vmcb, list) => {
            memory.fields(turn(*event, 0), *vmcb, true, &fields(rt, list))
        }
        Inside(event, vmcb, list) => {
            memory.fields(turn(*event, 0), *vmcb, false, &fields(rt, list))
        }
        Left(vmcb, list) => {
            for &(field, value) in *list {
                let values = fields(rt, &[(field, value)]);
                memory.left(vcpu(0), *vmcb, &[field], &values)?;
            }
            Ok(())
        }
    }
}

fn marks(leaf: &Leaf) -> u8 {
    u8::from(leaf.global) * G
        + u8::from(leaf.writable) * W
        + u8::from(leaf.user) * U
        + u8::from(leaf.executable) * X
        + u8::from(leaf.dirty) * D
}

fn is_wanted(first: Option<&Breach>, wanted: &Wanted) -> bool {
    match (first, wanted) {
        (None, Wanted::None) => true,
        (Some(breach), LeafOf(event, frame, of)) => match &breach.stale {
            Stale::Translation { kept, .. } => {
                breach.turn.event == *event
                    && kept.leaf.frame.0 == *frame
                    && marks(&kept.leaf) == *of
            }
            Stale::Field { .. } => false,
        },
        (Some(breach), FieldOf(event, of, name, was, is)) => match &breach.stale {
            Stale::Translation { .. } => false,
            Stale::Field {
                group,
                field,
                held,
                found,
                ..
            } => {
                breach.turn.event == *event
                    && group == of
                    && field == name
                    && held == was
                    && found == is
            }
        },
        _ => false,
    }
}

/// Tells of the calls of each case to a memory of its own.
fn judge<R: Abort>(
    rt: &R,
    alloc: Global,
    cases: &[(&str, &[Call], Wanted)],
) -> Result<(), NoMemory> {
    for (name, calls, wanted) in cases {
        let mut memory = RuleMemory::new(alloc);
        for call in *calls {
            tell(rt, &mut memory, call)?;
        }
        assert!(rt; is_wanted(memory.first(), wanted), "{name}");
    }
    Ok(())
}

#[test]
fn the_first_breach_is_that_of_the_rules(rt: HostRuntime) {
    let translations = judge(&rt, rt.alloc(), &TRANSLATIONS);
    assert!(rt; translations.is_ok());
    let fields = judge(&rt, rt.alloc(), &FIELDS);
    assert!(rt; fields.is_ok());
}

/// The first breach where a VMCB that vcpu 0 entered is found with another value of a field.
fn field_breach<R: Abort>(
    rt: &R,
    alloc: Global,
    field: Field,
    entering: bool,
    clean: u64,
    wanted: &Wanted,
) -> Result<(), NoMemory> {
    let mut memory = RuleMemory::new(alloc);
    memory.fields(turn(1, 0), VMCB, true, &fields(rt, &[(field, 1)]))?;
    let found = fields(rt, &[(field, 2), (Field::Clean, clean)]);
    memory.fields(turn(9, 0), VMCB, entering, &found)?;
    assert!(rt; is_wanted(memory.first(), wanted), "clean bits {clean}");
    Ok(())
}

fn judge_groups<R: Abort>(rt: &R, alloc: Global) -> Result<(), NoMemory> {
    for &(field, group, inside) in &GROUPS {
        assert!(rt; group < 11);
        let bit = 1 << group;
        let breach = FieldOf(9, group, field, 1, 2);
        field_breach(rt, alloc, field, true, bit, &breach)?;
        field_breach(rt, alloc, field, true, 0xfff - bit, &Wanted::None)?;
        let wanted = if inside { breach } else { Wanted::None };
        field_breach(rt, alloc, field, false, 0, &wanted)?;
    }
    Ok(())
}

#[test]
fn each_group_goes_by_its_clean_bit(rt: HostRuntime) {
    let judged = judge_groups(&rt, rt.alloc());
    assert!(rt; judged.is_ok());
}
