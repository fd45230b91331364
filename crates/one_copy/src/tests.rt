// A copy is served while it is kept, though the table that it came from is gone.
ghost use Rattle.std.specs.Prelude.{◌≡◌, ◌<◌};
ghost use Rattle.svm_model.specs.Memory.Bytes.{IsWithin};

use crate::OneCopy;
use host_memory::{GuestWindow, HostMemory, Steps, counted_from};
use std::alloc::{AllocError, Global};
use std::marker::Brand;
use std::process::Abort;
use std::sync::ledger::{Blank, Ledger};
use svm_model::{
    Access, Flush, Frame, Kind, Leaf, LinearPage, Nested, Outer, PageSize, Paging, Space,
};
use turn_exec::Translator;

/// One page, which is the table of each level.
const WINDOW: GuestWindow = GuestWindow {
    base: 0,
    size: 0x1000,
};

const READ: Access = Access {
    page: LinearPage(0),
    kind: Kind::Read,
    user: false,
};

const WRITE: Access = Access {
    kind: Kind::Write,
    ..READ
};

const SPACE: Space = Space {
    asid: 1,
    outer: Outer::Direct,
    paging: Paging {
        root: 0,
        write_protect: true,
        no_execute: true,
        page_global: false,
    },
};

const OTHER_SPACE: Space = Space { asid: 2, ..SPACE };

const FOUND: Nested = Nested::Leaf {
    leaf: Leaf {
        frame: Frame(0),
        size: PageSize::Small,
        global: false,
        writable: true,
        user: true,
        executable: true,
        dirty: true,
    },
    guest_frame: Frame(0),
    changed: false,
};

#[test]
fn serves_its_copy_until_it_is_dropped(rt: HostRuntime) -> Result<(), AllocError> {
    serve::<Brand, HostRuntime>(&rt, rt.alloc(), Blank::new(1))
}

#[tactic(auto, using(svm_model::proofs::WindowLemmas::windows))]
fn serve<L: Ledger, R: Abort>(rt: &R, alloc: Global, blank: Blank) -> Result<(), AllocError>
    requires name { blank.name ≡ L.name }
    requires parts { blank.parts ≡ L.parts }
    requires some { 0 < blank.parts }
{
    let mut steps: Steps<L> = counted_from(blank);
    let mut memory = HostMemory::new(alloc, 1)?;
    let mut copy = OneCopy::new();
    put_entry(&mut memory, 0x67);
    let first = copy.translate(&mut memory, WINDOW, &SPACE, READ, &mut steps);
    assert_eq!(rt; first, Ok(FOUND));
    put_entry(&mut memory, 0);
    let again = copy.translate(&mut memory, WINDOW, &SPACE, READ, &mut steps);
    assert_eq!(rt; again, Ok(FOUND));
    let write = copy.translate(&mut memory, WINDOW, &SPACE, WRITE, &mut steps);
    assert_eq!(rt; write, Ok(Nested::PageFault { code: 2 }));
    let other = copy.translate(&mut memory, WINDOW, &OTHER_SPACE, READ, &mut steps);
    assert_eq!(rt; other, Ok(Nested::PageFault { code: 0 }));
    let kept = copy.translate(&mut memory, WINDOW, &SPACE, READ, &mut steps);
    assert_eq!(rt; kept, Ok(FOUND));
    let _ = copy.flush(Flush::All);
    let dropped = copy.translate(&mut memory, WINDOW, &SPACE, READ, &mut steps);
    assert_eq!(rt; dropped, Ok(Nested::PageFault { code: 0 }));
    Ok(())
}

/// Writes the table's first entry.
#[tactic(auto, using(svm_model::proofs::WindowLemmas::windows))]
fn put_entry(memory: &mut HostMemory, bits: u8)
    requires { IsWithin WINDOW memory.old.bytes }
    ensures { IsWithin WINDOW memory.new.bytes }
{
    let entry = [bits, 0, 0, 0, 0, 0, 0, 0, 0, 0, 0, 0, 0, 0, 0, 0];
    let _ = memory.write_guest(WINDOW, 0, &entry, 8);
}
