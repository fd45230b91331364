// Tables from volume 2, 'VMCB Layout' and 'VMCB Clean Bits'.
ghost use Rattle.std.specs.Prelude.{◌≡◌, ◌<◌};
ghost use Rattle.svm_model.specs.Memory.Bytes.{IsWithin};

use crate::Field::{self, *};
use crate::{Fields, get, group_fields, place, put, read_fields};
use host_memory::{GuestWindow, HostMemory, OutsideMemory, Steps, counted_from};
use std::alloc::{AllocError, Global};
use std::marker::Brand;
use std::process::Abort;
use std::sync::ledger::{Blank, Ledger};

/// Each field with its offset and its width in bytes, by rising offset.
#[rattlefmt::skip]
const PLACES: [(Field, u16, u8); 86] = [
    // control area
    (CrIntercepts, 0x000, 4), (DrIntercepts, 0x004, 4), (ExceptionIntercepts, 0x008, 4), (InterceptWordC, 0x00c, 4),
    (InterceptWord10, 0x010, 4), (IopmBase, 0x040, 8), (MsrpmBase, 0x048, 8), (TscOffset, 0x050, 8), (Asid, 0x058, 4),
    (TlbControl, 0x05c, 1), (VirtualInterrupt, 0x060, 8), (Shadow, 0x068, 8), (ExitCode, 0x070, 8),
    (ExitInfo1, 0x078, 8), (ExitInfo2, 0x080, 8), (ExitIntInfo, 0x088, 8), (NpEnable, 0x090, 8), (AvicBar, 0x098, 8),
    (EventInj, 0x0a8, 8), (NCr3, 0x0b0, 8), (Clean, 0x0c0, 4), (NextRip, 0x0c8, 8), (BackingPage, 0x0e0, 8),
    (LogicalTable, 0x0f0, 8), (PhysicalTable, 0x0f8, 8),
    // segment and table registers
    (EsSelector, 0x400, 2), (EsAttributes, 0x402, 2), (EsLimit, 0x404, 4), (EsBase, 0x408, 8),
    (CsSelector, 0x410, 2), (CsAttributes, 0x412, 2), (CsLimit, 0x414, 4), (CsBase, 0x418, 8),
    (SsSelector, 0x420, 2), (SsAttributes, 0x422, 2), (SsLimit, 0x424, 4), (SsBase, 0x428, 8),
    (DsSelector, 0x430, 2), (DsAttributes, 0x432, 2), (DsLimit, 0x434, 4), (DsBase, 0x438, 8),
    (FsSelector, 0x440, 2), (FsAttributes, 0x442, 2), (FsLimit, 0x444, 4), (FsBase, 0x448, 8),
    (GsSelector, 0x450, 2), (GsAttributes, 0x452, 2), (GsLimit, 0x454, 4), (GsBase, 0x458, 8),
    (GdtrSelector, 0x460, 2), (GdtrAttributes, 0x462, 2), (GdtrLimit, 0x464, 4), (GdtrBase, 0x468, 8),
    (LdtrSelector, 0x470, 2), (LdtrAttributes, 0x472, 2), (LdtrLimit, 0x474, 4), (LdtrBase, 0x478, 8),
    (IdtrSelector, 0x480, 2), (IdtrAttributes, 0x482, 2), (IdtrLimit, 0x484, 4), (IdtrBase, 0x488, 8),
    (TrSelector, 0x490, 2), (TrAttributes, 0x492, 2), (TrLimit, 0x494, 4), (TrBase, 0x498, 8),
    // state save area
    (Cpl, 0x4cb, 1), (Efer, 0x4d0, 8), (Cr4, 0x548, 8), (Cr3, 0x550, 8), (Cr0, 0x558, 8), (Dr7, 0x560, 8),
    (Dr6, 0x568, 8), (Rflags, 0x570, 8), (Rip, 0x578, 8), (Rsp, 0x5d8, 8), (Rax, 0x5f8, 8), (Star, 0x600, 8),
    (Lstar, 0x608, 8), (Cstar, 0x610, 8), (Sfmask, 0x618, 8), (KernelGsBase, 0x620, 8), (SysenterCs, 0x628, 8),
    (SysenterEsp, 0x630, 8), (SysenterEip, 0x638, 8), (Cr2, 0x640, 8), (GPat, 0x668, 8),
];

#[test]
fn fields_lie_where_the_manual_has_them(rt: HostRuntime) {
    for &(field, offset, width) in &PLACES {
        assert!(rt; place(field) == (offset, width), "at {offset}");
    }
}

/// The second of three pages.
const WINDOW: GuestWindow = GuestWindow {
    base: 4096,
    size: 4096,
};

/// The byte at an address of a memory that is filled: 251 addresses in a row have different ones.
fn byte_at(address: u64) -> u8 {
    (address % 251 + 1) as u8
}

/// Gives each byte of the window that of its address.
#[tactic(auto, using(svm_model::proofs::WindowLemmas::windows))]
fn fill(memory: &mut HostMemory)
    requires { IsWithin WINDOW memory.old.bytes }
    ensures { IsWithin WINDOW memory.new.bytes }
{
    for address in 0..4096 {
        let bytes = [byte_at(address); 16];
        let _ = memory.write_guest(WINDOW, address, &bytes, 1);
    }
}

/// The number that so many bytes of a filled memory say, the lowest byte first.
fn number_at(address: u64, width: u8) -> u64 {
    let mut bytes = [0; 8];
    for at in 0..width.min(8) {
        bytes[usize::from(at)] = byte_at(address.wrapping_add(u64::from(at)));
    }
    u64::from_le_bytes(bytes)
}

#[test]
fn fields_are_read_where_they_lie(rt: HostRuntime) -> Result<(), AllocError> {
    read_each::<Brand, HostRuntime>(&rt, rt.alloc(), Blank::new(1))
}

#[tactic(auto, using(crate::proofs::RegisterParts::registers))]
fn read_each<L: Ledger, R: Abort>(rt: &R, alloc: Global, blank: Blank) -> Result<(), AllocError>
    requires name { blank.name ≡ L.name }
    requires parts { blank.parts ≡ L.parts }
    requires some { 0 < blank.parts }
{
    let mut steps: Steps<L> = counted_from(blank);
    let mut memory = HostMemory::new(alloc, 3)?;
    fill(&mut memory);
    let Ok(fields) = read_fields(&memory, WINDOW, 0, &mut steps) else {
        panic!(rt; "the page is there");
    };
    for &(field, offset, width) in &PLACES {
        let number = number_at(u64::from(offset), width);
        assert!(rt; fields.value(field) == number, "at {offset}");
        let got = get(&memory, WINDOW, 0, field, &mut steps);
        assert!(rt; got == Ok(number), "one, at {offset}");
    }
    let gs = fields.segment(GsSelector);
    assert_eq!(rt; u64::from(gs.selector), number_at(0x450, 2));
    assert_eq!(rt; u64::from(gs.attributes), number_at(0x452, 2));
    assert_eq!(rt; u64::from(gs.limit), number_at(0x454, 4));
    assert_eq!(rt; gs.base, number_at(0x458, 8));
    set_each(rt, &fields);
    Ok(())
}

/// Sets each field alone, where all others are 0.
fn set_each<R: Abort>(rt: &R, fields: &Fields) {
    for &(field, offset, _) in &PLACES {
        let mut alone = Fields::zeros();
        alone.set(field, fields.value(field));
        for &(other, at, _) in &PLACES {
            let wanted = if at == offset { fields.value(field) } else { 0 };
            assert!(rt; alone.value(other) == wanted, "{offset} {at}");
        }
    }
}

/// The byte at an address.
fn byte_in<L: Ledger>(memory: &HostMemory, address: u64, steps: &mut Steps<L>) -> u8
    requires { IsWithin WINDOW memory.now.bytes }
{
    let mut bytes = [0; 16];
    let _ = memory.read_guest(WINDOW, address, 1, &mut bytes, steps);
    bytes[0]
}

#[test]
fn a_field_is_put_beside_its_neighbours(rt: HostRuntime) -> Result<(), AllocError> {
    put_each::<Brand, HostRuntime>(&rt, rt.alloc(), Blank::new(1))
}

/// Puts each field of a filled memory into a memory of zeros, of which 40 bytes about the field are looked at.
fn put_each<L: Ledger, R: Abort>(rt: &R, alloc: Global, blank: Blank) -> Result<(), AllocError>
    requires name { blank.name ≡ L.name }
    requires parts { blank.parts ≡ L.parts }
    requires some { 0 < blank.parts }
{
    let mut steps: Steps<L> = counted_from(blank);
    let mut memory = HostMemory::new(alloc, 3)?;
    fill(&mut memory);
    let Ok(fields) = read_fields(&memory, WINDOW, 0, &mut steps) else {
        panic!(rt; "the page is there");
    };
    for &(field, offset, width) in &PLACES {
        let mut memory = HostMemory::new(alloc, 3)?;
        let answer = put(&mut memory, WINDOW, 0x800, field, fields.value(field));
        assert!(rt; answer == Ok(()), "put at {offset}");
        let start = 0x800 + u64::from(offset);
        let end = start + u64::from(width);
        for address in start - 16..start + 24 {
            let wanted = if address < start || address >= end {
                0
            } else {
                byte_at(address - 0x800)
            };
            assert!(rt;
                byte_in(&memory, address, &mut steps) == wanted,
                "{address}"
            );
        }
    }
    Ok(())
}

/// The size of the guest's memory, the address of a VMCB, and the first byte outside that reading it tells.
const MISSING: [(u64, u64, u64); 9] = [
    (4096, 4096, 4096),
    (4096, 0x5000, 0x5000),
    (4096, 1, 4096),
    (4095, 0, 4095),
    (0x66f, 0, 0x66f),
    (0, 0, 0),
    (8192, 0xff_ffff_f000, 0xff_ffff_f000),
    (8192, 0xffff_ffff_ffff_f000, 0xffff_ffff_ffff_f000),
    (8192, 0xffff_ffff_ffff_ffff, 0xffff_ffff_ffff_ffff),
];

/// The size of the guest's memory, the address of a VMCB, a field of it, and the first byte of it that is outside.
#[rattlefmt::skip]
const CUT: [(u64, u64, Field, Option<u64>); 8] = [
    (4096, 0x990, GPat, None), (4096, 0x991, GPat, Some(4096)), (4096, 0x1000, CrIntercepts, Some(4096)),
    (0x66f, 0, GPat, Some(0x66f)), (0x668, 0, GPat, Some(0x668)), (0x667, 0, GPat, Some(0x668)),
    (0x4cc, 0, Cpl, None), (0x4cb, 0, Cpl, Some(0x4cb)),
];

#[test]
fn what_is_outside_is_refused(rt: HostRuntime) -> Result<(), AllocError> {
    refuse_each::<Brand, HostRuntime>(&rt, rt.alloc(), Blank::new(1))
}

fn refuse_each<L: Ledger, R: Abort>(rt: &R, alloc: Global, blank: Blank) -> Result<(), AllocError>
    requires name { blank.name ≡ L.name }
    requires parts { blank.parts ≡ L.parts }
    requires some { 0 < blank.parts }
{
    let mut steps: Steps<L> = counted_from(blank);
    let memory = HostMemory::new(alloc, 3)?;
    for &(size, vmcb, address) in &MISSING {
        assert!(rt; size <= 8192);
        let read = read_fields(&memory, GuestWindow { base: 4096, size }, vmcb, &mut steps);
        assert!(rt;
            matches!(read, Err(outside) if outside.address == address),
            "{size} {vmcb}"
        );
    }
    for &(size, vmcb, field, address) in &CUT {
        assert!(rt; size <= 8192 && vmcb < 1 << 40);
        let wanted = match address {
            None => Ok(0),
            Some(address) => Err(OutsideMemory { address }),
        };
        let got = get(
            &memory,
            GuestWindow { base: 4096, size },
            vmcb,
            field,
            &mut steps,
        );
        assert!(rt; got == wanted, "{size} {vmcb}");
    }
    Ok(())
}

/// The offsets of the fields of each group, from group 0 on.
#[rattlefmt::skip]
const GROUPS: [&[u16]; 12] = [
    &[0x000, 0x004, 0x008, 0x00c, 0x010, 0x050],
    &[0x040, 0x048],
    &[0x058],
    &[0x060],
    &[0x090, 0x0b0, 0x668],
    &[0x558, 0x550, 0x548, 0x4d0],
    &[0x568, 0x560],
    &[0x460, 0x462, 0x464, 0x468, 0x480, 0x482, 0x484, 0x488],
    &[0x400, 0x402, 0x404, 0x408, 0x410, 0x412, 0x414, 0x418,
      0x420, 0x422, 0x424, 0x428, 0x430, 0x432, 0x434, 0x438, 0x4cb],
    &[0x640],
    &[],
    &[0x098, 0x0e0, 0x0f0, 0x0f8],
];

#[test]
fn groups_have_the_fields_of_their_lines(rt: HostRuntime) {
    for (group, offsets) in GROUPS.iter().enumerate() {
        let fields = group_fields(group as u8);
        assert!(rt; fields.len() == offsets.len(), "group {group}");
        for (field, offset) in fields.iter().zip(*offsets) {
            assert!(rt; place(*field).0 == *offset, "group {group}, {offset}");
        }
    }
}
