// The permission maps of ports and MSRs, which stand in memory.
ghost use Rattle.std.specs.Prelude.{◌≡◌, ◌⊎◌, ◌*◌, ◌+◌, ◌^◌, ◌≤◌, ◌<◌, ◌/◌, ◌%◌, IfSome, MatchResult, option_map, slice_index, take};
ghost use Rattle.svm_model.specs.Memory.Bytes.{IsWithin, bytes_at, guest_of, value_of_bytes};
ghost use Rattle.svm_model.specs.Svm.Intercepts.{map_base as base_of_map, msr_exit as exit_of_msr, msr_place as place_of_msr, port_exit as exit_of_port, ports_at, ports_count as count_of_ports, ports_set};
ghost use Rattle.svm_model.specs.declared.vmcbs.Field.{Field as FieldRecord};
ghost use Rattle.svm_model.specs.Memory.Bits.{bit as bit_set};
ghost use Rattle.exit_rules.specs.Looked.{msr_bit as bit_of_msr, msr_looked, msr_reads, ports_looked};

use host_memory::{GuestWindow, HostMemory, Steps};
use std::sync::ledger::Ledger;
use svm_model::{Exit, Field, OutsideMemory};
use vmcb_layout::Fields;

/// The exit of an access to ports: whether it reads, the first port, how many bytes, and the next instruction (volume 2,
/// 'IOIO Intercepts').
pub fn port_exit(reads: bool, port: u16, width: u8, next_rip: u64) -> Exit
    requires { width ≤ 4 }
    ensures { result ≡ exit_of_port reads port width next_rip }
{
    let direction = u64::from(reads);
    Exit {
        code: 0x7b,
        info1: direction + 16 * u64::from(width) + 0x200 + 0x1_0000 * u64::from(port),
        info2: next_rip,
        next_rip,
    }
}

/// The exit of RDMSR or WRMSR, with the next instruction (volume 2, 'MSR Intercepts').
pub fn msr_exit(writes: bool, next_rip: u64) -> Exit
    ensures { result ≡ exit_of_msr writes next_rip }
{
    Exit {
        code: 0x7c,
        info1: u64::from(writes),
        info2: 0,
        next_rip,
    }
}

/// The physical address of a permission map: bits 51:12 of its field.
fn map_base(fields: &Fields, field: Field) -> u64
    ensures value { result ≡ base_of_map fields.now field }
    ensures low { result < 2 ^ 52 }
{
    4096 * ((fields.value(field) >> 12) % (1 << 40))
}

/// How many bytes of the permission map these ports touch, at most four of them: one or two.
fn ports_count(port: u16, width: u8) -> u8
    requires some { 1 ≤ width }
    requires few { width ≤ 4 }
    ensures value { result ≡ count_of_ports port width }
    ensures few { (result ≡ 1) ⊎ (result ≡ 2) }
{
    let last = u32::from(port) + u32::from(width) - 1;
    (last / 8 - u32::from(port / 8) + 1) as u8
}

/// The number in the first byte or the first two.
#[tactic(auto, unfolding(svm_model::specs::Memory::Bytes::value_of_bytes))]
fn front_value(bytes: &[u8; 16], count: u8) -> u16
    requires { (count ≡ 1) ⊎ (count ≡ 2) }
    ensures { result ≡ value_of_bytes (take count bytes.now) }
{
    if count == 1 {
        u16::from(bytes[0])
    } else {
        u16::from_le_bytes([bytes[0], bytes[1]])
    }
}

/// Bytes of a permission map: the guest-physical address of the first, and how many they are.
#[derive(Clone, Copy)]
pub struct MapBytes {
    pub address: u64,
    pub count: u8,
}

/// The one or two bytes that 1, 2 or 4 ports touch of their permission map (volume 2, 'I/O Permissions Map').
pub fn ports_bytes(fields: &Fields, port: u16, width: u8) -> MapBytes
    requires width { (width ≡ 1) ⊎ (width ≡ 2) ⊎ (width ≡ 4) }
    ensures address { result.address ≡ ports_at fields.now port }
    ensures count { result.count ≡ count_of_ports port width }
    ensures few { (result.count ≡ 1) ⊎ (result.count ≡ 2) }
{
    MapBytes {
        address: map_base(fields, Field::IopmBase) + u64::from(port / 8),
        count: ports_count(port, width),
    }
}

/// Whether a bit is set for one of these ports in the bytes that they touch.
pub fn has_port(bytes: &[u8; 16], port: u16, width: u8) -> bool
    requires width { (width ≡ 1) ⊎ (width ≡ 2) ⊎ (width ≡ 4) }
    ensures { result ≡ ports_set (take (count_of_ports port width) bytes.now) port width }
{
    let word = front_value(bytes, ports_count(port, width));
    (word >> (port % 8)) % (1 << width) != 0
}

/// The first of the two bits of an MSR in its permission map, counted from the map's first bit: it is for reads, and the next
/// one for writes.
fn msr_place(msr: u32) -> Option<u16>
    ensures value { result ≡ place_of_msr msr }
    ensures few { IfSome result (λ place. place < 65535) }
{
    match msr {
        0..=0x1fff => Some(2 * msr as u16),
        0xc000_0000..=0xc000_1fff => Some(0x4000 + 2 * (msr - 0xc000_0000) as u16),
        0xc001_0000..=0xc001_1fff => Some(0x8000 + 2 * (msr - 0xc001_0000) as u16),
        _ => None,
    }
}

/// The bit of a read or a write of an MSR in its permission map, counted from the map's first bit; none where the MSR is
/// outside the map (volume 2, 'MSR Intercepts').
pub fn msr_bit(msr: u32, writes: bool) -> Option<u16>
    ensures { result ≡ option_map (bit_of_msr writes) (place_of_msr msr) }
{
    match msr_place(msr) {
        None => None,
        Some(place) => Some(place + u16::from(writes)),
    }
}

/// The guest-physical address of the byte of the map that has this bit.
pub fn msr_byte(fields: &Fields, bit: u16) -> u64
    ensures { result ≡ base_of_map fields.now Field.MsrpmBase + bit / 8 }
{
    map_base(fields, Field::MsrpmBase) + u64::from(bit / 8)
}

/// Whether this bit of the map is set in its byte.
pub fn has_msr(byte: u8, bit: u16) -> bool
    ensures { result ≡ bit_set (bit % 8) byte }
{
    let set = 1 << (bit % 8);
    byte & set == set
}

/// A byte of a map, by one read.
#[tactic(auto, using(svm_model::proofs::WindowLemmas::windows, crate::proofs::FirstByte::first_byte))]
fn read_byte<L: Ledger>(
    memory: &HostMemory,
    window: GuestWindow,
    address: u64,
    steps: &mut Steps<L>,
) -> Result<u8, OutsideMemory>
    requires window { IsWithin window memory.now.bytes }
    ensures value { MatchResult (bytes_at (guest_of window memory.now.bytes) address 1)
        (λ bytes. result ≡ Ok (slice_index bytes 0))
        (λ outside. result ≡ Err outside) }
    ensures steps { steps.new ≡ steps.old + 1 }
{
    let mut bytes = [0; 16];
    memory.read_guest(window, address, 1, &mut bytes, steps)?;
    Ok(bytes[0])
}

/// Whether the permission map of ports has a bit set for one of 1, 2 or 4 ports, by one read of the one or two bytes that
/// they touch (volume 2, 'IOIO Intercepts'). Where such a byte is outside the guest's memory, the answer is the first such
/// address.
#[tactic(auto, using(svm_model::proofs::WindowLemmas::windows))]
pub fn by_port<L: Ledger>(
    memory: &HostMemory,
    window: GuestWindow,
    fields: &Fields,
    port: u16,
    width: u8,
    steps: &mut Steps<L>,
) -> Result<bool, OutsideMemory>
    requires window { IsWithin window memory.now.bytes }
    requires width { (width ≡ 1) ⊎ (width ≡ 2) ⊎ (width ≡ 4) }
    ensures looked { result ≡ ports_looked (guest_of window memory.now.bytes) fields.now port width }
    ensures steps { steps.new ≡ steps.old + 1 }
{
    let touched = ports_bytes(fields, port, width);
    let mut bytes = [0; 16];
    memory.read_guest(window, touched.address, touched.count, &mut bytes, steps)?;
    Ok(has_port(&bytes, port, width))
}

/// Whether the permission map of MSRs has the bit set of a read or a write of an MSR, by one read of its byte, or the MSR is
/// outside the map, by none (volume 2, 'MSR Intercepts'). Where that byte is outside the guest's memory, the answer is its
/// address.
pub fn by_msr<L: Ledger>(
    memory: &HostMemory,
    window: GuestWindow,
    fields: &Fields,
    msr: u32,
    writes: bool,
    steps: &mut Steps<L>,
) -> Result<bool, OutsideMemory>
    requires window { IsWithin window memory.now.bytes }
    ensures looked { result ≡ msr_looked (guest_of window memory.now.bytes) fields.now writes (place_of_msr msr) }
    ensures steps { steps.new ≡ steps.old + msr_reads (place_of_msr msr) }
{
    let Some(bit) = msr_bit(msr, writes) else {
        return Ok(true);
    };
    let byte = read_byte(memory, window, msr_byte(fields, bit), steps)?;
    Ok(has_msr(byte, bit))
}
