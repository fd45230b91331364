// Sixteen bytes of a VMCB at a time.
ghost use Rattle.std.specs.Prelude.{◌≡◌, ◌+◌, ◌^◌, ◌<◌, ◌≤◌, take, drop};
ghost use Rattle.svm_model.specs.Memory.Bytes.{IsWithin, guest_of, number_at};
ghost use Rattle.vmcb_layout.specs.Widths.{IsWidth};

use host_memory::{GuestWindow, HostMemory, Steps};
use std::sync::ledger::Ledger;

/// Sixteen bytes at an address that are there, by one read.
#[tactic(auto, using(svm_model::proofs::WindowLemmas::windows))]
pub(crate) fn sixteen<L: Ledger>(
    memory: &HostMemory,
    window: GuestWindow,
    address: u64,
    steps: &mut Steps<L>,
) -> [u8; 16]
    requires window { IsWithin window memory.now.bytes }
    requires inside { address + 16 ≤ window.size }
    ensures bytes { result ≡ take 16 (drop address (guest_of window memory.now.bytes)) }
    ensures steps { steps.new ≡ steps.old + 1 }
{
    let mut bytes = [0; 16];
    let _ = memory.read_guest(window, address, 16, &mut bytes, steps);
    bytes
}

/// The number of one, two, four or eight of the bytes.
#[tactic(auto, unfolding(svm_model::specs::Memory::Bytes::value_of_bytes))]
pub(crate) fn number_in(bytes: &[u8; 16], at: u16, width: u8) -> u64
    requires width { IsWidth width }
    requires inside { at + width ≤ 16 }
    ensures value { result ≡ number_at bytes.now at width }
    ensures fits { result < 256 ^ width }
{
    let at = at as usize;
    match width {
        1 => u64::from(bytes[at]),
        2 => u64::from(u16::from_le_bytes([bytes[at], bytes[at + 1]])),
        4 => u64::from(u32::from_le_bytes([
            bytes[at],
            bytes[at + 1],
            bytes[at + 2],
            bytes[at + 3],
        ])),
        _ => u64::from_le_bytes([
            bytes[at],
            bytes[at + 1],
            bytes[at + 2],
            bytes[at + 3],
            bytes[at + 4],
            bytes[at + 5],
            bytes[at + 6],
            bytes[at + 7],
        ]),
    }
}
