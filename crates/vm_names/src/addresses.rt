// Canonical addresses (volume 1, 'Canonical Address Form').
ghost use Rattle.std.specs.Prelude.{◌≡◌, ◌≤◌, ◌+◌, ◌%◌};
ghost use Rattle.svm_model.specs.Memory.RegisterFile.{is_canonical, AreCanonicalAlike};

/// Whether bits 63:48 of the address copy bit 47.
pub fn is_canonical(address: u64) -> bool
    ensures { result ≡ is_canonical address }
{
    address < 0x8000_0000_0000 || address >= 0xffff_8000_0000_0000
}

/// A law of addresses: within a page of 4 KiB all bytes are canonical where the first is, and none where it is not. That is
/// why an access looks at the first byte of each part that a page has of it.
#[tactic(auto, using(svm_model::proofs::CanonicalLemmas::canonical_alike))]
pub fn first_byte_decides(address: u64, count: u64)
    requires { address % 4096 + count ≤ 4096 }
    ensures { AreCanonicalAlike address count }
{}
