// Sets of interrupt vectors: 32 bytes, vector v by bit v mod 8 of byte v/8.
ghost use Rattle.std.specs.Prelude.{◌≡◌, ◌+◌, ◌*◌, ◌≤◌, ◌<◌, drop, take};
ghost use Rattle.std.specs.Int.{w64, from_le_bytes};
ghost use Rattle.svm_model.specs.Machine.Apic.{class_in_service, has_vector as in_set, with_vector, without_vector, highest as highest_of, highest_below as highest_under};
ghost use Rattle.svm_model.specs.Machine.ApicRegisters.{vectors_at as register_of_vectors};
ghost use Rattle.apic_state.specs.Parts.{HasNoLow};

/// Whether the vector is in the set.
fn has_vector(set: &[u8; 32], vector: u8) -> bool
    ensures { result ≡ in_set set.now vector }
{
    let bit = 1 << (vector % 8);
    set[usize::from(vector / 8)] & bit == bit
}

/// Puts the vector into the set.
#[tactic(auto, using(crate::proofs::KeptLemmas::none_low_with))]
pub fn insert(set: &mut [u8; 32], vector: u8)
    ensures set { set.new ≡ with_vector set.old vector }
    ensures low { 16 ≤ vector → HasNoLow set.old → HasNoLow set.new }
{
    set[usize::from(vector / 8)] |= 1 << (vector % 8);
}

/// Takes the vector out of the set.
#[tactic(auto, using(crate::proofs::KeptLemmas::none_low_without))]
pub fn remove(set: &mut [u8; 32], vector: u8)
    ensures set { set.new ≡ without_vector set.old vector }
    ensures low { HasNoLow set.old → HasNoLow set.new }
{
    set[usize::from(vector / 8)] &= !(1 << (vector % 8));
}

/// The highest vector of the set that is below the bound.
#[tactic(auto, unfolding(svm_model::specs::Machine::Apic::highest_below))]
fn highest_below(bound: u16, set: &[u8; 32]) -> Option<u8>
    requires { bound ≤ 256 }
    ensures { result ≡ highest_under bound set.now }
{
    if bound == 0 {
        return None;
    }
    let vector = (bound - 1) as u8;
    if has_vector(set, vector) {
        return Some(vector);
    }
    highest_below(bound - 1, set)
}

/// The highest vector of the first so many bytes of the set. Bytes that are 0 are passed over whole.
fn highest_in_front(count: usize, set: &[u8; 32]) -> Option<u8>
    requires { count ≤ 32 }
    ensures { result ≡ highest_under (8 * count) set.now }
{
    let mut byte = count;
    while byte > 0 {
        if set[byte - 1] != 0 {
            return highest_below(8 * byte as u16, set);
        }
        byte -= 1;
    }
    None
}

/// Eight bytes of the set as one number.
fn eight_bytes(set: &[u8; 32], start: usize) -> u64
    requires { start ≤ 24 }
    ensures { result ≡ from_le_bytes w64 (take 8 (drop start set.now)) }
{
    let mut bytes = [0; 8];
    bytes.copy_from_slice(&set[start..start + 8]);
    u64::from_le_bytes(bytes)
}

/// The highest vector of the set. Most sets are empty: eight bytes that are 0 are passed over at once.
pub fn highest(set: &[u8; 32]) -> Option<u8>
    ensures { result ≡ highest_of set.now }
{
    let mut count = 32;
    while count >= 8 {
        if eight_bytes(set, count - 8) != 0 {
            return highest_in_front(count, set);
        }
        count -= 8;
    }
    None
}

/// The class of the highest interrupt in service.
pub fn class_of(vector: Option<u8>) -> u8
    ensures value { result ≡ class_in_service vector }
    ensures few { result < 16 }
{
    match vector {
        None => 0,
        Some(vector) => vector / 16,
    }
}

/// The register of 32 of the vectors.
pub fn vectors_at(set: &[u8; 32], number: u8) -> u32
    requires { number < 8 }
    ensures { result ≡ register_of_vectors set.now number }
{
    let start = 4 * usize::from(number);
    let mut bytes = [0; 4];
    bytes.copy_from_slice(&set[start..start + 4]);
    u32::from_le_bytes(bytes)
}
