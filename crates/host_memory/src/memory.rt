// One run of bytes that all guests share. A guest reads and writes in its window alone.
ghost use Rattle.std.specs.Prelude.{◌≡◌, ◌⊎◌, ℕ, ◌+◌, ◌*◌, ◌^◌, ◌<◌, ◌≤◌, ◌++◌, true, false, length, length as length_of, take, drop, replicate, max, IfOk, IfErr, OnOk, MatchResult};
ghost use Rattle.std.specs.Int.{w64, from_le_bytes};
ghost use Rattle.host_memory.specs.Marks.{IsTouched, SameAround, marked, with_mark};
ghost use Rattle.svm_model.specs.Memory.Bytes.{IsWithin, SameOutside, guest_of, bytes_at, is_written, page_at, put_at};

use crate::steps::Steps;
use std::alloc::{AllocError, Global};
use std::marker::Model;
use std::sync::ledger::Ledger;
use svm_model::{GuestWindow, OutsideMemory};

/// The bytes of all guests, 1 to 81920 pages of 4096 bytes, with a mark for each page that a write touches.
#[derive(Drop)]
pub struct HostMemory {
    bytes: Vec<u8>,
    /// Whether a write has come since the marks were last taken off. Where none has, the marks are old.
    is_changed: bool,
    written: Vec<bool>,
}

impl Model for HostMemory {
    ghost use Rattle.svm_model.specs.Memory.Bytes.{Host};

    ghost Value = { Host };

    ghost view = { λ m. record { bytes = m.bytes.items; is_changed = m.is_changed; written = m.written.items } };
}

impl HostMemory {
    /// That many pages of zeros, none of them marked.
    pub fn new(alloc: Global, pages: u32) -> Result<HostMemory, AllocError>
        requires some { 1 ≤ pages }
        requires few { pages ≤ 81920 }
        ensures bytes { IfOk result (λ memory. memory.bytes ≡ replicate (4096 * pages) 0) }
        ensures marks { IfOk result (λ memory. memory.is_changed ≡ false) }
    {
        let bytes = vec![in alloc; 0; 4096 * pages as usize]?;
        let written = vec![in alloc; false; pages as usize]?;
        Ok(HostMemory {
            bytes,
            is_changed: false,
            written,
        })
    }

    /// Whether a write touched a page of the memory since its pages were last marked unwritten, or at all where they never were.
    pub fn page_written(&self, page: u32) -> bool
        ensures { result ≡ is_written self.now page }
    {
        self.is_changed
            && match self.written.get(page as usize) {
                Some(written) => *written,
                None => true,
            }
    }

    /// The bytes of a page of the guest's memory, by its number there. It counts one, as each read does.
    #[tactic(auto, using(svm_model::proofs::WindowLemmas::windows))]
    pub fn page<L: Ledger>(&self, window: GuestWindow, page: u32, steps: &mut Steps<L>) -> &[u8]
        requires window { IsWithin window self.now.bytes }
        requires inside { 4096 * page + 4096 ≤ window.size }
        ensures bytes { result.now ≡ page_at (guest_of window self.now.bytes) page }
        ensures steps { steps.new ≡ steps.old + 1 }
    {
        let bytes = self.bytes.as_slice();
        let start = window.base as usize;
        let end = start + window.size as usize;
        page_of(&bytes[start..end], page, steps)
    }

    /// Takes the marks of all pages off.
    pub fn mark_unchanged(&mut self)
        ensures { self.new ≡ record { bytes = self.old.bytes; is_changed = false; written = self.old.written } }
    {
        self.is_changed = false;
    }

    /// Marks the pages of bytes, by their place in the memory.
    #[inline]
    fn mark(&mut self, at: u64, length: u8)
        requires some { 1 ≤ length }
        requires few { at + length < 2 ^ 64 }
        ensures { self.new ≡ marked self.old at length }
    {
        if !self.is_changed {
            self.written.fill(false);
            self.is_changed = true;
        }
        mark_page(&mut self.written, at);
        mark_page(&mut self.written, at + length as u64 - 1);
    }

    /// Reads bytes of the guest's memory, from a guest-physical address on, into the front of `into`. It counts one
    /// whether or not the bytes are there, and beside `read_number` and `page`, which count too, no other call tells a byte, so
    /// the count is that of all reads. Where a byte is not there, the answer is the first such address, and `into` stays.
    #[tactic(auto, using(svm_model::proofs::WindowLemmas::windows))]
    pub fn read_guest<L: Ledger>(
        &self,
        window: GuestWindow,
        address: u64,
        length: u8,
        into: &mut [u8; 16],
        steps: &mut Steps<L>,
    ) -> Result<(), OutsideMemory>
        requires window { IsWithin window self.now.bytes }
        requires some { 1 ≤ length }
        requires few { length ≤ 16 }
        ensures read { MatchResult (bytes_at (guest_of window self.now.bytes) address length)
            (λ bytes. (result ≡ Ok tt) × (into.new ≡ bytes ++ drop length into.old))
            (λ outside. (result ≡ Err outside) × (into.new ≡ into.old)) }
        // The same, where the caller knows that the bytes are there.
        ensures inside { address + length ≤ window.size → (result ≡ Ok tt)
            × (take length into.new ≡ take length (drop address (guest_of window self.now.bytes))) }
        ensures steps { steps.new ≡ steps.old + 1 }
    {
        steps.tick();
        let bytes = self.bytes.as_slice();
        let start = window.base as usize;
        let end = start + window.size as usize;
        read_bytes(&bytes[start..end], address, length, into)
    }

    /// Reads the number in eight bytes of the guest's memory, from a guest-physical address on, the lowest byte first. It
    /// counts as `read_guest` does, and answers like it where a byte is not there.
    #[tactic(auto, using(svm_model::proofs::WindowLemmas::windows))]
    #[inline]
    pub fn read_number<L: Ledger>(
        &self,
        window: GuestWindow,
        address: u64,
        steps: &mut Steps<L>,
    ) -> Result<u64, OutsideMemory>
        requires { IsWithin window self.now.bytes }
        ensures read { MatchResult (bytes_at (guest_of window self.now.bytes) address 8)
            (λ bytes. result ≡ Ok (from_le_bytes w64 bytes))
            (λ outside. result ≡ Err outside) }
        ensures steps { steps.new ≡ steps.old + 1 }
    {
        let bytes = self.bytes.as_slice();
        let start = window.base as usize;
        let end = start + window.size as usize;
        read_number_of(&bytes[start..end], address, steps)
    }

    /// Writes the front of `from` into the guest's memory, from a guest-physical address on, and marks the pages that the bytes
    /// lie in. Where one of the bytes has no place there, the answer is the first such address, and nothing is written.
    #[tactic(auto, using(svm_model::proofs::WindowLemmas::windows))]
    pub fn write_guest(
        &mut self,
        window: GuestWindow,
        address: u64,
        from: &[u8; 16],
        length: u8,
    ) -> Result<(), OutsideMemory>
        requires window { IsWithin window self.old.bytes }
        requires some { 1 ≤ length }
        requires few { length ≤ 16 }
        ensures write { MatchResult (bytes_at (guest_of window self.old.bytes) address length)
            (λ _. (result ≡ Ok tt) × (guest_of window self.new.bytes ≡ put_at (guest_of window self.old.bytes) address (take length from.now)))
            (λ outside. (result ≡ Err outside) × (self.new ≡ self.old)) }
        // The same, where the caller knows that the bytes have their place.
        ensures inside { address + length ≤ window.size → (result ≡ Ok tt)
            × (guest_of window self.new.bytes ≡ put_at (guest_of window self.old.bytes) address (take length from.now)) }
        ensures others { SameOutside window self.old self.new }
        ensures marks { (page : ℕ) → page < length_of self.old.written → is_written self.new page ≡ true → (is_written self.old page ≡ true) ⊎ IsTouched page (window.base + address) length }
    {
        self.write(window, address, from, length)?;
        self.mark(window.base + address, length);
        Ok(())
    }

    /// Writes without a mark.
    #[tactic(auto, using(svm_model::proofs::WindowLemmas::windows))]
    #[inline]
    fn write(
        &mut self,
        window: GuestWindow,
        address: u64,
        from: &[u8; 16],
        length: u8,
    ) -> Result<(), OutsideMemory>
        requires window { IsWithin window self.old.bytes }
        requires some { 1 ≤ length }
        requires few { length ≤ 16 }
        ensures write { MatchResult (bytes_at (guest_of window self.old.bytes) address length)
            (λ _. (result ≡ Ok tt) × (guest_of window self.new.bytes ≡ put_at (guest_of window self.old.bytes) address (take length from.now)))
            (λ outside. (result ≡ Err outside) × (self.new ≡ self.old)) }
        ensures placed { OnOk result ((address + length ≤ window.size) × (self.new.bytes ≡ put_at self.old.bytes (window.base + address) (take length from.now))) }
        ensures around { SameAround window self.old.bytes self.new.bytes }
        ensures marks { self.new ≡ record { bytes = self.new.bytes; is_changed = self.old.is_changed; written = self.old.written } }
        ensures fits { length_of self.new.bytes < 2 ^ 63 }
    {
        write_window(&mut self.bytes, window, address, from, length)
    }
}

/// Marks the page of a byte, where there is a mark for it.
#[inline]
#[tactic(auto, using(std::proofs::lemmas::List::set_past))]
fn mark_page(written: &mut [bool], at: u64)
    ensures { written.new ≡ with_mark at written.old }
{
    let page = (at / 4096) as usize;
    if page < written.len() {
        written[page] = true;
    }
}

fn page_of<'a, L: Ledger>(guest: &'a [u8], page: u32, steps: &mut Steps<L>) -> &'a [u8]
    requires { 4096 * page + 4096 ≤ length guest.now }
    ensures bytes { result.now ≡ page_at guest.now page }
    ensures steps { steps.new ≡ steps.old + 1 }
{
    steps.tick();
    let at = 4096 * page as usize;
    &guest[at..at + 4096]
}

fn write_window(
    bytes: &mut [u8],
    window: GuestWindow,
    address: u64,
    from: &[u8; 16],
    length: u8,
) -> Result<(), OutsideMemory>
    requires window { IsWithin window bytes.old }
    requires some { 1 ≤ length }
    requires few { length ≤ 16 }
    ensures write { MatchResult (bytes_at (guest_of window bytes.old) address length)
        (λ _. (result ≡ Ok tt) × (guest_of window bytes.new ≡ put_at (guest_of window bytes.old) address (take length from.now)))
        (λ outside. (result ≡ Err outside) × (bytes.new ≡ bytes.old)) }
    ensures placed { OnOk result ((address + length ≤ window.size) × (bytes.new ≡ put_at bytes.old (window.base + address) (take length from.now))) }
    ensures around { SameAround window bytes.old bytes.new }
{
    let start = window.base as usize;
    let end = start + window.size as usize;
    write_bytes(&mut bytes[start..end], address, from, length)
}

fn read_bytes(
    guest: &[u8],
    address: u64,
    length: u8,
    into: &mut [u8; 16],
) -> Result<(), OutsideMemory>
    requires some { 1 ≤ length }
    requires few { length ≤ 16 }
    ensures { MatchResult (bytes_at guest.now address length)
        (λ bytes. (result ≡ Ok tt) × (into.new ≡ bytes ++ drop length into.old))
        (λ outside. (result ≡ Err outside) × (into.new ≡ into.old)) }
{
    let at = place(guest, address, length)?;
    let count = length as usize;
    // A copy whose length is known takes two moves, any other a call.
    match count {
        15 => into[..15].copy_from_slice(&guest[at..at + 15]),
        8 => into[..8].copy_from_slice(&guest[at..at + 8]),
        _ => into[..count].copy_from_slice(&guest[at..at + count]),
    }
    Ok(())
}

#[inline]
fn read_number_of<L: Ledger>(
    guest: &[u8],
    address: u64,
    steps: &mut Steps<L>,
) -> Result<u64, OutsideMemory>
    ensures read { MatchResult (bytes_at guest.now address 8)
        (λ bytes. result ≡ Ok (from_le_bytes w64 bytes))
        (λ outside. result ≡ Err outside) }
    ensures steps { steps.new ≡ steps.old + 1 }
{
    steps.tick();
    let at = place(guest, address, 8)?;
    match guest[at..at + 8].split_first_chunk() {
        Some((bytes, _)) => Ok(u64::from_le_bytes(*bytes)),
        None => Err(OutsideMemory { address }),
    }
}

fn write_bytes(
    guest: &mut [u8],
    address: u64,
    from: &[u8; 16],
    length: u8,
) -> Result<(), OutsideMemory>
    requires some { 1 ≤ length }
    requires few { length ≤ 16 }
    ensures write { MatchResult (bytes_at guest.old address length)
        (λ _. (result ≡ Ok tt) × (guest.new ≡ put_at guest.old address (take length from.now)))
        (λ outside. (result ≡ Err outside) × (guest.new ≡ guest.old)) }
    ensures placed { OnOk result ((address + length ≤ length_of guest.old) × (guest.new ≡ put_at guest.old address (take length from.now))) }
{
    let at = place(guest, address, length)?;
    let count = length as usize;
    match count {
        8 => guest[at..at + 8].copy_from_slice(&from[..8]),
        _ => guest[at..at + count].copy_from_slice(&from[..count]),
    }
    Ok(())
}

/// Where the bytes stand, if all of them are there.
fn place(guest: &[u8], address: u64, count: u8) -> Result<usize, OutsideMemory>
    ensures ok { IfOk result (λ at. (at ≡ address) × (at + count ≤ length guest.now)) }
    ensures err { IfErr result (λ outside. (outside.address ≡ max address (length guest.now)) × (length guest.now < address + count)) }
{
    let size = guest.len() as u64;
    if count as u64 <= size && address <= size - count as u64 {
        Ok(address as usize)
    } else {
        Err(OutsideMemory {
            address: address.max(size),
        })
    }
}
