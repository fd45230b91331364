// A shelf in memory, which tells its names and their bytes.
ghost use Rattle.std.specs.Prelude.{◌≡◌, ◌≤◌, ◌<◌, ◌+◌, ◌-◌, ◌^◌, ◌↔◌, ◌++◌, Some, None, [], length, min, take, position, string_bytes, false, IsTrue, IfOk, IsErr, OnErr};
ghost use Rattle.std.specs.Str.{bytes_eq};
ghost use Rattle.fault_counts.specs.Causes.{Rose};
ghost use Rattle.byte_shelf.specs.Shelf.{file_in};
ghost use Rattle.fault_counts.specs.Numbered.{Fails, after_call};
ghost use Rattle.byte_shelf.specs.Memory.{files_of, left_of, opened_of};

use crate::answers::{Failed, Opened};
use crate::shelf::Shelf;
use fault_counts::Calls;
use std::marker::Model;

/// Names and their files. A clause sees these, whether a file is open, what is left of it, the count of faults, and which
/// calls will fail.
///
/// The calls of `open` and `read` are numbered together from 0; the last number, 2^64-1, is that of every later call.
#[derive(Drop)]
pub struct MemoryShelf {
    names: Vec<String>,
    files: Vec<Vec<u8>>,
    calls: Calls,
    is_open: bool,
    opened: Option<usize>,
    place: usize,
}

impl Model for MemoryShelf {
    ghost use Rattle.std.specs.Prelude.{◌≡◌, length};
    ghost use Rattle.byte_shelf.specs.Memory.{ShelfInMemory, files_of, left_of, opened_of};

    ghost Value = { ShelfInMemory };

    ghost view = { λ s. record {
      files = files_of s.names.items s.files.items;
      is_open = s.is_open;
      rest = left_of (opened_of s.files.items s.opened) s.place;
      faults = s.calls.faults;
      calls = s.calls.numbered;
    } };

    ghost invariant = { λ s. length s.names.items ≡ length s.files.items };
}

impl MemoryShelf {
    /// A shelf on which each name stands for the file at the same index, and of which nothing is open. Its calls whose
    /// numbers are in `failing` will fail.
    pub fn new(names: Vec<String>, files: Vec<Vec<u8>>, failing: Vec<u64>) -> MemoryShelf
        requires pairs { length names.items ≡ length files.items }
        ensures { result ≡ record {
          files = files_of names.items files.items;
          is_open = false;
          rest = [];
          faults = 0;
          calls = record { failing = failing.items; next = 0 };
        } }
    {
        MemoryShelf {
            names,
            files,
            calls: Calls::new(failing),
            is_open: false,
            opened: None,
            place: 0,
        }
    }
}

impl Shelf for MemoryShelf {
    ghost files = { λ s. Some s.files };

    ghost is_open = { λ s. s.is_open };

    ghost rest = { λ s. Some s.rest };

    ghost faults = { λ s. s.faults };

    ghost calls = { λ s. s.calls.next };

    fn open(&mut self, name: &str) -> Opened
        ensures chosen { (result ≡ Opened.Failed) ↔ Fails self.old.calls }
        ensures calls { self.new.calls ≡ after_call self.old.calls }
        ensures files { self.new.files ≡ self.old.files }
        ensures open { result ≡ Opened.Here → IsTrue self.new.is_open }
        ensures only_here { IsTrue self.new.is_open → result ≡ Opened.Here }
        ensures first { result ≡ Opened.Here → Some self.new.rest ≡ file_in self.old.files name.now }
        ensures missing { result ≡ Opened.Missing → file_in self.old.files name.now ≡ None }
        ensures memory { result ≡ Opened.NoMemory → ⊥ }
        ensures kept { result ≡ Opened.Failed → self.new.rest ≡ self.old.rest }
        ensures later { self.old.faults ≤ self.new.faults }
        ensures failed { result ≡ Opened.Failed → Rose self.old.faults self.new.faults }
        ensures one_call { self.new.calls.next ≤ self.old.calls.next + 1 }
    {
        self.is_open = false;
        if self.calls.fails() {
            return Opened::Failed;
        }
        match place_of(&self.names, name) {
            Some(index) => {
                self.is_open = true;
                self.opened = Some(index);
                self.place = 0;
                Opened::Here
            }
            None => Opened::Missing,
        }
    }

    #[tactic(auto, using(crate::proofs::Left::left_of_next))]
    fn read(&mut self, into: &mut [u8]) -> Result<usize, Failed>
        requires { IsTrue self.old.is_open }
        ensures chosen { IsErr result ↔ Fails self.old.calls }
        ensures calls { self.new.calls ≡ after_call self.old.calls }
        ensures files { self.new.files ≡ self.old.files }
        ensures open { IsTrue self.new.is_open }
        ensures bound { IfOk result (λ count. count ≤ length into.new) }
        ensures count { IfOk result (λ count. count ≡ min (length self.old.rest) (length into.old)) }
        ensures bytes { IfOk result (λ count. take count into.new ++ self.new.rest ≡ self.old.rest) }
        ensures end { IfOk result (λ count. count ≡ 0 → 0 < length into.old → self.old.rest ≡ []) }
        ensures kept { OnErr result (self.new.rest ≡ self.old.rest) }
        ensures later { self.old.faults ≤ self.new.faults }
        ensures failed { OnErr result (Rose self.old.faults self.new.faults) }
        ensures one_call { self.new.calls.next ≤ self.old.calls.next + 1 }
    {
        if self.calls.fails() {
            return Err(Failed);
        }
        let count = copy_front(rest_of(&self.files, self.opened, self.place), into);
        self.place += count;
        Ok(count)
    }
}

/// The first place at which a name stands.
fn place_of(names: &[String], name: &str) -> Option<usize>
    ensures { result ≡ position (λ held. bytes_eq (string_bytes held) name.now) names.now }
{
    names.iter().position(|held| held.as_str() == name)
}

/// What is left of the open file behind a place.
fn rest_of(files: &[Vec<u8>], opened: Option<usize>, place: usize) -> &[u8]
    ensures rest { result.now ≡ left_of (opened_of files.now opened) place }
    ensures room { place + length result.now ≤ 2 ^ 64 - 1 }
{
    let Some(index) = opened else {
        return &[];
    };
    let Some(file) = files.get(index) else {
        return &[];
    };
    if place > file.len() {
        return &[];
    }
    &file[place..]
}

/// Copies as many first bytes as there is room for.
fn copy_front(from: &[u8], into: &mut [u8]) -> usize
    ensures count { result ≡ min (length from.now) (length into.old) }
    ensures copied { take result into.new ≡ take result from.now }
    ensures end { result ≡ 0 → 0 < length into.old → from.now ≡ [] }
{
    let count = from.len().min(into.len());
    into[..count].copy_from_slice(&from[..count]);
    count
}

#[cfg(test)]
mod tests {
    use super::*;
    use std::alloc::Global;
    use std::test::Fail;

    fn shelf_of(alloc: Global, failing: Vec<u64>) -> Result<MemoryShelf, Fail> {
        let names = vec![in alloc;
            String::from_str(alloc, "a")?,
            String::from_str(alloc, "a")?,
        ]?;
        let files = vec![in alloc; vec![in alloc; 1, 2, 3]?, vec![in alloc; 9]?]?;
        Ok(MemoryShelf::new(names, files, failing))
    }

    #[test]
    fn the_first_file_of_a_name_is_read_from_its_first_byte(rt: HostRuntime) -> Result<(), Fail> {
        let alloc = rt.alloc();
        let mut shelf = shelf_of(alloc, Vec::new(alloc))?;
        let mut into = [0; 2];
        for _ in 0..2 {
            assert_eq!(rt; shelf.open("a"), Opened::Here);
            assert_eq!(rt; shelf.read(&mut into), Ok(2));
            assert_eq!(rt; into.as_slice(), [1, 2].as_slice());
            assert_eq!(rt; shelf.read(&mut into), Ok(1));
            assert_eq!(rt; into.as_slice(), [3, 2].as_slice());
            assert_eq!(rt; shelf.read(&mut into), Ok(0));
            assert_eq!(rt; shelf.open("b"), Opened::Missing);
        }
        Ok(())
    }

    #[test]
    fn chosen_calls_fail(rt: HostRuntime) -> Result<(), Fail> {
        let alloc = rt.alloc();
        let mut shelf = shelf_of(alloc, vec![in alloc; 0, 2]?)?;
        let mut into = [0; 4];
        assert_eq!(rt; shelf.open("a"), Opened::Failed);
        assert_eq!(rt; shelf.open("a"), Opened::Here);
        assert_eq!(rt; shelf.read(&mut into), Err(Failed));
        assert_eq!(rt; shelf.read(&mut into), Ok(3));
        Ok(())
    }
}
