// Where bytes come from.
ghost use Rattle.std.specs.Prelude.{◌≡◌, ◌≤◌, ◌<◌, ◌+◌, ℕ, List, [], Option, None, Ok, Err, length, take, Bool, IsTrue, IfOk, OnErr, IfSome, IsErrOf, IsSome};
ghost use Rattle.fault_counts.specs.Causes.{Rose};
ghost use Rattle.byte_shelf.specs.Shelf.{Files, file_of, after_bytes, whole_file};

use crate::answers::{Failed, Opened, ReadAll};
use std::alloc::Global;

/// A source of files, each of which has a name.
///
/// A shelf tells its names with their bytes, or nothing (`files`). It tells whether the last `open` answered `Here`
/// (`is_open`), and of the open file what is left to read (`rest`). It counts its faults, from 0 to 2^64-1 (`faults`), and
/// its calls (`calls`), of `open` and of `read`: each raises that count by one at most.
pub trait Shelf {
    ghost files: { Self → Option Files };

    ghost is_open: { Self → Bool };

    ghost rest: { Self → Option (List ℕ) };

    ghost faults: { Self → ℕ };

    ghost calls: { Self → ℕ };

    /// Opens the first file of that name at its first byte. With any answer but `Here` no file is open afterwards.
    fn open(&mut self, name: &str) -> Opened
        ensures files { files self.new ≡ files self.old }
        ensures open { result ≡ Opened.Here → IsTrue (is_open self.new) }
        ensures only_here { IsTrue (is_open self.new) → result ≡ Opened.Here }
        ensures first { result ≡ Opened.Here → rest self.new ≡ file_of (files self.old) name.now }
        ensures here { result ≡ Opened.Here → IfSome (files self.old) (λ _. IsSome (file_of (files self.old) name.now)) }
        ensures missing { result ≡ Opened.Missing → file_of (files self.old) name.now ≡ None }
        ensures kept { result ≡ Opened.Failed → rest self.new ≡ rest self.old }
        ensures kept_no_memory { result ≡ Opened.NoMemory → rest self.new ≡ rest self.old }
        ensures later { faults self.old ≤ faults self.new }
        ensures failed { result ≡ Opened.Failed → Rose (faults self.old) (faults self.new) }
        ensures calls { calls self.new ≤ calls self.old + 1 };

    /// Reads the next bytes of the open file into the first bytes of `into`, and answers how many; 0 only at the end of
    /// the file, or where there is no room.
    fn read(&mut self, into: &mut [u8]) -> Result<usize, Failed>
        requires { IsTrue (is_open self.old) }
        ensures files { files self.new ≡ files self.old }
        ensures open { IsTrue (is_open self.new) }
        ensures bound { IfOk result (λ count. count ≤ length into.new) }
        ensures bytes { IfOk result (λ count. after_bytes (take count into.new) (rest self.new) ≡ rest self.old) }
        ensures end { IfOk result (λ count. count ≡ 0 → 0 < length into.old → IfSome (rest self.old) (λ bytes. bytes ≡ [])) }
        ensures kept { OnErr result (rest self.new ≡ rest self.old) }
        ensures later { faults self.old ≤ faults self.new }
        ensures failed { OnErr result (Rose (faults self.old) (faults self.new)) }
        ensures calls { calls self.new ≤ calls self.old + 1 };
}

/// Reads the whole file of a name, of at most `limit` bytes.
///
/// It reads up to 4,096 bytes a turn. Each turn but the last takes a byte at least, so that it makes at most `limit + 1`
/// reads behind one `open`, and ends for every shelf. It reads past the limit only to tell that there is more.
pub fn read_all<H: Shelf>(
    alloc: Global,
    shelf: &mut H,
    name: &str,
    limit: u32,
) -> Result<Vec<u8>, ReadAll>
    ensures within_limit { IfOk result (λ all. length all.items ≤ limit) }
    ensures ok { IfOk result (λ all. IfSome (H.files shelf.old) (λ _.
        whole_file limit (file_of (H.files shelf.old) name.now) ≡ Ok all.items)) }
    ensures missing { IsErrOf result ReadAll.Missing → IfSome (H.files shelf.old) (λ _.
        whole_file limit (file_of (H.files shelf.old) name.now) ≡ Err ReadAll.Missing) }
    ensures long { IsErrOf result ReadAll.TooLong → IfSome (H.files shelf.old) (λ _.
        whole_file limit (file_of (H.files shelf.old) name.now) ≡ Err ReadAll.TooLong) }
    ensures files { H.files shelf.new ≡ H.files shelf.old }
    ensures later { H.faults shelf.old ≤ H.faults shelf.new }
    ensures failed { IsErrOf result ReadAll.Failed → Rose (H.faults shelf.old) (H.faults shelf.new) }
    ensures calls { H.calls shelf.new ≤ H.calls shelf.old + limit + 2 }
{
    match shelf.open(name) {
        Opened::Here => read_open(alloc, shelf, limit),
        Opened::Missing => Err(ReadAll::Missing),
        Opened::Failed => Err(ReadAll::Failed),
        Opened::NoMemory => Err(ReadAll::NoMemory),
    }
}

/// Reads what is left of the open file.
fn read_open<H: Shelf>(alloc: Global, shelf: &mut H, limit: u32) -> Result<Vec<u8>, ReadAll>
    requires { IsTrue (H.is_open shelf.old) }
    ensures within_limit { IfOk result (λ all. length all.items ≤ limit) }
    ensures ok { IfOk result (λ all. IfSome (H.rest shelf.old) (λ bytes. bytes ≡ all.items)) }
    ensures long { IsErrOf result ReadAll.TooLong → IfSome (H.rest shelf.old) (λ bytes. limit < length bytes) }
    ensures never { IsErrOf result ReadAll.Missing → ⊥ }
    ensures files { H.files shelf.new ≡ H.files shelf.old }
    ensures later { H.faults shelf.old ≤ H.faults shelf.new }
    ensures failed { IsErrOf result ReadAll.Failed → Rose (H.faults shelf.old) (H.faults shelf.new) }
    ensures calls { H.calls shelf.new ≤ H.calls shelf.old + limit + 1 }
{
    let mut all: Vec<u8> = Vec::new(alloc);
    let mut piece = [0; 4096];
    loop {
        let count = match shelf.read(&mut piece) {
            Ok(count) => count,
            Err(Failed) => return Err(ReadAll::Failed),
        };
        if count == 0 {
            return Ok(all);
        }
        if count > limit as usize - all.len() {
            return Err(ReadAll::TooLong);
        }
        if all.extend_from_slice(&piece[..count]).is_err() {
            return Err(ReadAll::NoMemory);
        }
    }
}

#[cfg(test)]
mod tests {
    use super::*;
    use crate::memory_shelf::MemoryShelf;
    use std::test::Fail;

    fn shelf_of(alloc: Global, failing: u64) -> Result<MemoryShelf, Fail> {
        let names = vec![in alloc;
            String::from_str(alloc, "three")?,
            String::from_str(alloc, "none")?,
        ]?;
        let files = vec![in alloc; vec![in alloc; 1, 2, 3]?, Vec::new(alloc)]?;
        Ok(MemoryShelf::new(names, files, vec![in alloc; failing]?))
    }

    #[test]
    fn a_whole_file_is_read_up_to_the_limit(rt: HostRuntime) -> Result<(), Fail> {
        let alloc = rt.alloc();
        for (name, limit, failing, wanted) in [
            ("three", 3, 9, Ok([1, 2, 3].as_slice())),
            ("three", 2, 9, Err(ReadAll::TooLong)),
            ("none", 0, 9, Ok([].as_slice())),
            ("two", 3, 9, Err(ReadAll::Missing)),
            ("three", 3, 0, Err(ReadAll::Failed)),
            ("three", 3, 1, Err(ReadAll::Failed)),
            ("three", 3, 2, Err(ReadAll::Failed)),
        ] {
            let mut shelf = shelf_of(alloc, failing)?;
            match read_all(alloc, &mut shelf, name, limit) {
                Ok(all) => assert_eq!(rt; Ok(all.as_slice()), wanted, "{name} {limit} {failing}"),
                Err(refusal) => assert_eq!(rt; Err(refusal), wanted, "{name} {limit} {failing}"),
            }
        }
        Ok(())
    }

    /// A file of seven bytes, which are answered one a call.
    #[derive(Drop)]
    struct Crumbs {
        is_open: bool,
        left: u8,
        calls: u64,
    }

    impl Shelf for Crumbs {
        ghost files = { λ _. None };

        ghost is_open = { λ s. s.is_open };

        ghost rest = { λ _. None };

        ghost faults = { λ _. 0 };

        ghost calls = { λ s. s.calls };

        fn open(&mut self, _name: &str) -> Opened {
            self.calls = self.calls.saturating_add(1);
            self.is_open = true;
            self.left = 7;
            Opened::Here
        }

        fn read(&mut self, into: &mut [u8]) -> Result<usize, Failed> {
            self.calls = self.calls.saturating_add(1);
            if self.left == 0 || into.is_empty() {
                return Ok(0);
            }
            into[0] = self.left;
            self.left -= 1;
            Ok(1)
        }
    }

    #[test]
    fn a_file_is_read_by_small_pieces(rt: HostRuntime) -> Result<(), Fail> {
        let alloc = rt.alloc();
        let mut crumbs = Crumbs {
            is_open: false,
            left: 0,
            calls: 0,
        };
        match read_all(alloc, &mut crumbs, "any", 7) {
            Ok(all) => assert_eq!(rt; all.as_slice(), [7, 6, 5, 4, 3, 2, 1].as_slice()),
            Err(refusal) => assert_eq!(rt; refusal, ReadAll::TooLong, "it was refused"),
        }
        match read_all(alloc, &mut crumbs, "any", 6) {
            Ok(_) => assert!(rt; false, "seven bytes passed a limit of six"),
            Err(refusal) => assert_eq!(rt; refusal, ReadAll::TooLong),
        }
        Ok(())
    }
}
