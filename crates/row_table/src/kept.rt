// Rows that were decoded before, by the bytes that they were decoded from.
ghost use Rattle.std.specs.Borrow.{sem};
ghost use Rattle.std.specs.Io.BufRead.{Rests};
ghost use Rattle.std.specs.Prelude.{◌≡◌, ◌-◌, ◌*◌, ◌^◌, ◌<◌, ◌≤◌, take, ⊤};
ghost use Rattle.row_table.specs.contracts.kept.Place.{the_row as place_row};
ghost use Rattle.row_table.specs.contracts.kept.KeptRows.{the_row as kept_rows};
ghost use Rattle.svm_model.specs.Instructions.Rows.{decoded};
ghost use Rattle.row_table.specs.Kept.{answer_of, Finds};
ghost use Rattle.row_table.specs.Read.{answer_in};

use crate::decoding::{BLANK, read_form};
use std::alloc::Global;
use std::marker::Model;
use svm_model::{Decoded, Row, Unread};

/// How many rows are kept.
const PLACES: usize = 1024;

/// What bytes decode to: a kept row and its length in bytes, 1 to 15, or more bytes are wanted, or the first byte with
/// which no form goes on.
#[derive(Clone, Copy)]
pub enum Kept<'a> {
    Row { row: &'a Row, length: u8 },
    More,
    Unlisted { byte: u8 },
}

/// A row of so many bytes. Sixteen bytes whose number under the mask is `word` have the row at their front.
#[derive(Drop)]
struct KeptRow {
    word: u128,
    mask: u128,
    row: Row,
    size: u8,
}

/// A place for a row. What is kept there finds only bytes that have its row at their front.
#[derive(Drop)]
struct Place {
    kept: KeptRow,
}

impl Model for Place {
    ghost use Rattle.std.specs.Prelude.{⊤};
    ghost use Rattle.row_table.specs.Kept.{Finds};

    ghost Value = { ⊤ };

    ghost view = { λ p. tt };

    ghost invariant = { λ p. Finds p.kept.word p.kept.mask p.kept.row p.kept.size };
}

/// The bits of a number's low bytes.
fn mask_of(length: u8) -> u128
    requires { length ≤ 15 }
    ensures { result ≡ 2 ^ (8 * length) - 1 }
{
    (1 << (8 * u32::from(length))) - 1
}

/// Keeps the row at the front of the first `count` bytes, in place of the one before. Where there is none, none is kept.
#[inline(never)]
fn keep(kept: &mut KeptRow, bytes: &[u8; 16], count: u8) -> Result<u8, Unread>
    requires { count ≤ 15 }
    ensures answer { answer_in result kept.new.row ≡ decoded (take count bytes.now) }
    ensures finds { Finds kept.new.word kept.new.mask kept.new.row kept.new.size }
{
    match read_form(&mut kept.row, &bytes[..usize::from(count)]) {
        Ok(length) => {
            let mask = mask_of(length);
            kept.word = u128::from_le_bytes(*bytes) & mask;
            kept.mask = mask;
            kept.size = length;
            Ok(length)
        }
        Err(unread) => {
            kept.word = 1;
            kept.mask = 0;
            Err(unread)
        }
    }
}

impl Place {
    /// A place of a row that no bytes find.
    fn empty() -> Place {
        Place {
            kept: KeptRow {
                word: 1,
                mask: 0,
                row: BLANK,
                size: 0,
            },
        }
    }

    /// What the first `count` bytes decode to: the row that is kept, where they find it, or one that is kept from now on.
    #[inline(always)]
    fn decode(&mut self, bytes: &[u8; 16], count: u8) -> Kept<'_>
        requires { count ≤ 15 }
        ensures* rests { sem 𝓛 (Rests place_row self.entry (λ _. ⊤)) }
        ensures exact { answer_of result ≡ decoded (take count bytes.now) }
        ensures few { answer_of result ≡ Decoded.More → count < 15 }
    {
        let word = u128::from_le_bytes(*bytes);
        if word & self.kept.mask == self.kept.word && self.kept.size <= count {
            return Kept::Row {
                row: &self.kept.row,
                length: self.kept.size,
            };
        }
        match keep(&mut self.kept, bytes, count) {
            Ok(length) => Kept::Row {
                row: &self.kept.row,
                length,
            },
            Err(Unread::More) => Kept::More,
            Err(Unread::Unlisted { byte }) => Kept::Unlisted { byte },
        }
    }
}

/// Rows that were decoded before: a copy of what is asked for often, and nothing that a clause sees.
#[derive(Drop)]
pub struct KeptRows {
    places: Vec<Place>,
    spare: Place,
}

impl Model for KeptRows {
    ghost use Rattle.std.specs.Prelude.{⊤};

    ghost Value = { ⊤ };

    ghost view = { λ k. tt };
}

/// Where a row is kept, by the first five bytes: mostly they are REX, opcode, ModRM, SIB and a byte of displacement.
fn place_of(bytes: &[u8; 16]) -> usize
    ensures { result < 1024 }
{
    let word = (u128::from_le_bytes(*bytes) % 0x1_0000_0000_0000_0000) as u64;
    ((word << 24).wrapping_mul(0x9e37_79b9_7f4a_7c15) >> 54) as usize
}

impl KeptRows {
    /// No rows. Where memory is short, fewer are kept.
    pub fn new(alloc: Global) -> KeptRows {
        let mut places = Vec::new(alloc);
        for _ in 0..PLACES {
            if places.push(Place::empty()).is_err() {
                break;
            }
        }
        KeptRows {
            places,
            spare: Place::empty(),
        }
    }

    /// What the first `count` bytes decode to, by the row that is kept of them, or anew: the answer of the function
    /// `decode`.
    #[inline(always)]
    pub fn decode(&mut self, bytes: &[u8; 16], count: u8) -> Kept<'_>
        requires { count ≤ 15 }
        ensures* rests { sem 𝓛 (Rests kept_rows self.entry (λ _. ⊤)) }
        ensures exact { answer_of result ≡ decoded (take count bytes.now) }
        ensures few { answer_of result ≡ Decoded.More → count < 15 }
    {
        let place = place_of(bytes);
        if place < self.places.len() {
            let place = &mut self.places[place];
            return place.decode(bytes, count);
        }
        self.spare.decode(bytes, count)
    }
}
