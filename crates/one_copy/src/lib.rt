//! A way to translate that keeps one copy.
//!
//! It shows that a `Translator` may keep copies of what walks have found. It keeps the leaf of the last walk that found one,
//! with the address-space identifier and the access of that walk, and answers the same access again from the copy, with no
//! walk. What it keeps stands for a history that recalls it, and its rule is that an access for which a leaf is recalled
//! still finds that very leaf and sets no bit (`specs/Recalls.antt`). The crate stands on the page walk and on the executor
//! of turns. A layer above uses `OneCopy` as a translator, and that after `drop_copy`, as at the start of each event, it
//! stands for every history; `take_turn` is a turn behind it.
#![tactic(auto)]

mod kept;
mod translating;
mod turns;

pub use translating::OneCopy;
pub use turns::take_turn;

#[cfg(test)]
mod tests;
