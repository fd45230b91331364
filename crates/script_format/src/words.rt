// The words of a line.

ghost use Rattle.std.specs.Prelude.{◌≡◌, map, IfOk};
ghost use Rattle.std.specs.List.{list_all, slice_split};
ghost use Rattle.svm_model.specs.Formats.ScriptWords.{is_blank, is_comment, is_text, words_of};

use std::alloc::{AllocError, Global};

fn is_blank(byte: u8) -> bool
    ensures { result ≡ is_blank byte }
{
    byte == b' ' || byte == b'\t'
}

fn is_text(byte: u8) -> bool
    ensures { result ≡ is_text byte }
{
    (b' ' <= byte && byte <= b'~') || byte == b'\t'
}

// What stands between blanks, with an empty piece where two of them meet.
fn pieces_in(alloc: Global, line: &[u8]) -> Result<Vec<&[u8]>, AllocError>
    ensures { IfOk result (λ pieces. map (λ p. p.now) pieces.items ≡ slice_split is_blank line.now) }
{
    line.split(|byte| is_blank(*byte)).collect(alloc)
}

/// The words of a line, in order.
pub fn words_in(alloc: Global, line: &[u8]) -> Result<Vec<&[u8]>, AllocError>
    ensures { IfOk result (λ words. map (λ w. w.now) words.items ≡ words_of line.now) }
{
    let pieces = pieces_in(alloc, line)?;
    let mut words = Vec::new(alloc);
    for piece in &pieces {
        if piece.is_empty() {
            continue;
        }
        words.push(*piece)?;
    }
    Ok(words)
}

/// Whether each byte is printable ASCII or a tab.
pub fn is_text_line(line: &[u8]) -> bool
    ensures { result ≡ list_all is_text line.now }
{
    line.iter().all(|byte| is_text(*byte))
}

/// Whether a line with this word as its first is a comment.
pub fn is_comment(word: &[u8]) -> bool
    ensures { result ≡ is_comment word.now }
{
    match word {
        [first, ..] => *first == b'#',
        [] => false,
    }
}
