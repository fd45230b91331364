// The lines of a script.

ghost use Rattle.std.specs.Prelude.{◌≡◌, ◌==◌, map, IfOk};
ghost use Rattle.std.specs.List.{slice_split};
ghost use Rattle.svm_model.specs.Formats.ScriptWords.{lines_in, lines_of, without_return};

use std::alloc::{AllocError, Global};

fn without_return(line: &[u8]) -> &[u8]
    ensures { result.now ≡ without_return line.now }
{
    let Some((last, front)) = line.split_last() else {
        return line;
    };
    if *last == b'\r' {
        return front;
    }
    line
}

// What stands between line feeds.
fn pieces_in(alloc: Global, bytes: &[u8]) -> Result<Vec<&[u8]>, AllocError>
    ensures { IfOk result (λ pieces. map (λ p. p.now) pieces.items ≡ slice_split (λ b. b == 10) bytes.now) }
{
    bytes.split(|byte| *byte == b'\n').collect(alloc)
}

// Of the pieces between line feeds each but the last had a line feed behind it, and may end in a carriage return.
fn lines_in<'a>(alloc: Global, pieces: &[&'a [u8]]) -> Result<Vec<&'a [u8]>, AllocError>
    ensures { IfOk result (λ lines. map (λ l. l.now) lines.items ≡ lines_in (map (λ p. p.now) pieces.now)) }
{
    let mut lines = Vec::new(alloc);
    let Some((last, ended)) = pieces.split_last() else {
        return Ok(lines);
    };
    for piece in ended {
        lines.push(without_return(piece))?;
    }
    lines.push(*last)?;
    Ok(lines)
}

/// The lines that the bytes are, without what ends them. There is one more than there are line feeds.
pub fn lines_of(alloc: Global, bytes: &[u8]) -> Result<Vec<&[u8]>, AllocError>
    ensures { IfOk result (λ lines. map (λ l. l.now) lines.items ≡ lines_of bytes.now) }
{
    let pieces = pieces_in(alloc, bytes)?;
    lines_in(alloc, &pieces)
}
