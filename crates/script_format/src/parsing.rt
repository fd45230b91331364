// Reads a whole script.

ghost use Rattle.std.specs.Prelude.{◌≡◌, ◌+◌, ◌≤◌, length, map, IfOk};
ghost use Rattle.svm_model.specs.Formats.LawfulImages.{IsLawfulImage};
ghost use Rattle.svm_model.specs.Formats.Script.{IsLawful, at_line, events_of, script_from, script_of};
ghost use Rattle.svm_model.specs.Formats.ScriptLines.{line_length, said_by, said_in, said_of};
ghost use Rattle.svm_model.specs.Machine.Shapes.{image_shape};
ghost use Rattle.script_format.specs.Reading.{Gives, GivesScript};

use crate::commands::{command, line_length, within_limit};
use crate::lines::lines_of;
use crate::refusal::ScriptRefusal;
use crate::script::Script;
use crate::words::{is_comment, is_text_line, words_in};
use image_format::Image;
use std::alloc::Global;
use svm_model::{ScriptLine, ScriptReason};

// The most bytes that a script has.
const SCRIPT_LIMIT: usize = 1_048_576;

// The bytes of the line are looked at before what its words say, and the number of events last.
fn said_by(
    image: &Image,
    first: u32,
    line: &[u8],
    word: &[u8],
    words: &[&[u8]],
) -> Result<Option<ScriptLine>, ScriptReason>
    requires lawful { IsLawfulImage image.now }
    ensures { result ≡ said_by (image_shape image.now) first line.now word.now (map (λ w. w.now) words.now) }
{
    if !is_text_line(line) {
        return Err(ScriptReason::Bytes);
    }
    let spoken = command(image, first, word, words)?;
    let kept = within_limit(image.cpus, spoken)?;
    Ok(Some(kept))
}

// What a line with these words says: nothing where it has none, or is a comment.
fn said_in(
    image: &Image,
    first: u32,
    line: &[u8],
    words: &[&[u8]],
) -> Result<Option<ScriptLine>, ScriptReason>
    requires lawful { IsLawfulImage image.now }
    ensures { result ≡ said_in (image_shape image.now) first line.now (map (λ w. w.now) words.now) }
{
    let [word, rest @ ..] = words else {
        return Ok(None);
    };
    if is_comment(word) {
        return Ok(None);
    }
    said_by(image, first, line, word, rest)
}

// What the line of a number says, where so many events come before it.
#[tactic(auto, unfolding(svm_model::specs::Formats::ScriptLines::said_of))]
fn said_at(
    alloc: Global,
    image: &Image,
    number: u32,
    first: u32,
    line: &[u8],
) -> Result<Option<ScriptLine>, ScriptRefusal>
    requires lawful { IsLawfulImage image.now }
    ensures { Gives result (at_line number (said_of (image_shape image.now) first line.now)) }
{
    let words = words_in(alloc, line)?;
    match said_in(image, first, line, &words) {
        Ok(said) => Ok(said),
        Err(reason) => Err(ScriptRefusal::Bad {
            line: number,
            reason,
        }),
    }
}

// How many events there are behind a line, where so many come before it.
fn events_behind(image: &Image, first: u32, said: &ScriptLine) -> u32
    requires few { first + line_length image.now.cpus said.now ≤ 1048576 }
    ensures { result ≡ first + line_length image.now.cpus said.now }
{
    first + line_length(image.cpus, said) as u32
}

// The lines, from line 1 on.
fn script_from(alloc: Global, image: &Image, lines: &[&[u8]]) -> Result<Script, ScriptRefusal>
    requires lawful { IsLawfulImage image.now }
    requires few { length lines.now ≤ 1048577 }
    ensures { GivesScript result (script_from (image_shape image.now) 1 0 (map (λ l. l.now) lines.now)) }
{
    let mut found = Vec::new(alloc);
    let mut events = 0;
    let mut number = 0;
    for line in lines {
        number += 1;
        let Some(said) = said_at(alloc, image, number, events, line)? else {
            continue;
        };
        events = events_behind(image, events, &said);
        found.push(said)?;
    }
    Ok(Script {
        lines: found,
        events,
    })
}

// The number of the bytes is looked at before any of them.
#[tactic(auto, unfolding(svm_model::specs::Formats::Script::script_of))]
fn script_of(alloc: Global, bytes: &[u8], image: &Image) -> Result<Script, ScriptRefusal>
    requires lawful { IsLawfulImage image.now }
    ensures { GivesScript result (script_of bytes.now image.now) }
{
    if bytes.len() > SCRIPT_LIMIT {
        return Err(ScriptRefusal::Bad {
            line: 0,
            reason: ScriptReason::TooLong,
        });
    }
    let lines = lines_of(alloc, bytes)?;
    script_from(alloc, image, &lines)
}

/// The script that the bytes are for an image. Otherwise `Bad` with the first line that is refused, counted from 1, and
/// why; bytes that are too many are refused at line 0, whatever they are. `NoMemory` says that there is no memory for
/// what they say, and may come for any bytes.
pub fn parse_script(alloc: Global, bytes: &[u8], image: &Image) -> Result<Script, ScriptRefusal>
    requires lawful { IsLawfulImage image.now }
    ensures exact { GivesScript result (script_of bytes.now image.now) }
    // What holds of each script, for callers that do not look at its bytes.
    ensures lawful { IfOk result (IsLawful (image_shape image.now)) }
    // Its events, on the image's processors, are as many as it says.
    ensures count { IfOk result (λ script. length (events_of image.now.cpus script) ≡ script.events) }
{
    script_of(alloc, bytes, image)
}
