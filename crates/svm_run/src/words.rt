// Reads the program's words.
ghost use Rattle.std.specs.Prelude.{◌≡◌, map, IfSome};
ghost use Rattle.std.specs.Fmt.{decimal};
ghost use Rattle.std.specs.Option.{option_map};
ghost use Rattle.std.specs.Str.{bytes_eq};
ghost use Rattle.svm_run.specs.Words.{asked_of, files_by, is_name, IsInRange, made_by, number_of, seed_of, size_of, told, work_of as work_named};

use itoa::Buffer;

/// The largest seed of generated input.
const MOST_SEED: u32 = 65_535;

/// Its largest size.
const MOST_SIZE: u32 = 100_000;

/// What is asked for of an image and a script: the report of the run, with the line of each dump before it; a trace, in
/// which each event has a block; the verdict on the run; or, where the two were made from a seed and a size, the summary of a
/// run and its audit.
#[derive(Clone, Copy)]
pub enum Work {
    Run,
    Trace,
    Audit,
    Made(Numbers),
}

/// What generated input is made from: the seed, and the size, 1 to 100,000.
#[derive(Clone, Copy)]
pub struct Numbers {
    pub seed: u16,
    pub size: u32,
}

/// What the words ask for: a work on the image and the script of these names, or generated input.
#[derive(Clone, Copy)]
pub enum Asked<'a> {
    Files {
        work: Work,
        image: &'a str,
        script: &'a str,
    },
    Made(Numbers),
}

/// The work that a word names.
fn work_of(word: &str) -> Option<Work>
    ensures { result ≡ work_named word.now }
{
    match word {
        "run" => Some(Work::Run),
        "trace" => Some(Work::Trace),
        "audit" => Some(Work::Audit),
        _ => None,
    }
}

/// Whether a word can name a file: it is not empty and does not begin with a dash.
fn is_a_name(word: &str) -> bool
    ensures { result ≡ is_name word.now }
{
    match word.as_bytes() {
        [] => false,
        [first, ..] => *first != b'-',
    }
}

/// The image and the script that the words name, with a work.
fn files_in<'a>(word: &str, image: &'a str, script: &'a str) -> Option<Asked<'a>>
    ensures exact { option_map told result ≡ files_by (work_named word.now) image.now script.now }
    ensures few { IfSome result IsInRange }
{
    let work = work_of(word)?;
    if is_a_name(image) && is_a_name(script) {
        Some(Asked::Files {
            work,
            image,
            script,
        })
    } else {
        None
    }
}

/// Whether the word is the decimal text of a number.
fn is_text_of(number: u32, word: &str) -> bool
    ensures { result ≡ bytes_eq word.now (decimal number) }
{
    let mut buffer = Buffer::new();
    word == buffer.format(number)
}

/// The number whose decimal text the word is, where it is at most so much.
fn number_in(word: &str, most: u32) -> Option<u32>
    ensures { result ≡ number_of most word.now }
{
    let Ok(number) = word.parse::<u32>() else {
        return None;
    };
    if !is_text_of(number, word) {
        return None;
    }
    if number > most {
        return None;
    }
    Some(number)
}

/// The seed and the size that the words say.
fn made_in<'a>(seed: &str, size: &str) -> Option<Asked<'a>>
    ensures exact { option_map told result ≡ made_by (seed_of seed.now) (size_of size.now) }
    ensures few { IfSome result IsInRange }
{
    let seed = number_in(seed, MOST_SEED)?;
    let size = number_in(size, MOST_SIZE)?;
    if size == 0 {
        return None;
    }
    Some(Asked::Made(Numbers {
        seed: seed as u16,
        size,
    }))
}

/// What the words ask for, where they are `run IMAGE SCRIPT`, `trace IMAGE SCRIPT`, `audit IMAGE SCRIPT` or `made SEED SIZE`.
pub fn read_words<'a>(words: &[&'a str]) -> Option<Asked<'a>>
    ensures exact { option_map told result ≡ asked_of (map (λ w. w.now) words.now) }
    ensures few { IfSome result IsInRange }
{
    let [word, first, second] = words else {
        return None;
    };
    if *word == "made" {
        made_in(first, second)
    } else {
        files_in(word, first, second)
    }
}
