// The usage text, which follows wrong words.

use clap::{Arg, Command};
use std::alloc::{AllocError, Global};

/// The forms, one a line.
const FORMS: &str =
    "svm_run run IMAGE SCRIPT\n       svm_run trace IMAGE SCRIPT\n       svm_run audit IMAGE SCRIPT\n       svm_run made SEED SIZE";

/// A form: its word, what it does, and the names of what stands behind the word.
fn form<'a>(
    alloc: Global,
    word: &'a str,
    about: &'a str,
    first: &'a str,
    second: &'a str,
) -> Result<Command<'a>, AllocError> {
    let first = Arg::new(alloc, first).required(true);
    let second = Arg::new(alloc, second).required(true);
    Command::new(alloc, word)
        .about(about)
        .arg(first)?
        .arg(second)
}

/// The four forms, and what each does.
pub fn usage(alloc: Global) -> Result<String, AllocError> {
    let run = form(
        alloc,
        "run",
        "Runs the script and prints the report",
        "IMAGE",
        "SCRIPT",
    )?;
    let trace = form(
        alloc,
        "trace",
        "The same, with a block of lines for each event",
        "IMAGE",
        "SCRIPT",
    )?;
    let audit = form(
        alloc,
        "audit",
        "Runs the script and prints the verdict: keeps, or the first breach",
        "IMAGE",
        "SCRIPT",
    )?;
    let made = form(
        alloc,
        "made",
        "Makes input from a seed, 0 to 65535, and a size, 1 to 100000, runs and audits it",
        "SEED",
        "SIZE",
    )?;
    let mut command = Command::new(alloc, "svm_run")
        .about("Runs AMD64 guests under a schedule, and prints what became of them.")
        .override_usage(FORMS)
        .disable_help_flag(true)
        .disable_help_subcommand(true)
        .subcommand(run)?
        .subcommand(trace)?
        .subcommand(audit)?
        .subcommand(made)?;
    command.render_help()
}
