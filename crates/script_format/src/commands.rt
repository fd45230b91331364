// What a line says that is no comment.

ghost use Rattle.std.specs.Prelude.{◌≡◌, [], ◌∷◌, map};
ghost use Rattle.svm_model.specs.Formats.LawfulImages.{IsLawfulImage};
ghost use Rattle.svm_model.specs.Formats.ScriptLines.{command, dump_line, dump_values, each_line, each_values, feed_line, feed_values, irq_line, irq_values, line_length, line_of, nmi_line, nmi_values, place_line, place_values, round_length, run_line, run_values, unplug_line, within_limit};
ghost use Rattle.svm_model.specs.Machine.Shapes.{image_shape};

use crate::numbers::number_in;
use crate::values::{
    EVENT_LIMIT, count_in, cpu_in, device_in, length_in, size_in, vcpu_in, vector_in,
};
use image_format::Image;
use svm_model::{CpuId, Event, GuestId, ScriptLine, ScriptReason};

// So many times the same event, from a number on.
fn line_of(event: Event, first: u32, times: u32) -> ScriptLine
    ensures { result ≡ line_of event first times }
{
    ScriptLine {
        event,
        first,
        times,
        each: false,
    }
}

// The processor is looked at before the vcpu.
fn place_values(
    image: &Image,
    first: u32,
    cpu: u64,
    guest: u64,
    vcpu: u64,
) -> Result<ScriptLine, ScriptReason>
    requires lawful { IsLawfulImage image.now }
    ensures { result ≡ place_values (image_shape image.now) first cpu guest vcpu }
{
    let cpu = cpu_in(image, cpu)?;
    let vcpu = vcpu_in(image, guest, vcpu)?;
    Ok(line_of(Event::Place { cpu, vcpu }, first, 1))
}

// All are numbers before the value of any is looked at.
#[tactic(auto, unfolding(svm_model::specs::Formats::ScriptLines::place_line))]
fn place_words(
    image: &Image,
    first: u32,
    cpu: &[u8],
    guest: &[u8],
    vcpu: &[u8],
) -> Result<ScriptLine, ScriptReason>
    requires lawful { IsLawfulImage image.now }
    ensures { result ≡ place_line (image_shape image.now) first (cpu.now ∷ guest.now ∷ vcpu.now ∷ []) }
{
    let cpu = number_in(cpu)?;
    let guest = number_in(guest)?;
    let vcpu = number_in(vcpu)?;
    place_values(image, first, cpu, guest, vcpu)
}

// The words behind `place`: a processor, a guest and a vcpu of it.
#[tactic(auto, unfolding(svm_model::specs::Formats::ScriptLines::place_line))]
fn place_line(image: &Image, first: u32, words: &[&[u8]]) -> Result<ScriptLine, ScriptReason>
    requires lawful { IsLawfulImage image.now }
    ensures { result ≡ place_line (image_shape image.now) first (map (λ w. w.now) words.now) }
{
    let [cpu, guest, vcpu] = words else {
        return Err(ScriptReason::Words);
    };
    place_words(image, first, cpu, guest, vcpu)
}

// The processor is looked at before the count.
fn run_values(image: &Image, first: u32, cpu: u64, count: u64) -> Result<ScriptLine, ScriptReason>
    ensures { result ≡ run_values (image_shape image.now) first cpu count }
{
    let cpu = cpu_in(image, cpu)?;
    let times = count_in(count)?;
    Ok(line_of(Event::Run { cpu }, first, times))
}

// Both are numbers before the value of any is looked at.
#[tactic(auto, unfolding(svm_model::specs::Formats::ScriptLines::run_line))]
fn run_words(
    image: &Image,
    first: u32,
    cpu: &[u8],
    count: &[u8],
) -> Result<ScriptLine, ScriptReason>
    ensures { result ≡ run_line (image_shape image.now) first (cpu.now ∷ count.now ∷ []) }
{
    let cpu = number_in(cpu)?;
    let count = number_in(count)?;
    run_values(image, first, cpu, count)
}

// The words behind `run`: a processor, and how often.
#[tactic(auto, unfolding(svm_model::specs::Formats::ScriptLines::run_line))]
fn run_line(image: &Image, first: u32, words: &[&[u8]]) -> Result<ScriptLine, ScriptReason>
    ensures { result ≡ run_line (image_shape image.now) first (map (λ w. w.now) words.now) }
{
    let [cpu, count] = words else {
        return Err(ScriptReason::Words);
    };
    run_words(image, first, cpu, count)
}

// So many rounds of one run on each processor, in their order. The event is the first of them.
fn each_values(first: u32, count: u64) -> Result<ScriptLine, ScriptReason>
    ensures { result ≡ each_values first count }
{
    let times = count_in(count)?;
    Ok(ScriptLine {
        event: Event::Run { cpu: CpuId(0) },
        first,
        times,
        each: true,
    })
}

#[tactic(auto, unfolding(svm_model::specs::Formats::ScriptLines::each_line))]
fn each_word(first: u32, count: &[u8]) -> Result<ScriptLine, ScriptReason>
    ensures { result ≡ each_line first (count.now ∷ []) }
{
    let count = number_in(count)?;
    each_values(first, count)
}

// The word behind `each`: how many rounds.
#[tactic(auto, unfolding(svm_model::specs::Formats::ScriptLines::each_line))]
fn each_line(first: u32, words: &[&[u8]]) -> Result<ScriptLine, ScriptReason>
    ensures { result ≡ each_line first (map (λ w. w.now) words.now) }
{
    let [count] = words else {
        return Err(ScriptReason::Words);
    };
    each_word(first, count)
}

// The device is looked at before the value, which has at most 32 bits.
fn feed_values(first: u32, device: u64, value: u64) -> Result<ScriptLine, ScriptReason>
    ensures { result ≡ feed_values first device value }
{
    let device = device_in(device)?;
    if value > u32::MAX as u64 {
        return Err(ScriptReason::Value);
    }
    let value = value as u32;
    Ok(line_of(Event::Feed { device, value }, first, 1))
}

// Both are numbers before the value of any is looked at.
#[tactic(auto, unfolding(svm_model::specs::Formats::ScriptLines::feed_line))]
fn feed_words(first: u32, device: &[u8], value: &[u8]) -> Result<ScriptLine, ScriptReason>
    ensures { result ≡ feed_line first (device.now ∷ value.now ∷ []) }
{
    let device = number_in(device)?;
    let value = number_in(value)?;
    feed_values(first, device, value)
}

// The words behind `feed`: a device, and the value that it is fed.
#[tactic(auto, unfolding(svm_model::specs::Formats::ScriptLines::feed_line))]
fn feed_line(first: u32, words: &[&[u8]]) -> Result<ScriptLine, ScriptReason>
    ensures { result ≡ feed_line first (map (λ w. w.now) words.now) }
{
    let [device, value] = words else {
        return Err(ScriptReason::Words);
    };
    feed_words(first, device, value)
}

// The vcpu is looked at before the vector.
fn irq_values(
    image: &Image,
    first: u32,
    guest: u64,
    vcpu: u64,
    vector: u64,
) -> Result<ScriptLine, ScriptReason>
    requires lawful { IsLawfulImage image.now }
    ensures { result ≡ irq_values (image_shape image.now) first guest vcpu vector }
{
    let vcpu = vcpu_in(image, guest, vcpu)?;
    let vector = vector_in(vector)?;
    Ok(line_of(Event::Irq { vcpu, vector }, first, 1))
}

// All are numbers before the value of any is looked at.
#[tactic(auto, unfolding(svm_model::specs::Formats::ScriptLines::irq_line))]
fn irq_words(
    image: &Image,
    first: u32,
    guest: &[u8],
    vcpu: &[u8],
    vector: &[u8],
) -> Result<ScriptLine, ScriptReason>
    requires lawful { IsLawfulImage image.now }
    ensures { result ≡ irq_line (image_shape image.now) first (guest.now ∷ vcpu.now ∷ vector.now ∷ []) }
{
    let guest = number_in(guest)?;
    let vcpu = number_in(vcpu)?;
    let vector = number_in(vector)?;
    irq_values(image, first, guest, vcpu, vector)
}

// The words behind `irq`: a guest, a vcpu of it, and the vector that the vcpu's APIC accepts.
#[tactic(auto, unfolding(svm_model::specs::Formats::ScriptLines::irq_line))]
fn irq_line(image: &Image, first: u32, words: &[&[u8]]) -> Result<ScriptLine, ScriptReason>
    requires lawful { IsLawfulImage image.now }
    ensures { result ≡ irq_line (image_shape image.now) first (map (λ w. w.now) words.now) }
{
    let [guest, vcpu, vector] = words else {
        return Err(ScriptReason::Words);
    };
    irq_words(image, first, guest, vcpu, vector)
}

fn nmi_values(image: &Image, first: u32, guest: u64, vcpu: u64) -> Result<ScriptLine, ScriptReason>
    requires lawful { IsLawfulImage image.now }
    ensures { result ≡ nmi_values (image_shape image.now) first guest vcpu }
{
    let vcpu = vcpu_in(image, guest, vcpu)?;
    Ok(line_of(Event::Nmi { vcpu }, first, 1))
}

// Both are numbers before the value of any is looked at.
#[tactic(auto, unfolding(svm_model::specs::Formats::ScriptLines::nmi_line))]
fn nmi_words(
    image: &Image,
    first: u32,
    guest: &[u8],
    vcpu: &[u8],
) -> Result<ScriptLine, ScriptReason>
    requires lawful { IsLawfulImage image.now }
    ensures { result ≡ nmi_line (image_shape image.now) first (guest.now ∷ vcpu.now ∷ []) }
{
    let guest = number_in(guest)?;
    let vcpu = number_in(vcpu)?;
    nmi_values(image, first, guest, vcpu)
}

// The words behind `nmi`: a guest and a vcpu of it.
#[tactic(auto, unfolding(svm_model::specs::Formats::ScriptLines::nmi_line))]
fn nmi_line(image: &Image, first: u32, words: &[&[u8]]) -> Result<ScriptLine, ScriptReason>
    requires lawful { IsLawfulImage image.now }
    ensures { result ≡ nmi_line (image_shape image.now) first (map (λ w. w.now) words.now) }
{
    let [guest, vcpu] = words else {
        return Err(ScriptReason::Words);
    };
    nmi_words(image, first, guest, vcpu)
}

#[tactic(auto, unfolding(svm_model::specs::Formats::ScriptLines::unplug_line))]
fn unplug_word(first: u32, device: &[u8]) -> Result<ScriptLine, ScriptReason>
    ensures { result ≡ unplug_line first (device.now ∷ []) }
{
    let device = number_in(device)?;
    let device = device_in(device)?;
    Ok(line_of(Event::Unplug { device }, first, 1))
}

// The words behind `unplug`: a device.
#[tactic(auto, unfolding(svm_model::specs::Formats::ScriptLines::unplug_line))]
fn unplug_line(first: u32, words: &[&[u8]]) -> Result<ScriptLine, ScriptReason>
    ensures { result ≡ unplug_line first (map (λ w. w.now) words.now) }
{
    let [device] = words else {
        return Err(ScriptReason::Words);
    };
    unplug_word(first, device)
}

// The address is looked at behind the length.
fn dump_values(
    image: &Image,
    first: u32,
    guest: u64,
    address: u64,
    length: u64,
) -> Result<ScriptLine, ScriptReason>
    requires lawful { IsLawfulImage image.now }
    ensures { result ≡ dump_values (image_shape image.now) first guest address length }
{
    let size = size_in(image, guest)?;
    let length = length_in(length)?;
    if address > size || length as u64 > size - address {
        return Err(ScriptReason::Address);
    }
    let guest = GuestId(guest as u8);
    let event = Event::Dump {
        guest,
        address,
        length,
    };
    Ok(line_of(event, first, 1))
}

// All are numbers before the value of any is looked at.
#[tactic(auto, unfolding(svm_model::specs::Formats::ScriptLines::dump_line))]
fn dump_words(
    image: &Image,
    first: u32,
    guest: &[u8],
    address: &[u8],
    length: &[u8],
) -> Result<ScriptLine, ScriptReason>
    requires lawful { IsLawfulImage image.now }
    ensures { result ≡ dump_line (image_shape image.now) first (guest.now ∷ address.now ∷ length.now ∷ []) }
{
    let guest = number_in(guest)?;
    let address = number_in(address)?;
    let length = number_in(length)?;
    dump_values(image, first, guest, address, length)
}

// The words behind `dump`: a guest, an address in its memory, and how many bytes from there on.
#[tactic(auto, unfolding(svm_model::specs::Formats::ScriptLines::dump_line))]
fn dump_line(image: &Image, first: u32, words: &[&[u8]]) -> Result<ScriptLine, ScriptReason>
    requires lawful { IsLawfulImage image.now }
    ensures { result ≡ dump_line (image_shape image.now) first (map (λ w. w.now) words.now) }
{
    let [guest, address, length] = words else {
        return Err(ScriptReason::Words);
    };
    dump_words(image, first, guest, address, length)
}

/// What the words behind a first word say, where so many events come before the line.
pub fn command(
    image: &Image,
    first: u32,
    word: &[u8],
    words: &[&[u8]],
) -> Result<ScriptLine, ScriptReason>
    requires lawful { IsLawfulImage image.now }
    ensures { result ≡ command (image_shape image.now) first word.now (map (λ w. w.now) words.now) }
{
    if word == b"place".as_slice() {
        place_line(image, first, words)
    } else if word == b"run".as_slice() {
        run_line(image, first, words)
    } else if word == b"each".as_slice() {
        each_line(first, words)
    } else if word == b"feed".as_slice() {
        feed_line(first, words)
    } else if word == b"irq".as_slice() {
        irq_line(image, first, words)
    } else if word == b"nmi".as_slice() {
        nmi_line(image, first, words)
    } else if word == b"unplug".as_slice() {
        unplug_line(first, words)
    } else if word == b"dump".as_slice() {
        dump_line(image, first, words)
    } else {
        Err(ScriptReason::Word)
    }
}

// How many events one round of a line has on so many processors: one, or one for each of them.
fn round_length(cpus: u8, line: &ScriptLine) -> u8
    ensures { result ≡ round_length cpus line.now }
{
    if line.each { cpus } else { 1 }
}

/// How many events a line has on so many processors.
pub fn line_length(cpus: u8, line: &ScriptLine) -> u64
    ensures { result ≡ line_length cpus line.now }
{
    line.times as u64 * round_length(cpus, line) as u64
}

/// The line, where it does not go past the most events.
pub fn within_limit(cpus: u8, line: ScriptLine) -> Result<ScriptLine, ScriptReason>
    ensures { result ≡ within_limit cpus line }
{
    let end = line.first as u64 + line_length(cpus, &line);
    if end > EVENT_LIMIT as u64 {
        return Err(ScriptReason::Events);
    }
    Ok(line)
}
