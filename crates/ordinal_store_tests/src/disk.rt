// What a scenario keeps beside its device, and commands over the device.
ghost use Rattle.std.specs.Prelude.{◌≡◌};
ghost use Rattle.blob_device.specs.MemoryMeaning.{memory_opened, memory_time};

use crate::images::{crash_of, device_over, image_of, set_blob};
use crate::model::Model;
use crate::plainly::{PARTITION, Slots, slots_in, tell_image};
use crate::said::{add_hex, add_number};
use crate::words::{choice_in, name_in, number};
use blob_device::{Device, Image, Memory};
use ordinal_store::ordinal::Config;
use scenario_text::Step;
use std::alloc::{AllocError, Global};
use std::collections::BTreeMap;

/// What is remembered from step to step.
#[derive(Drop)]
pub struct Bench {
    /// Where all takes its memory.
    pub alloc: Global,
    /// How the store is opened. It may be no valid one.
    pub config: Config,
    /// How many calls the device had when they were last asked for.
    pub base: u64,
    /// What the plain program says of the store.
    pub model: Model,
}

impl Bench {
    /// Over an empty device.
    pub fn new(alloc: Global) -> Result<Bench, AllocError> {
        let config = Config {
            partition: String::from_str(alloc, PARTITION)?,
            items_per_blob: 1,
            write_buffer: 1,
            replay_buffer: 1,
        };
        Ok(Bench {
            alloc,
            config,
            base: 0,
            model: Model::over(alloc, BTreeMap::new(alloc)),
        })
    }

    /// Begins anew over what the device has, with nothing open.
    pub fn restart(&mut self, dev: &Memory) -> Result<(), AllocError> {
        let slots = slots_on(self.alloc, dev, self.config.items_per_blob)?;
        self.base = dev.calls();
        self.model = Model::over(self.alloc, slots);
        Ok(())
    }
}

// The slots that the device shows.
fn slots_on(alloc: Global, dev: &Memory, items: u64) -> Result<Slots, AllocError> {
    let image = image_of(alloc, dev)?;
    slots_in(alloc, &image, items)
}

/// Looks at the device.
pub fn look(
    bench: &mut Bench,
    dev: &Memory,
    step: &Step,
    text: &mut String,
) -> Result<(), AllocError> {
    match step.word() {
        "calls" => tell_calls(bench, dev, text),
        "faults" => add_number(text, Some(dev.faults())),
        "kept" => tell_kept(bench, dev, text),
        _ => tell_shown(bench, dev, step, text),
    }
}

// Adds how many calls there were since this was last asked.
fn tell_calls(bench: &mut Bench, dev: &Memory, text: &mut String) -> Result<(), AllocError> {
    let calls = dev.calls().saturating_sub(bench.base);
    bench.base = dev.calls();
    add_number(text, Some(calls))
}

// Adds the sections that there are.
fn tell_kept(bench: &Bench, dev: &Memory, text: &mut String) -> Result<(), AllocError> {
    let image = image_of(bench.alloc, dev)?;
    tell_image(bench.alloc, &image, bench.config.items_per_blob, text)
}

// Adds the bytes of the blob that a step names.
fn tell_shown(
    bench: &Bench,
    dev: &Memory,
    step: &Step,
    text: &mut String,
) -> Result<(), AllocError> {
    let name = name_in(bench.alloc, step.argument(0))?;
    tell_named(bench, dev, name.as_slice(), text)
}

// Adds the bytes of the blob of this name.
fn tell_named(
    bench: &Bench,
    dev: &Memory,
    name: &[u8],
    text: &mut String,
) -> Result<(), AllocError> {
    let image = image_of(bench.alloc, dev)?;
    tell_bytes(text, image.blob(PARTITION, name))
}

// Adds the bytes of a blob.
fn tell_bytes(text: &mut String, blob: Option<&[u8]>) -> Result<(), AllocError> {
    match blob {
        None => text.push_str("none"),
        Some(b"") => text.push('-'),
        Some(bytes) => add_hex(text, bytes),
    }
}

/// Sets when the device fails: its call of this number from now on, alone or with all behind it.
pub fn arm(dev: &mut Memory, step: &Step, text: &mut String) -> Result<(), AllocError>
    ensures opened { memory_opened dev.new ≡ memory_opened dev.old }
    ensures time { memory_time dev.new ≡ memory_time dev.old }
{
    text.push_str("ok")?;
    let nth = dev.calls().saturating_add(number(step, 0));
    fail_from(dev, step.word() == "fail", nth)
}

/// Lets a call of the device fail, alone or with all behind it.
pub fn fail_from(dev: &mut Memory, is_alone: bool, nth: u64) -> Result<(), AllocError>
    ensures opened { memory_opened dev.new ≡ memory_opened dev.old }
    ensures time { memory_time dev.new ≡ memory_time dev.old }
{
    if !is_alone {
        dev.fuse_at(nth);
        return Ok(());
    }
    match dev.fail_at(nth) {
        Ok(()) => Ok(()),
        Err(_) => Err(AllocError),
    }
}

/// Makes another device, or another configuration, and tells whether that is a valid one.
pub fn remake(
    bench: &mut Bench,
    dev: &mut Memory,
    step: &Step,
    text: &mut String,
) -> Result<(), AllocError> {
    renew(bench, dev, step)?;
    bench.restart(dev)?;
    let is_valid = bench.config.is_valid();
    text.push_str(if is_valid { "ok" } else { "not valid" })
}

// Makes another device, or another configuration.
fn renew(bench: &mut Bench, dev: &mut Memory, step: &Step) -> Result<(), AllocError> {
    if step.word() == "store" {
        bench.config = config_in(bench.alloc, step)?;
        return Ok(());
    }
    *dev = device_for(bench.alloc, dev, step)?;
    Ok(())
}

// The configuration that a step tells.
fn config_in(alloc: Global, step: &Step) -> Result<Config, AllocError> {
    let partition = match step.argument(3) {
        "-" => "",
        _ => PARTITION,
    };
    Ok(Config {
        partition: String::from_str(alloc, partition)?,
        items_per_blob: number(step, 0),
        write_buffer: number(step, 1) as usize,
        replay_buffer: number(step, 2) as usize,
    })
}

// Another device.
fn device_for(alloc: Global, dev: &Memory, step: &Step) -> Result<Memory, AllocError> {
    let image = image_for(alloc, dev, step)?;
    device_over(alloc, image)
}

// The image of which another device is made.
fn image_for(alloc: Global, dev: &Memory, step: &Step) -> Result<Image, AllocError> {
    if step.word() == "crash" {
        return crash_of(alloc, dev, choice_in(step));
    }
    let mut image = image_of(alloc, dev)?;
    change_blob(alloc, &mut image, step)?;
    Ok(image)
}

// Gives the blob that a step names other bytes.
fn change_blob(alloc: Global, image: &mut Image, step: &Step) -> Result<(), AllocError> {
    let name = name_in(alloc, step.argument(0))?;
    let bytes = bytes_for(alloc, image.blob(PARTITION, name.as_slice()), step)?;
    set_blob(image, PARTITION, name.as_slice(), bytes.as_slice())
}

// Turns all bits of a byte.
fn turn(bytes: &mut [u8], at: u64) {
    if let Some(byte) = bytes.get_mut(at as usize) {
        *byte ^= 255;
    }
}

// The bytes that a blob gets: those of the step, or its own with one of them changed.
fn bytes_for(alloc: Global, blob: Option<&[u8]>, step: &Step) -> Result<Vec<u8>, AllocError> {
    if step.word() == "blob" {
        let bytes = step.bytes(alloc, 1)?;
        return Ok(bytes.unwrap_or(Vec::new(alloc)));
    }
    let mut bytes = blob.unwrap_or(b"").to_vec(alloc)?;
    turn(bytes.as_mut_slice(), number(step, 1));
    Ok(bytes)
}
