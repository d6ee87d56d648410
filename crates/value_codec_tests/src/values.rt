// Values and their spellings.
ghost use Rattle.std.specs.Prelude.{◌≡◌, ◌⊎◌, Ok, Err};
ghost use Rattle.value_codec.specs.declared.codec.Error.TheVariants.{Mem};

use crate::keys::key_size;
use crate::said::{Said, Stop, compared};
use crate::words::{bytes, number};
use scenario_text::Step;
use std::alloc::Global;
use value_codec::codec::Error;
use value_codec::{ByteValue, Codec, CodecFixed, Key8, Key32};

/// Writes a value, and reads it again.
pub fn written(alloc: Global, step: &Step) -> Result<Said, Stop> {
    match step.word() {
        "u64" => spelled(alloc, &number(step, 0)?, ()),
        "i32" => spelled(alloc, &signed(step)?, ()),
        _ => spelled(alloc, &byte_value(alloc, step, 1)?, most(step)?),
    }
}

/// Reads the value that bytes spell.
pub fn read(alloc: Global, step: &Step) -> Result<Said, Stop> {
    match step.word() {
        "read-u64" => Ok(Said::Number(read_fixed(alloc, step)?)),
        "read-i32" => Ok(Said::Signed(read_fixed(alloc, step)?)),
        _ => {
            let value = ByteValue::decode_cfg(alloc, &bytes(alloc, step, 1)?, most(step)?)?;
            Ok(Said::Bytes(value.as_bytes().to_vec(alloc)?))
        }
    }
}

/// The bytes of a value, or whether it equals its clone or another one.
pub fn value(alloc: Global, step: &Step) -> Result<Said, Stop> {
    let value = byte_value(alloc, step, 0)?;
    match step.word() {
        "value" => Ok(Said::Bytes(value.as_bytes().to_vec(alloc)?)),
        "clone" => Ok(compared(&value, &value.clone()?)),
        _ => Ok(compared(&value, &byte_value(alloc, step, 1)?)),
    }
}

/// How many bytes each value of a type takes.
pub fn size(step: &Step) -> Result<Said, Stop> {
    match step.argument(0) {
        "u64" => Ok(fixed_size::<u64>()),
        "i32" => Ok(fixed_size::<i32>()),
        "key8" => Ok(key_size::<Key8>()),
        "key32" => Ok(key_size::<Key32>()),
        _ => Err(Stop::Refused("no such type of fixed size")),
    }
}

// By the bounds alone from here on, as any caller has them.

/// Writes a value behind the byte `ff`, and reads it again.
fn spelled<V: Codec + Eq>(alloc: Global, value: &V, cfg: V::Cfg) -> Result<Said, Stop> {
    if !value.accepts(cfg) {
        return Ok(Said::Word("not accepted"));
    }
    if written_and_read(alloc, value, cfg)? != *value {
        return Ok(Said::Word("read as another value"));
    }
    let mut out = b"\xff".to_vec(alloc)?;
    value.write(&mut out)?;
    Ok(Said::Spelled(out, value.encode_size()))
}

/// What is written is read again.
fn written_and_read<V: Codec>(alloc: Global, value: &V, cfg: V::Cfg) -> Result<V, Error>
    requires { V.accepted value.now cfg }
    ensures { (result ≡ Ok value.now) ⊎ (result ≡ Err Mem) }
{
    let mut out = Vec::new(alloc);
    value.write(&mut out)?;
    V::decode_cfg(alloc, out.as_slice(), cfg)
}

fn read_fixed<A: CodecFixed>(alloc: Global, step: &Step) -> Result<A, Stop> {
    Ok(A::decode_cfg(alloc, &bytes(alloc, step, 0)?, ())?)
}

fn fixed_size<A: CodecFixed>() -> Said {
    Said::Number(A::SIZE as u64)
}

// The words of a step.

fn byte_value(alloc: Global, step: &Step, at: usize) -> Result<ByteValue, Stop> {
    Ok(ByteValue::new(alloc, &bytes(alloc, step, at)?)?)
}

/// The greatest length that the configuration allows.
fn most(step: &Step) -> Result<u32, Stop> {
    match u32::try_from(number(step, 0)?) {
        Ok(most) => Ok(most),
        Err(_) => Err(Stop::Refused("the length has more than 32 bits")),
    }
}

fn signed(step: &Step) -> Result<i32, Stop> {
    let number = step.argument(0).parse::<i32>().ok();
    number.ok_or(Stop::Refused("this is no signed number of 32 bits"))
}
