// A step of a walk through a cache of bytes. A handle has one walk at a time.
ghost use Rattle.std.specs.Prelude.{◌≡◌, ◌≢◌};
ghost use Rattle.mini_moka_c.specs.ByteCalls.{TellsStep, TellsWalk};
ghost use Rattle.mini_moka_c.specs.Calls.{OnBytes, OnOpen};

use crate::constants::{ABSENT, CHANGED, DONE, OUT_OF_MEMORY, TOO_SHORT};
use crate::handle::Handle;
use crate::steps::Step;
use moka_common::time::Instant;

/// Copies the key and the value of the walk's next entry to the beginnings of the buffers. If one doesn't fit, it returns `TOO_SHORT`, and the walk stays
/// where it is. Their lengths are written in both cases. Returns `ABSENT` after the last entry, and `CHANGED` if there is no walk any more.
#[unsafe(no_mangle)]
pub extern "C" fn mini_moka_next(
    handle: &mut Handle,
    now: u64,
    keys: &mut [u8],
    values: &mut [u8],
    key_length: &mut usize,
    value_length: &mut usize,
) -> u32
    ensures step { OnOpen handle.old.value result handle.new.value
        (OnBytes result (TellsWalk now keys.old values.old result keys.new values.new key_length.new value_length.new)) }
    ensures keys { result ≢ DONE → keys.new ≡ keys.old }
    ensures values { result ≢ DONE → values.new ≡ values.old }
    ensures key { result ≢ DONE → result ≢ TOO_SHORT → key_length.new ≡ key_length.old }
    ensures value { result ≢ DONE → result ≢ TOO_SHORT → value_length.new ≡ value_length.old }
{
    match handle.bytes() {
        Ok(bytes) => match bytes.step(Instant::from_nanos(now), keys, values) {
            Ok(step) => tell_step(step, keys.len(), values.len(), key_length, value_length),
            Err(_) => OUT_OF_MEMORY,
        },
        Err(status) => status,
    }
}

/// Writes the lengths of a step's key and value. Answers `DONE` if they fit in buffers of `keys` and `values` bytes, else `TOO_SHORT`.
fn tell_step(
    step: Step,
    keys: usize,
    values: usize,
    key_length: &mut usize,
    value_length: &mut usize,
) -> u32
    ensures step { TellsStep step keys values result key_length.new value_length.new }
    ensures key { result ≢ DONE → result ≢ TOO_SHORT → key_length.new ≡ key_length.old }
    ensures value { result ≢ DONE → result ≢ TOO_SHORT → value_length.new ≡ value_length.old }
{
    match step {
        Step::Ended => CHANGED,
        Step::Done => ABSENT,
        Step::Pair { key, value } => {
            *key_length = key;
            *value_length = value;
            if key <= keys && value <= values {
                DONE
            } else {
                TOO_SHORT
            }
        }
    }
}
