// The call that drains a removed entry of bytes.
ghost use Rattle.std.specs.Prelude.{◌≡◌, ◌≢◌, option_map};
ghost use Rattle.mini_moka_c.specs.Calls.{OnBytes, OnOpen};
ghost use Rattle.mini_moka_c.specs.Drain.{IsDrained, TellsDrained};

use crate::constants::{ABSENT, DONE, TOO_SHORT};
use crate::handle::Handle;
use crate::removed::{Drained, number_of};

/// Drains the entry that left first. Copies its key and its value to the beginnings of the buffers, and writes the cause. If one doesn't fit, it returns
/// `TOO_SHORT`, and the entry stays in front. Their lengths are written in both cases. Returns `ABSENT` if there is none.
#[unsafe(no_mangle)]
pub extern "C" fn mini_moka_removed(
    handle: &mut Handle,
    keys: &mut [u8],
    values: &mut [u8],
    key_length: &mut usize,
    value_length: &mut usize,
    cause: &mut u32,
) -> u32
    ensures step { OnOpen handle.old.value result handle.new.value
        (OnBytes result (IsDrained keys.old values.old keys.new values.new result key_length.new value_length.new cause.new)) }
    ensures keys { result ≢ DONE → keys.new ≡ keys.old }
    ensures values { result ≢ DONE → values.new ≡ values.old }
    ensures key { result ≢ DONE → result ≢ TOO_SHORT → key_length.new ≡ key_length.old }
    ensures value { result ≢ DONE → result ≢ TOO_SHORT → value_length.new ≡ value_length.old }
    ensures cause { result ≢ DONE → cause.new ≡ cause.old }
{
    match handle.bytes() {
        Ok(bytes) => {
            let drained = bytes.drain(keys, values);
            tell_drained(
                drained,
                keys.len(),
                values.len(),
                key_length,
                value_length,
                cause,
            )
        }
        Err(status) => status,
    }
}

/// Writes the lengths of a removed entry. If it fits in buffers of `keys` and `values` bytes, writes the cause and answers `DONE`, else `TOO_SHORT`.
fn tell_drained(
    drained: Option<Drained>,
    keys: usize,
    values: usize,
    key_length: &mut usize,
    value_length: &mut usize,
    cause: &mut u32,
) -> u32
    ensures drained { TellsDrained drained keys values result key_length.new value_length.new cause.new }
    ensures key { result ≢ DONE → result ≢ TOO_SHORT → key_length.new ≡ key_length.old }
    ensures value { result ≢ DONE → result ≢ TOO_SHORT → value_length.new ≡ value_length.old }
    ensures cause { result ≢ DONE → cause.new ≡ cause.old }
{
    let Some(drained) = drained else {
        return ABSENT;
    };
    *key_length = drained.key;
    *value_length = drained.value;
    if drained.key > keys || drained.value > values {
        return TOO_SHORT;
    }
    *cause = number_of(drained.cause);
    DONE
}
