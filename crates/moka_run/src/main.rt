//! Runs the script on standard input, and writes the replies to standard output.
//!
//! The status is 0 if the replies were written, 2 if the input is no script, and 1 if a stream or memory failed.
#![tactic(auto)]

ghost use Rattle.std.specs.Prelude.{◌≡◌, false};

use mini_moka::script::{
    End, FromRead, FromWrite, ScriptError, Sink, read_all, reason, run, run_locked, status_of,
};
use std::io::{self, Eprint};
use std::process::ExitCode;
use std::sync::Wait;

fn main(rt: HostRuntime) -> ExitCode {
    let mut input = FromRead::new(rt.reader());
    let mut sink = FromWrite::new(io::writer(&rt));
    let ended = match read_all(rt.alloc(), &mut input) {
        Ok(script) => play(&rt, &script, &mut sink),
        Err(error) => Err(ScriptError::from(error)),
    };
    if let Err(error) = ended {
        // Nobody is left to hear of a fault in telling of the fault.
        let _ = eprintln!(rt; "{}", error.text());
    }
    ExitCode::from(status_of(ended))
}

/// Makes the calls of a script and writes the replies. Tells on standard error what is wrong with the first bad line.
fn play<R: Wait + Eprint + AllocGlobal, O: Sink>(
    rt: &R,
    script: &[u8],
    sink: &mut O,
) -> Result<End, ScriptError>
    requires { O.failed sink.old ≡ false }
{
    match run(rt.alloc(), &mut FromRead::new(script), sink) {
        Ok(End::Locked(script)) => run_locked(rt.alloc(), rt, script, sink),
        Ok(End::BadLine(number)) => {
            let _ = eprintln!(rt; "line {number}: {}", reason(script, number).text());
            Ok(End::BadLine(number))
        }
        ended => ended,
    }
}
