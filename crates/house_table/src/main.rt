// "House table": reads a network's bytes and step bytes from standard input, and writes the counts and every entry. What goes wrong is told
// by a line on standard error as well. The exit status is 0 in any case, as ever: tools/house_table.sh gives one that says how it went.
#![tactic(auto)]

ghost use Rattle.std.specs.Prelude.{◌≤◌, ◌<◌, length, take, IfOk};
ghost use Rattle.std.specs.Io.KnownBytes.{Consumes, IsAtEnd};

use std::env::{Env, FillError};
use std::io::{Read, Write};
use std::{fmt, io};

// "It uses the first 65,000 bytes and reads no further."
const MOST_BYTES: usize = 65000;

// Why no text is written, or not the whole.
#[derive(Clone, Copy, Debug, PartialEq, Eq)]
enum Failure {
    Arguments,
    Reading,
    Writing,
}

impl fmt::Display for Failure {
    fn fmt<W: fmt::Write>(&self, f: &mut fmt::Formatter<W>) -> fmt::Result {
        f.write_str(match self {
            Failure::Arguments =>
                "usage: house_table < INPUT    INPUT is a network's bytes, then step bytes",
            Failure::Reading => "house_table: reading failed",
            Failure::Writing => "house_table: writing failed",
        })
    }
}

// Was the program started with arguments after its name?
fn has_arguments(rt: &HostRuntime) -> bool {
    let mut word = [0u8; 1];
    !matches!(rt.arg(1, &mut word), Err(FillError::NotPresent))
}

// Reads until the room is full or the input has ended, and says how much was read. Where a read fails, what was read before is not the
// whole input, and nothing can be said of it. A loop by hand: std's `read_to_end` allocates, and reads again where a read was interrupted.
fn read_input<R: Read>(input: &mut R, room: &mut [u8]) -> io::Result<usize>
    ensures within { IfOk result (λ done. done ≤ length room.old) }
    ensures end { IfOk result (λ done. done < length room.new → IsAtEnd (R.remaining input.new)) }
    ensures bytes { IfOk result (λ done. Consumes (R.remaining input.old) (R.remaining input.new) (take done room.new)) }
{
    let mut done = 0;
    while done < room.len() {
        let got = input.read(&mut room[done..])?;
        if got == 0 {
            break;
        }
        done += got;
    }
    Ok(done)
}

// Reads the input, and writes its text; and tells of a refusal.
fn run(rt: &HostRuntime) -> Result<(), Failure> {
    if has_arguments(rt) {
        return Err(Failure::Arguments);
    }
    let mut input = [0u8; MOST_BYTES];
    let got = read_input(&mut rt.stdin(), &mut input).map_err(|_| Failure::Reading)?;
    let mut room = [0u8; 8192];
    let written = house::house_table(&input[..got], &mut room);
    if let Err(reason) = written.outcome {
        let number = u32::from(reason);
        // where standard error fails, nothing is left to tell it by
        let _ = eprintln!(rt; "house_table: refused {number}");
    }
    rt.stdout()
        .write_all(&room[..written.length])
        .map_err(|_| Failure::Writing)
}

fn main(rt: HostRuntime) {
    if let Err(failure) = run(&rt) {
        let _ = eprintln!(rt; "{failure}");
    }
}
