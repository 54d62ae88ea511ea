// Reads a pack's bytes from standard input and prints what the check says of it: a line for each entry point and the
// layout words, or why the pack is refused.
// Where standard input cannot be read or standard output cannot be written it says so on standard error and ends with
// status 1; in the first case it prints nothing.
#![tactic(auto)]

ghost use Rattle.std.specs.Prelude.{◌≡◌, ◌<◌, length, take, IfOk, IfSome, OnOk};
ghost use Rattle.std.specs.Io.{ReadsAtMost};
ghost use Rattle.std.specs.Io.KnownBytes.{Appends, Consumes, IsAtEnd};
ghost use Rattle.report.specs.Report.{report};

use report::report_text;
use std::io;
use std::io::{Read, Write};
use std::process::ExitCode;

// Reads until the room is full or the input ends, and answers how many bytes were read. By a loop of reads: a terminal gives the end of its input
// once, and `io::copy` says too little of a reader that is lent to it to tell whether that was met.
fn read_bytes<R: Read>(input: &mut R, room: &mut [u8]) -> io::Result<usize>
    ensures bound { ReadsAtMost result room.new }
    ensures bytes { IfOk result (λ n. Consumes (R.remaining input.old) (R.remaining input.new) (take n room.new)) }
    ensures end { IfOk result (λ n. n < length room.new → IsAtEnd (R.remaining input.new)) }
{
    let mut at: usize = 0;
    while at < room.len() {
        let more = input.read(&mut room[at..])?;
        if more == 0 {
            return Ok(at);
        }
        at += more;
    }
    Ok(at)
}

// Reads to the end of the input, and drops what it reads.
fn skip_rest<R: Read>(input: &mut R) -> io::Result<()>
    ensures { OnOk result (IsAtEnd (R.remaining input.new)) }
{
    io::copy(input, &mut io::sink())?;
    Ok(())
}

// The bytes of the input; room that is full is more than a pack can hold, and what is behind it is read and dropped.
fn read_input<R: Read>(input: &mut R, room: &mut [u8]) -> io::Result<usize>
    ensures bound { ReadsAtMost result room.new }
    ensures bytes { IfOk result (λ n. IfSome (R.remaining input.old) (λ xs. take n room.new ≡ take (length room.new) xs)) }
    ensures end { OnOk result (IsAtEnd (R.remaining input.new)) }
{
    let count = read_bytes(input, room)?;
    if count == room.len() {
        skip_rest(input)?;
    }
    Ok(count)
}

// Prints what the check says of a pack's bytes.
fn print_report<W: Write>(output: &mut W, bytes: &[u8]) -> io::Result<()>
    ensures { OnOk result (Appends (W.contents output.old) (W.contents output.new) (report bytes.now)) }
{
    let text = report_text(bytes);
    output.write_all(text.as_slice())
}

// Says on standard error what failed. Where that cannot be written either, nobody is told.
fn complain(rt: &impl Eprint, what: &str) -> ExitCode {
    let _ = eprintln!(rt; "check_pack: {what}");
    ExitCode::FAILURE
}

// Reads a pack and prints what the check says of it, or answers what failed.
fn check<R: Read, W: Write>(input: &mut R, output: &mut W) -> Result<(), &'static str>
    ensures { OnOk result (IfSome (R.remaining input.old) (λ xs. Appends (W.contents output.old) (W.contents output.new) (report xs))) }
{
    let mut bytes = [0u8; 16385];
    let Ok(n) = read_input(input, &mut bytes) else {
        return Err("standard input cannot be read");
    };
    match print_report(output, &bytes[..n]) {
        Ok(()) => Ok(()),
        Err(_) => Err("standard output cannot be written"),
    }
}

fn main(rt: HostRuntime) -> ExitCode {
    match check(&mut rt.stdin(), &mut rt.stdout()) {
        Ok(()) => ExitCode::SUCCESS,
        Err(what) => complain(&rt, what),
    }
}
