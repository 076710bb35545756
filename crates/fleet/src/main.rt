//! The program `fleet`: what its library does, over the standard streams and the disk.
#![tactic(auto)]

ghost use Rattle.std.specs.Prelude.{◌≡◌};
ghost use Rattle.fleet_text.specs.Sink.{IsWorking};
ghost use Rattle.std.specs.IoError.{error_kind};
ghost use Rattle.std.specs.Process.{exit_status};
ghost use Rattle.fleet_dispatch.specs.Talk.{IsLogged};
ghost use Rattle.fleet_cli.specs.Command.{around};
ghost use Rattle.fleet.specs.Program.{AreWordsOf, ReportsNoWords, RunsProgram};

use fleet_cli::{Disk, Fault, Files, refuse, run_command};
use fleet_dispatch::ReportsTo;
use fleet_text::{Flush, TraceOut, WriteOut, put_all};
use std::alloc::Global;
use std::env::Args;
use std::io::{BufWriter, ErrorKind};
use std::process::ExitCode;
use std::{env, io};

/// How many bytes of standard output are gathered before they are written.
const OUTPUT_ROOM: usize = 262_144;

/// The words of the command line after the program's name, which is the first.
fn words_of(alloc: Global, args: io::Result<Args>) -> io::Result<Vec<String>>
    ensures { AreWordsOf args result }
{
    let words = args?.skip(1).collect(alloc)?;
    Ok(words)
}

/// Writes why the words cannot be had, and answers the status: a word that is no text is wrong usage.
fn report_no_words<E: TraceOut>(error: &io::Error, err: &mut E) -> u8
    requires { IsWorking (E.state err.old) }
    ensures { ReportsNoWords (error_kind error.now)
        (E.state err.old) (E.state err.new)
        result }
{
    if error.kind() == ErrorKind::OutOfMemory {
        return refuse(&Fault::Memory, err);
    }
    let _ = put_all(err, b"error: a word of the command line is no text\n");
    2
}

/// Does what the words of the command line ask, or writes why there are none. Answers the status with which the process
/// ends.
fn run_program<R: ReportsTo<O>, F: Files, O: Flush, E: TraceOut>(
    alloc: Global,
    args: io::Result<Args>,
    input: &mut R,
    files: &mut F,
    out: &mut O,
    err: &mut E,
) -> ExitCode
    requires out_working { IsWorking (O.state out.old) }
    requires err_working { IsWorking (E.state err.old) }
    ensures { RunsProgram args (R.remaining input.old)
        (around (F.contents files.old) (F.contents files.new)
        (input.new ≡ input.old) (out.new ≡ out.old)
        (IsLogged R.talks input.old out.old input.new out.new))
        (O.state out.old) (O.state out.new)
        (E.state err.old) (E.state err.new)
        (exit_status result) }
{
    match words_of(alloc, args) {
        Ok(words) => ExitCode::from(run_command(alloc, words.as_slice(), input, files, out, err)),
        Err(error) => ExitCode::from(report_no_words(&error, err)),
    }
}

fn main(rt: HostRuntime) -> ExitCode {
    let mut err = WriteOut::new(rt.stderr());
    let Ok(writer) = BufWriter::with_capacity(rt.alloc(), OUTPUT_ROOM, io::writer(&rt)) else {
        return ExitCode::from(refuse(&Fault::Memory, &mut err));
    };
    run_program(
        rt.alloc(),
        env::args(&rt),
        &mut rt.stdin(),
        &mut Disk::new(&rt),
        &mut WriteOut::new(writer),
        &mut err,
    )
}
