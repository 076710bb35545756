//! Whole commands over files in memory, by their words and by a request, and the lines of refusals.

use crate::due::{Ended, due_bytes, due_end};
use crate::ends::FailingFiles;
use crate::fleets::{
    HELD_TRACE, PAIR_BYTES, PAIR_BYTES_2, PAIR_HEX, PAIR_MAP, PAIR_PLAN, PAIR_SCEN, PAIR_TEXT,
    PAIR_TRACE,
};
use fleet_adg::Deps;
use fleet_cli::{
    AutoRequest, Best, CheckRequest, CompileRequest, Disk, Fault, FileFault, Files, MemFiles,
    MigrateRequest, PlanRequest, ProgramFor, RehearseRequest, Request, RunRequest, Tasks,
    ThinRequest, Tries, WordStop, read_words, run_command, run_hex, run_request,
};
use fleet_run::VecOut;
use std::alloc::{AllocError, Global};
use std::process::Abort;
use std::test::Fail;

/// The pair's files, and two of holds.
const FILES: [(&str, &[u8]); 6] = [
    ("map", PAIR_MAP),
    ("scen", PAIR_SCEN),
    ("plan", PAIR_PLAN),
    ("program", PAIR_BYTES),
    ("holds", b"0\n"),
    ("wrong", b"-\n1 0\n"),
];

fn some_files(alloc: Global) -> Result<MemFiles, Fail> {
    let mut files = MemFiles::new(alloc);
    for file in &FILES {
        let (name, bytes) = *file;
        files.put(name, bytes)?;
    }
    Ok(files)
}

/// These bytes are due of the file.
fn due_file(rt: &impl Abort, files: &MemFiles, name: &str, due: &[u8]) {
    due_bytes(rt, files.get(name).unwrap_or(b"none"), due);
}

/// The words of a line, which blanks part.
fn words_of(alloc: Global, line: &str) -> Result<Vec<String>, AllocError> {
    let mut words = Vec::new(alloc);
    for word in line.split_whitespace() {
        words.push(String::from_str(alloc, word)?)?;
    }
    Ok(words)
}

/// The status of a command, and what it writes to its output and of its refusal.
type Done = (u8, VecOut, VecOut);

fn ended(done: &Done) -> Ended<'_> {
    (done.0, done.1.bytes(), done.2.bytes())
}

fn command_answer<F: Files>(alloc: Global, line: &str, files: &mut F) -> Result<Done, Fail> {
    let words = words_of(alloc, line)?;
    let mut out = VecOut::new(alloc);
    let mut err = VecOut::new(alloc);
    let mut input = PAIR_HEX;
    let status = run_command(alloc, &words, &mut input, files, &mut out, &mut err);
    Ok((status, out, err))
}

/// A command, its status, and what it writes to its output and of its refusal.
type Row = (&'static str, u8, &'static [u8], &'static [u8]);

const COMPILED: &[u8] = b"agents 2\nmoves 4\nawaits 2\nbytes 40\n";

const COMMANDS: [Row; 3] = [
    ("compile map scen plan out", 0, COMPILED, b""),
    (
        "run map scen program --holds wrong",
        1,
        b"0: 1,0 0,0\n1: 2,0 0,0\n",
        b"run 3 Hold line 2\n",
    ),
    ("run map scen none", 3, b"", b"file none\n"),
];

/// The row's command ends as is due.
fn due_row(rt: &impl Abort, alloc: Global, row: &Row, files: &mut impl Files) -> Result<(), Fail> {
    let (line, status, out, err) = *row;
    let done = command_answer(alloc, line, files)?;
    due_end(rt, line, ended(&done), (status, out, err));
    Ok(())
}

fn run_commands(rt: &impl Abort, alloc: Global, files: &mut MemFiles) -> Result<(), Fail> {
    for row in &COMMANDS {
        due_row(rt, alloc, row, files)?;
    }
    Ok(())
}

#[test]
fn commands_are_run(rt: HostRuntime) -> Result<(), Fail> {
    let mut files = some_files(rt.alloc())?;
    run_commands(&rt, rt.alloc(), &mut files)?;
    due_file(&rt, &files, "out", PAIR_BYTES);
    Ok(())
}

/// One order of the agents is tried.
const ONE_TRY: Tries = Tries {
    count: 1,
    best: None,
};

/// The tasks of the pair.
const PAIR: Tasks<'static> = Tasks {
    map: "map",
    scen: "scen",
    agents: None,
};

/// The pair's program, as it is compiled.
const COMPILED_PAIR: ProgramFor<'static> = ProgramFor {
    tasks: PAIR,
    program: "out",
};

/// The name of a request, the request, and what it writes.
type Asked = (&'static str, Request<'static>, &'static [u8]);

const INSTANCE: &[u8] = b"map 4 1\nground 4\nagents 2\n0: 1,0 3,0\n1: 0,0 2,0\n";

const ACCEPTED: &[u8] = b"accepted\nagents 2\nmoves 4\nawaits 2\nchain 3\n";

/// A request of ten commands on the pair's files, and what each writes.
const REQUESTS: &[Asked] = &[
    ("instance", Request::Instance(PAIR), INSTANCE),
    (
        "check",
        Request::Check(CheckRequest {
            tasks: Tasks {
                agents: Some(2),
                ..PAIR
            },
            plan: "plan",
            numbers: true,
        }),
        b"conflict-free\nagents 2\nsteps 2\ncost 4\nbound 4\nmoves 4\nwaits 0\napart no\n",
    ),
    (
        "plan",
        Request::Plan(PlanRequest {
            tasks: PAIR,
            horizon: 2,
            tries: Tries {
                count: 2,
                best: Some(Best::Cost),
            },
        }),
        PAIR_PLAN,
    ),
    (
        "compile",
        Request::Compile(CompileRequest {
            tasks: PAIR,
            plan: "plan",
            out: "out",
            deps: Deps::All,
            dwell: 0,
        }),
        COMPILED,
    ),
    ("verify", Request::Verify(COMPILED_PAIR), ACCEPTED),
    (
        "run",
        Request::Run(RunRequest {
            subject: COMPILED_PAIR,
            holds: Some("holds"),
        }),
        HELD_TRACE,
    ),
    (
        "rehearse",
        Request::Rehearse(RehearseRequest {
            program: "out",
            holds: None,
        }),
        PAIR_TEXT,
    ),
    (
        "auto",
        Request::Auto(AutoRequest {
            tasks: PAIR,
            horizon: 1024,
            tries: ONE_TRY,
            deps: Deps::Last,
            holds: None,
            numbers: false,
        }),
        PAIR_TRACE,
    ),
    (
        "thin",
        Request::Thin(ThinRequest {
            subject: COMPILED_PAIR,
            out: "out",
        }),
        b"awaits 2\nawaits 2\n",
    ),
    (
        "migrate",
        Request::Migrate(MigrateRequest {
            program: "out",
            out: "out",
        }),
        b"bytes 48\n",
    ),
];

/// The row's request writes what is due, and nothing is refused.
fn due_request(rt: &impl Abort, alloc: Global, row: &Asked, files: &mut impl Files) {
    let mut out = VecOut::new(alloc);
    let mut err = VecOut::new(alloc);
    let mut input = PAIR_HEX;
    let status = run_request(alloc, &row.1, &mut input, files, &mut out, &mut err);
    due_end(
        rt,
        row.0,
        (status, out.bytes(), err.bytes()),
        (0, row.2, b""),
    );
}

/// The requests, by a function that does nothing else: a constant is spelled out in each step of the function that
/// names it, which makes a loop over a table dear to prove.
fn requests() -> &'static [Asked] {
    REQUESTS
}

/// Each request writes what is due of it.
fn due_requests(rt: &impl Abort, alloc: Global, files: &mut impl Files) {
    for row in requests() {
        due_request(rt, alloc, row, files);
    }
}

#[test]
fn requests_are_done(rt: HostRuntime) -> Result<(), Fail> {
    let mut files = some_files(rt.alloc())?;
    due_requests(&rt, rt.alloc(), &mut files);
    due_file(&rt, &files, "out", PAIR_BYTES_2);
    Ok(())
}

/// Whether the run of a program is asked for.
fn is_run(request: &Request<'_>) -> bool {
    let Request::Run(RunRequest { subject, holds }) = *request else {
        return false;
    };
    let ProgramFor { tasks, program } = subject;
    let Tasks { map, scen, agents } = tasks;
    (map, scen, program) == ("a", "b", "c") && agents == Some(7) && holds == Some("d")
}

/// Whether the words of a line ask for it.
fn asks_for_run(alloc: Global, line: &str) -> Result<bool, Fail> {
    let words = words_of(alloc, line)?;
    let is_asked = match read_words(alloc, &words) {
        Ok(request) => is_run(&request),
        Err(WordStop::OutOfMemory | WordStop::Usage(_) | WordStop::Help(_)) => false,
    };
    Ok(is_asked)
}

#[test]
fn words_are_read(rt: HostRuntime) -> Result<(), Fail> {
    assert!(rt; asks_for_run(rt.alloc(), "run a b c --agents 7 --holds d")?);
    Ok(())
}

/// The run without words.
#[test]
fn hexadecimal_is_run(rt: HostRuntime) {
    let mut out = VecOut::new(rt.alloc());
    let mut err = VecOut::new(rt.alloc());
    let mut input = PAIR_HEX;
    let status = run_hex(rt.alloc(), &mut input, &mut out, &mut err);
    due_end(
        &rt,
        "hexadecimal",
        (status, out.bytes(), err.bytes()),
        (0, PAIR_TEXT, b""),
    );
}

#[test]
fn refusals_are_told(rt: HostRuntime) {
    let mut err = VecOut::new(rt.alloc());
    let fault = Fault::File("name");
    fault.tell(&mut err);
    due_end(
        &rt,
        "refusal",
        (fault.status(), b"", err.bytes()),
        (3, b"", b"file name\n"),
    );
}

/// A log is cut to its whole lines, and grows behind them.
fn begin_and_grow(rt: &impl Abort, alloc: Global, files: &mut MemFiles) -> Result<(), Fail> {
    files.put("log", b"0:1\n0")?;
    assert!(*rt; files.begin_log(alloc, "log", b"0:1\n0")?);
    files.append("log", b"0:2\n")?;
    due_file(rt, files, "log", b"0:1\n0:2\n");
    Ok(())
}

#[test]
fn logs_are_begun_and_grow(rt: HostRuntime) -> Result<(), Fail> {
    begin_and_grow(&rt, rt.alloc(), &mut MemFiles::new(rt.alloc()))
}

/// No folder of the disk is called so.
#[test]
fn the_disk_has_no_such_folder(rt: HostRuntime) {
    let answer = Disk::new(&rt).read(rt.alloc(), "no/such/folder").err();
    assert!(rt; matches!(answer, Some(FileFault::Failed)));
}

/// How a plan is compiled over files of which the call after so many fails, and whether OUT is not there then.
fn failing_answer(alloc: Global, calls: u8) -> Result<(Done, bool), Fail> {
    let mut files = FailingFiles {
        files: some_files(alloc)?,
        calls,
    };
    let done = command_answer(alloc, "compile map scen plan out", &mut files)?;
    Ok((done, files.files.get("out").is_none()))
}

/// The line names the first file that fails, and OUT is not written when anything before it was refused.
fn due_failing(rt: &impl Abort, alloc: Global, calls: u8, line: &[u8]) -> Result<(), Fail> {
    let (done, is_missing) = failing_answer(alloc, calls)?;
    due_end(rt, "compile", ended(&done), (3, b"", line));
    assert!(*rt; is_missing);
    Ok(())
}

#[test]
fn files_fail_at_each_call(rt: HostRuntime) -> Result<(), Fail> {
    due_failing(&rt, rt.alloc(), 0, b"file map\n")?;
    due_failing(&rt, rt.alloc(), 1, b"file scen\n")?;
    due_failing(&rt, rt.alloc(), 2, b"file plan\n")?;
    due_failing(&rt, rt.alloc(), 3, b"file out\n")
}
