//! The program's words, and what it does for them.

ghost use Rattle.std.specs.Prelude.{◌≡◌, ◌≢◌, None, map, string_bytes};
ghost use Rattle.fleet_text.specs.Sink.{IsWorking};
ghost use Rattle.fleet_dispatch.specs.Talk.{IsLogged};
ghost use Rattle.fleet_cli.specs.Output.{around};
ghost use Rattle.fleet_cli.specs.Command.{names_for, names_of, names_of_program, AnswersProblem, AnswersRequest, RunsRequest, StopsAtWords, RunsCommand};

use crate::dispatch_command::do_dispatch;
use crate::fault::{Fault, finish, refuse};
use crate::files::{FileNames, FileTexts, Files, read_files};
use crate::print_commands::{do_check, do_instance, do_list, do_plan, do_times, do_verify};
use crate::run_commands::{do_auto, do_run, rehearse_bytes, run_hex};
use crate::steps::{Problem, problem_of};
use crate::write_commands::{do_compile, do_migrate, do_rest, do_thin};
use fleet_args::{ProgramFor, Request, Tasks, WordStop, read_words};
use fleet_dispatch::ReportsTo;
use fleet_text::{Flush, OutFault, TraceOut, deliver, put_all};
use std::alloc::Global;

/// The files that a request's command reads: those of its tasks, if it has some, what it is about, the holds (of
/// `times` the costs) and the log.
fn names_for<'a>(
    tasks: Option<Tasks<'a>>,
    subject: Option<&'a str>,
    holds: Option<&'a str>,
    log: Option<&'a str>,
) -> FileNames<'a>
    ensures { result ≡ names_for tasks.entry subject.entry holds.entry log.entry }
{
    FileNames {
        tasks,
        subject,
        holds,
        log,
    }
}

/// The files of a request about a program for tasks.
fn names_of_program<'a>(
    program: &ProgramFor<'a>,
    holds: Option<&'a str>,
    log: Option<&'a str>,
) -> FileNames<'a>
    ensures { result ≡ names_of_program program.now holds.entry log.entry }
{
    names_for(Some(program.tasks), Some(program.program), holds, log)
}

/// The files that the request's command reads.
fn names_of<'a>(request: &Request<'a>) -> FileNames<'a>
    ensures { result ≡ names_of request.now }
{
    match request {
        Request::Instance(q) => names_for(Some(*q), None, None, None),
        Request::Check(q) => names_for(Some(q.tasks), Some(q.plan), None, None),
        Request::Plan(q) => names_for(Some(q.tasks), None, None, None),
        Request::Compile(q) => names_for(Some(q.tasks), Some(q.plan), None, None),
        Request::Verify(q) => names_of_program(q, None, None),
        Request::Run(q) => names_of_program(&q.subject, q.holds, None),
        Request::Rehearse(q) => names_for(None, Some(q.program), q.holds, None),
        Request::Auto(q) => names_for(Some(q.tasks), None, q.holds, None),
        Request::Thin(q) => names_of_program(&q.subject, None, None),
        Request::Migrate(q) => names_for(None, Some(q.program), None, None),
        Request::List(q) => names_for(None, Some(q.program), None, None),
        Request::Dispatch(q) => names_of_program(&q.subject, None, q.resume),
        Request::Times(q) => names_of_program(&q.subject, q.costs, None),
        Request::Rest(q) => names_of_program(&q.subject, None, Some(q.reports)),
    }
}

/// What the request's command, which is about tasks, answers for the problem for which their texts stand. Of these
/// commands `dispatch` alone reads `input`, and `plan` and `compile` let the texts go.
fn answer_problem<'a, R: ReportsTo<O>, F: Files, O: Flush>(
    alloc: Global,
    request: &Request<'a>,
    problem: &mut Problem,
    input: &mut R,
    files: &mut F,
    out: &mut O,
) -> Result<u8, Fault<'a>>
    requires about { (names_of request.now).tasks ≢ None }
    requires working { IsWorking (O.state out.old) }
    ensures { AnswersProblem (around (F.contents files.old) (F.contents files.new)
        (input.new ≡ input.old) (out.new ≡ out.old)
        (IsLogged R.talks input.old out.old input.new out.new)) request.now problem.old
        (O.state out.old) (O.state out.new) result }
{
    match request {
        Request::Instance(_) => do_instance(problem, out),
        Request::Check(q) => do_check(alloc, q, problem, out),
        Request::Plan(q) => do_plan(alloc, q, problem, out),
        Request::Compile(q) => do_compile(alloc, q, problem, files, out),
        Request::Verify(_) => do_verify(alloc, problem, out),
        Request::Run(_) => do_run(alloc, problem, out),
        Request::Auto(q) => do_auto(alloc, q, problem, out),
        Request::Thin(q) => do_thin(alloc, q, problem, files, out),
        Request::Dispatch(q) => do_dispatch(alloc, q, problem, input, files, out),
        Request::Times(q) => do_times(alloc, q, problem, out),
        Request::Rest(q) => do_rest(alloc, q, problem, files, out),
        // The request is about tasks.
        Request::Rehearse(_) | Request::Migrate(_) | Request::List(_) => unreachable!(),
    }
}

/// What the request's command answers for the texts of its files: the status, or the refusal that is to be written. Its
/// output goes to `out`, and of the commands `dispatch` alone reads `input`.
fn answer_request<'a, R: ReportsTo<O>, F: Files, O: Flush>(
    alloc: Global,
    request: &Request<'a>,
    texts: FileTexts,
    input: &mut R,
    files: &mut F,
    out: &mut O,
) -> Result<u8, Fault<'a>>
    requires { IsWorking (O.state out.old) }
    ensures { AnswersRequest (around (F.contents files.old) (F.contents files.new)
        (input.new ≡ input.old) (out.new ≡ out.old)
        (IsLogged R.talks input.old out.old input.new out.new)) request.now texts
        (names_of request.now).tasks (O.state out.old) (O.state out.new) result }
{
    if let Some(tasks) = names_of(request).tasks {
        let mut problem = problem_of(alloc, texts, tasks)?;
        return answer_problem(alloc, request, &mut problem, input, files, out);
    }
    match request {
        Request::Rehearse(_) => rehearse_bytes(alloc, &texts.subject, &texts.holds, out),
        Request::Migrate(q) => do_migrate(alloc, q, &texts, files, out),
        Request::List(_) => do_list(alloc, &texts, out),
        // The others are about tasks.
        _ => unreachable!(),
    }
}

/// Reads the files that the request names, all before any is judged, and does what it asks: its output goes to `out`, a
/// refusal's line to `err`, and of the commands `dispatch` alone reads `input`, by which robots report. Answers the
/// status: 0 if it is done, 1 if it is refused or a rehearsal ends stuck, 3 if memory, a file, `input` or `out` failed.
pub fn run_request<R: ReportsTo<O>, F: Files, O: Flush, E: TraceOut>(
    alloc: Global,
    request: &Request<'_>,
    input: &mut R,
    files: &mut F,
    out: &mut O,
    err: &mut E,
) -> u8
    requires out_working { IsWorking (O.state out.old) }
    requires err_working { IsWorking (E.state err.old) }
    ensures { RunsRequest (around (F.contents files.old) (F.contents files.new)
        (input.new ≡ input.old) (out.new ≡ out.old)
        (IsLogged R.talks input.old out.old input.new out.new)) request.now
        (O.state out.old) (O.state out.new) (E.state err.old) (E.state err.new) result }
{
    match read_files(alloc, files, names_of(request)) {
        Ok(texts) => finish(
            answer_request(alloc, request, texts, input, files, out),
            err,
        ),
        Err(fault) => refuse(&fault, err),
    }
}

/// Reports why the words are no request: help on `out` with status 0, or 3 if `out` fails; usage on `err` with status
/// 2; want of memory with status 3.
fn stop_at<O: Flush, E: TraceOut>(stop: &WordStop, out: &mut O, err: &mut E) -> u8
    requires out_working { IsWorking (O.state out.old) }
    requires err_working { IsWorking (E.state err.old) }
    ensures { StopsAtWords stop.now
        (O.state out.old) (O.state out.new)
        (E.state err.old) (E.state err.new)
        result }
{
    match stop {
        WordStop::OutOfMemory => refuse(&Fault::Memory, err),
        WordStop::Usage(text) => {
            let _ = put_all(err, text.as_bytes());
            2
        }
        WordStop::Help(text) => match deliver(out, text.as_bytes()) {
            Ok(()) => 0,
            Err(OutFault) => refuse(&Fault::File("-"), err),
        },
    }
}

/// What the program does for the words after its name: without words it rehearses the program that `input` gives in
/// hexadecimal, and else it does what the words ask for. Of the commands `dispatch` alone reads `input`, by which
/// robots report; every reader will do. Answers the status: that of `run_request`, 2 if the words ask for no command,
/// and 0 if they ask for help or for the version.
pub fn run_command<R: ReportsTo<O>, F: Files, O: Flush, E: TraceOut>(
    alloc: Global,
    words: &[String],
    input: &mut R,
    files: &mut F,
    out: &mut O,
    err: &mut E,
) -> u8
    requires out_working { IsWorking (O.state out.old) }
    requires err_working { IsWorking (E.state err.old) }
    ensures { RunsCommand (map string_bytes words.now) (R.remaining input.old)
        (around (F.contents files.old) (F.contents files.new)
        (input.new ≡ input.old) (out.new ≡ out.old)
        (IsLogged R.talks input.old out.old input.new out.new))
        (O.state out.old) (O.state out.new)
        (E.state err.old) (E.state err.new)
        result }
{
    if words.is_empty() {
        return run_hex(alloc, input, out, err);
    }
    match read_words(alloc, words) {
        Ok(request) => run_request(alloc, &request, input, files, out, err),
        Err(stop) => stop_at(&stop, out, err),
    }
}
