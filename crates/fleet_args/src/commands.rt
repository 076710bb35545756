//! The commands: what each is asked for, its words and options, and how they are read from the matches.

ghost use Rattle.std.specs.Prelude.{◌≡◌, IsSome, codes, map};
ghost use Rattle.clap.specs.Words.{first_of};
ghost use Rattle.fleet_args.specs.{Arguments.said, Values.rows_in};
ghost use Rattle.fleet_args.specs.Commands.{AsksCommand, AsksProgram, AsksTasks, AsksTries, HasWords, IsProgramCommand, commands};

use crate::arguments::{
    Argument, CommandText, Form, text, used, used_best, used_count, used_deps, used_number,
    used_text,
};
use clap::ArgMatches;
use fleet_model::{Deps, MAX_MOVES, MAX_TRIES};

/// What makes a plan the best of several.
#[derive(Clone, Copy, Debug)]
pub enum Best {
    /// The least number of actions in the longest chain of its program.
    Chain,
    /// The least sum of costs, in steps.
    Cost,
}

/// How many orders of the agents are tried at most, of which the first that makes a plan is the last; or, if the best
/// plan is asked for, how many are tried in any case. One is always tried.
#[derive(Clone, Copy, Debug)]
pub struct Tries {
    pub count: u32,
    pub best: Option<Best>,
}

/// The tasks of a scenario on a map, the first so many or all: `MAP SCEN [--agents K]`. Here and in the requests below
/// a text is the name of a file, if nothing else is said.
#[derive(Clone, Copy)]
pub struct Tasks<'a> {
    pub map: &'a str,
    pub scen: &'a str,
    pub agents: Option<u16>,
}

/// A program for such tasks: `MAP SCEN PROGRAM [--agents K]`
#[derive(Clone, Copy)]
pub struct ProgramFor<'a> {
    pub tasks: Tasks<'a>,
    pub program: &'a str,
}

/// `fleet check MAP SCEN PLAN [--agents K] [--numbers]`
#[derive(Clone, Copy)]
pub struct CheckRequest<'a> {
    pub tasks: Tasks<'a>,
    pub plan: &'a str,
    /// Whether more numbers of the plan are printed.
    pub numbers: bool,
}

/// `fleet plan MAP SCEN [--agents K] [--horizon H] [--tries N] [--best BEST]`
#[derive(Clone, Copy)]
pub struct PlanRequest<'a> {
    pub tasks: Tasks<'a>,
    /// The latest time at which an agent may arrive, in steps.
    pub horizon: u16,
    pub tries: Tries,
}

/// `fleet compile MAP SCEN PLAN OUT [--agents K] [--deps DEPS] [--dwell N]`
#[derive(Clone, Copy)]
pub struct CompileRequest<'a> {
    pub tasks: Tasks<'a>,
    pub plan: &'a str,
    pub out: &'a str,
    pub deps: Deps,
    /// How many actions each agent stays on its last cell, after its moves.
    pub dwell: u32,
}

/// `fleet run MAP SCEN PROGRAM [--agents K] [--holds FILE]`
#[derive(Clone, Copy)]
pub struct RunRequest<'a> {
    pub subject: ProgramFor<'a>,
    pub holds: Option<&'a str>,
}

/// `fleet rehearse PROGRAM [--holds FILE]`
#[derive(Clone, Copy)]
pub struct RehearseRequest<'a> {
    pub program: &'a str,
    pub holds: Option<&'a str>,
}

/// `fleet auto MAP SCEN [--agents K] [--horizon H] [--tries N] [--best BEST] [--deps DEPS] [--holds FILE] [--numbers]`
#[derive(Clone, Copy)]
pub struct AutoRequest<'a> {
    pub tasks: Tasks<'a>,
    /// The latest time at which an agent may arrive, in steps.
    pub horizon: u16,
    pub tries: Tries,
    pub deps: Deps,
    pub holds: Option<&'a str>,
    /// Whether more numbers of the plan are printed.
    pub numbers: bool,
}

/// `fleet thin MAP SCEN PROGRAM OUT [--agents K]`
#[derive(Clone, Copy)]
pub struct ThinRequest<'a> {
    pub subject: ProgramFor<'a>,
    pub out: &'a str,
}

/// `fleet migrate PROGRAM OUT`
#[derive(Clone, Copy)]
pub struct MigrateRequest<'a> {
    pub program: &'a str,
    pub out: &'a str,
}

/// `fleet list PROGRAM`
#[derive(Clone, Copy)]
pub struct ListRequest<'a> {
    pub program: &'a str,
}

/// `fleet dispatch MAP SCEN PROGRAM [--agents K] [--ahead K] [--unnumbered] [--resume FILE] [--log FILE]`
#[derive(Clone, Copy)]
pub struct DispatchRequest<'a> {
    pub subject: ProgramFor<'a>,
    /// How many orders an agent may have at most that it has not reported. More than 255 are taken as 255.
    pub ahead: u16,
    /// Whether orders and reports name agents alone, without the numbers of actions.
    pub unnumbered: bool,
    /// The log after whose reports the dispatch goes on. It is read.
    pub resume: Option<&'a str>,
    /// The log behind which each report is put. It is written.
    pub log: Option<&'a str>,
}

/// `fleet times MAP SCEN PROGRAM [--agents K] [--costs FILE] [--broken ACTIONS]`
#[derive(Clone, Copy)]
pub struct TimesRequest<'a> {
    pub subject: ProgramFor<'a>,
    pub costs: Option<&'a str>,
    /// The actions in which robots break down, as words `A:N`: no name of a file.
    pub broken: Option<&'a str>,
}

/// `fleet rest MAP SCEN PROGRAM LOG SCEN_OUT PROGRAM_OUT [--agents K] [--without CELLS] [--map-out FILE]
/// [--others-out FILE]`
#[derive(Clone, Copy)]
pub struct RestRequest<'a> {
    pub subject: ProgramFor<'a>,
    pub reports: &'a str,
    pub scen_out: &'a str,
    pub program_out: &'a str,
    /// The agent of a dead robot and its cells, `A:X,Y` or `A:X,Y:X,Y`: no name of a file.
    pub without: Option<&'a str>,
    pub map_out: Option<&'a str>,
    pub others_out: Option<&'a str>,
}

/// A command with its words and options.
#[derive(Clone, Copy)]
pub enum Request<'a> {
    Instance(Tasks<'a>),
    Check(CheckRequest<'a>),
    Plan(PlanRequest<'a>),
    Compile(CompileRequest<'a>),
    Verify(ProgramFor<'a>),
    Run(RunRequest<'a>),
    Rehearse(RehearseRequest<'a>),
    Auto(AutoRequest<'a>),
    Thin(ThinRequest<'a>),
    Migrate(MigrateRequest<'a>),
    List(ListRequest<'a>),
    Dispatch(DispatchRequest<'a>),
    Times(TimesRequest<'a>),
    Rest(RestRequest<'a>),
}

/// An argument of this name and form.
macro_rules! argument {
    ($name:literal, $form:expr) => {
        Argument {
            name: $name,
            form: $form,
        }
    };
}

const MAP: Argument = argument!("map", Form::Word);

const SCEN: Argument = argument!("scen", Form::Word);

const PLAN: Argument = argument!("plan", Form::Word);

const OUT: Argument = argument!("out", Form::Word);

const PROGRAM: Argument = argument!("program", Form::Word);

const AGENTS: Argument = argument!("agents", Form::Numbers(0, u16::MAX as u32));

const HORIZON: Argument = argument!("horizon", Form::Numbers(1, u16::MAX as u32));

const TRIES: Argument = argument!("tries", Form::Numbers(1, MAX_TRIES));

const BEST: Argument = argument!("best", Form::Best);

const DEPS: Argument = argument!("deps", Form::Deps);

const DWELL: Argument = argument!("dwell", Form::Numbers(0, MAX_MOVES));

const HOLDS: Argument = argument!("holds", Form::Text);

const NUMBERS: Argument = argument!("numbers", Form::Flag);

const AHEAD: Argument = argument!("ahead", Form::Numbers(1, u8::MAX as u32));

const UNNUMBERED: Argument = argument!("unnumbered", Form::Flag);

const RESUME: Argument = argument!("resume", Form::Text);

const COSTS: Argument = argument!("costs", Form::Text);

const BROKEN: Argument = argument!("broken", Form::Text);

const REPORTS: Argument = argument!("reports", Form::Word);

const SCEN_OUT: Argument = argument!("scen_out", Form::Word);

const PROGRAM_OUT: Argument = argument!("program_out", Form::Word);

const WITHOUT: Argument = argument!("without", Form::Text);

const MAP_OUT: Argument = argument!("map-out", Form::Text);

const OTHERS_OUT: Argument = argument!("others-out", Form::Text);

const LOG: Argument = argument!("log", Form::Text);

/// The rows of a table of arguments, each with the name that help gives its value, and a text.
macro_rules! argument_rows {
    ($($argument:ident, $value:literal, $help:literal;)*) => { [$(($argument, ($value, $help))),*] };
}

/// What help says of each argument.
static ARGUMENTS: [(Argument, (&str, &str)); 25] = argument_rows![
    MAP, "MAP", "Map file (MovingAI), each side 1 to 4096";
    SCEN, "SCEN", "Scenario file (MovingAI), one line per agent";
    PLAN, "PLAN", "Plan text: a line per agent, its cells x,y at times 0, 1, 2 ..";
    OUT, "OUT", "The file to which the program bytes are written";
    PROGRAM, "PROGRAM", "Program file (bytes, not hexadecimal)";
    AGENTS, "K", "Take the first K agents of the scenario, 1 to 1024 [default: all]";
    HORIZON, "H",
        "The latest time at which an agent may arrive, 1 to 65535; below its shortest way there is no path \
         [default: 1024]";
    TRIES, "N",
        "How many orders of the agents are tried, 1 to 1000000: an agent that finds no path is planned first \
         in the next one [default: 1]";
    BEST, "BEST",
        "Tries all N orders, and keeps the first plan with the shortest chain (chain) or the least sum of \
         costs (cost)";
    DEPS, "DEPS",
        "What a move into a cell waits for: the last leaving by each other agent (all), or only the latest \
         leaving (last) [default: last]";
    DWELL, "N", "How many actions each agent stays on its last cell after its moves, 0 to 1000000 [default: 0]";
    HOLDS, "FILE",
        "Holds text: a line per tick, - for nobody or the numbers of the held agents, rising \
         [default: nobody is held]";
    NUMBERS, "", "Prints more numbers of the plan at the end";
    AHEAD, "K", "How many orders an agent may have at most that it has not reported, 1 to 255 [default: 1]";
    UNNUMBERED, "",
        "Orders and reports name agents alone: go AGENT FROM TO, and a report that comes twice counts twice";
    RESUME, "FILE",
        "Goes on after the reports in this file: takes them first, and then prints the orders that are open";
    COSTS, "FILE",
        "What actions cost: lines A X, each action of agent A, and A:N X, its action N \
         [default: each action costs 1]";
    BROKEN, "ACTIONS",
        "The actions in which robots break down: words A:N, rising, one space between two \
         [default: all robots go on]";
    REPORTS, "LOG", "The log of a dispatch: its reports, a line for each";
    SCEN_OUT, "SCEN_OUT", "The file to which the tasks that are left are written, as a scenario";
    PROGRAM_OUT, "PROGRAM_OUT", "The file to which the program bytes that are left are written";
    WITHOUT, "CELLS",
        "The agent of a dead robot, and the cells on which it stands: A:X,Y or A:X,Y:X,Y [default: no robot is dead]";
    MAP_OUT, "FILE", "A file to which the map is written, in which the cells of the dead robot are blocked";
    OTHERS_OUT, "FILE", "A file to which the tasks of all but the dead robot's agent are written, as a scenario";
    LOG, "FILE", "Appends each report that is taken to this file, on the disk before anything follows from it";
];

/// The rows of a table of commands, each by its name, its arguments and its text for help.
macro_rules! command_rows {
    ($($name:literal, [$($argument:ident),*], $about:literal;)*) => {
        [$(CommandText {
            name: $name,
            arguments: &[$($argument),*],
            about: $about,
            line: concat!("fleet ", $name),
        }),*]
    };
}

/// The commands, in the order of help.
static COMMANDS: [CommandText; 14] = command_rows![
    "instance", [MAP, SCEN, AGENTS],
        "Prints the size of a map, its passable cells, and each agent's start and goal";
    "check", [MAP, SCEN, PLAN, AGENTS, NUMBERS],
        "Tells whether a plan is free of conflict, or its first fault";
    "plan", [MAP, SCEN, AGENTS, HORIZON, TRIES, BEST],
        "Plans a path for each agent in turn, and prints the plan text";
    "compile", [MAP, SCEN, PLAN, OUT, AGENTS, DEPS, DWELL],
        "Compiles a conflict-free plan into a program, writes it to OUT, and prints its agents, moves, awaits and \
         bytes";
    "verify", [MAP, SCEN, PROGRAM, AGENTS],
        "Tells whether a program is safe and arrives whoever is held, or its first fault";
    "run", [MAP, SCEN, PROGRAM, AGENTS, HOLDS],
        "Verifies a program and runs it: prints the positions tick by tick, then agents, ticks, chain and held";
    "rehearse", [PROGRAM, HOLDS],
        "Runs any program until it is finished or stuck: prints the positions tick by tick, then agents, ticks and \
         held";
    "auto", [MAP, SCEN, AGENTS, HORIZON, TRIES, BEST, DEPS, HOLDS, NUMBERS],
        "Plans, compiles, verifies and runs: prints the positions tick by tick, then agents, ticks, chain and held";
    "thin", [MAP, SCEN, PROGRAM, OUT, AGENTS],
        "Drops the awaits of an accepted program that others imply, writes it to OUT, and prints its awaits before \
         and after";
    "migrate", [PROGRAM, OUT],
        "Writes a program to OUT in version 2 of the bytes, and prints how many they are";
    "list", [PROGRAM],
        "Prints any program as text: a line for each agent, and after it one for each of its actions";
    "dispatch", [MAP, SCEN, PROGRAM, AGENTS, AHEAD, UNNUMBERED, RESUME, LOG],
        "Dispatches robots: prints go AGENT:N FROM TO as each move may begin, and reads a line for each report of \
         which moves are done";
    "times", [MAP, SCEN, PROGRAM, AGENTS, COSTS, BROKEN],
        "Tells when each agent of an accepted program arrives at the soonest, or how far it comes if robots break down";
    "rest", [MAP, SCEN, PROGRAM, REPORTS, SCEN_OUT, PROGRAM_OUT, AGENTS, WITHOUT, MAP_OUT, OTHERS_OUT],
        "Writes what is left of an accepted program after the reports of a log: its tasks and its bytes, and prints \
         its agents, moves, awaits and bytes";
];

/// The name that help gives the value of the argument of this name, and its text.
pub(crate) fn help_of(name: &str) -> (&'static str, &'static str) {
    match ARGUMENTS.iter().find(|argument| argument.0.name == name) {
        Some(argument) => argument.1,
        None => ("", ""),
    }
}

/// The commands.
pub(crate) fn commands() -> &'static [CommandText]
    ensures { map said result.now ≡ commands }
{
    COMMANDS.as_slice()
}

/// The horizon of a command that names none, in steps.
const DEFAULT_HORIZON: u16 = 1_024;

/// The tries that the matches of a command ask for.
fn tries_in(matches: &ArgMatches<'_>) -> Tries
    ensures { AsksTries (rows_in matches.now) result }
{
    Tries {
        count: used_count(matches, "tries").unwrap_or(1),
        best: used_best(matches, "best"),
    }
}

/// The tasks that the matches of a command ask for.
fn tasks_in<'a>(matches: &ArgMatches<'a>) -> Tasks<'a>
    requires map { IsSome (first_of (codes "map") (rows_in matches.now)) }
    requires scen { IsSome (first_of (codes "scen") (rows_in matches.now)) }
    ensures { AsksTasks (rows_in matches.now) result }
{
    Tasks {
        map: text(matches, "map"),
        scen: text(matches, "scen"),
        agents: used_number(matches, "agents"),
    }
}

/// The program, and the tasks that it is for, that the matches of a command ask for.
fn program_in<'a>(matches: &ArgMatches<'a>) -> ProgramFor<'a>
    requires map { IsSome (first_of (codes "map") (rows_in matches.now)) }
    requires scen { IsSome (first_of (codes "scen") (rows_in matches.now)) }
    requires program { IsSome (first_of (codes "program") (rows_in matches.now)) }
    ensures { AsksProgram (rows_in matches.now) result }
{
    ProgramFor {
        tasks: tasks_in(matches),
        program: text(matches, "program"),
    }
}

/// The request of `auto`.
fn auto_in<'a>(matches: &ArgMatches<'a>) -> Request<'a>
    requires { HasWords (codes "auto") (rows_in matches.now) }
    ensures { AsksCommand (codes "auto") (rows_in matches.now) result }
{
    Request::Auto(AutoRequest {
        tasks: tasks_in(matches),
        horizon: used_number(matches, "horizon").unwrap_or(DEFAULT_HORIZON),
        tries: tries_in(matches),
        deps: used_deps(matches, "deps").unwrap_or(Deps::Last),
        holds: used_text(matches, "holds"),
        numbers: used(matches, "numbers"),
    })
}

/// The request of the command of this name, which is about a program for tasks, by its matches.
fn program_request<'a>(name: &str, matches: &ArgMatches<'a>) -> Request<'a>
    requires name { IsProgramCommand name.now }
    requires words { HasWords name.now (rows_in matches.now) }
    ensures { AsksCommand name.now (rows_in matches.now) result }
{
    match name {
        "verify" => Request::Verify(program_in(matches)),
        "run" => Request::Run(RunRequest {
            subject: program_in(matches),
            holds: used_text(matches, "holds"),
        }),
        "thin" => Request::Thin(ThinRequest {
            subject: program_in(matches),
            out: text(matches, "out"),
        }),
        "dispatch" => Request::Dispatch(DispatchRequest {
            subject: program_in(matches),
            ahead: used_number(matches, "ahead").unwrap_or(1),
            unnumbered: used(matches, "unnumbered"),
            resume: used_text(matches, "resume"),
            log: used_text(matches, "log"),
        }),
        "times" => Request::Times(TimesRequest {
            subject: program_in(matches),
            costs: used_text(matches, "costs"),
            broken: used_text(matches, "broken"),
        }),
        "rest" => Request::Rest(RestRequest {
            subject: program_in(matches),
            reports: text(matches, "reports"),
            scen_out: text(matches, "scen_out"),
            program_out: text(matches, "program_out"),
            without: used_text(matches, "without"),
            map_out: used_text(matches, "map-out"),
            others_out: used_text(matches, "others-out"),
        }),
        _ => unreachable!(),
    }
}

/// The request of the command of this name, by its matches.
pub(crate) fn request_by<'a>(name: &str, matches: &ArgMatches<'a>) -> Request<'a>
    requires { HasWords name.now (rows_in matches.now) }
    ensures { AsksCommand name.now (rows_in matches.now) result }
{
    match name {
        "instance" => Request::Instance(tasks_in(matches)),
        "check" => Request::Check(CheckRequest {
            tasks: tasks_in(matches),
            plan: text(matches, "plan"),
            numbers: used(matches, "numbers"),
        }),
        "plan" => Request::Plan(PlanRequest {
            tasks: tasks_in(matches),
            horizon: used_number(matches, "horizon").unwrap_or(DEFAULT_HORIZON),
            tries: tries_in(matches),
        }),
        "compile" => Request::Compile(CompileRequest {
            tasks: tasks_in(matches),
            plan: text(matches, "plan"),
            out: text(matches, "out"),
            deps: used_deps(matches, "deps").unwrap_or(Deps::Last),
            dwell: used_count(matches, "dwell").unwrap_or(0),
        }),
        "rehearse" => Request::Rehearse(RehearseRequest {
            program: text(matches, "program"),
            holds: used_text(matches, "holds"),
        }),
        "auto" => auto_in(matches),
        "migrate" => Request::Migrate(MigrateRequest {
            program: text(matches, "program"),
            out: text(matches, "out"),
        }),
        "list" => Request::List(ListRequest {
            program: text(matches, "program"),
        }),
        _ => program_request(name, matches),
    }
}
