//! Refusals of the program, with their statuses and lines, and those of `auto_run`.

ghost use Rattle.std.specs.Prelude.{◌≡◌};
ghost use Rattle.fleet_text.specs.Sink.{IsWorking, Receives};
ghost use Rattle.fleet_cli.specs.{Output.Finishes, Faults.refusal_line, Faults.status_of};

use fleet_adg::CompileFault;
use fleet_code::{HexFault, LoadFault};
use fleet_dispatch::{DispatchFault, TimesFault};
use fleet_grid::MapFault;
use fleet_model::OutOfMemory;
use fleet_plan::{PlanFault, TextFault};
use fleet_run::RunFault;
use fleet_scen::ScenFault;
use fleet_search::PlanStop;
use fleet_text::{OutFault, Refusal, TraceOut, Word, put_line, put_memory};
use fleet_verify::VerifyFault;
use thiserror::Error;

/// What was made, unless it was refused: then the function returns the refusal.
macro_rules! or_refuse {
    ($made:expr, $refusal:path) => {
        match $made {
            Ok(made) => made,
            Err(fault) => return Err($refusal(fault)),
        }
    };
}

pub(crate) use or_refuse;

/// Every refusal of the program but usage and help. `File` names the file that cannot be read or written, and is `-`
/// for the standard streams.
#[derive(Debug, Drop, Error)]
pub enum Fault<'a> {
    #[error(transparent)]
    Map(MapFault),
    #[error(transparent)]
    Scen(ScenFault),
    #[error(transparent)]
    Text(TextFault),
    #[error(transparent)]
    Check(PlanFault),
    #[error(transparent)]
    Search(PlanStop),
    #[error(transparent)]
    Hex(HexFault),
    #[error(transparent)]
    Load(LoadFault),
    #[error(transparent)]
    Compile(CompileFault),
    #[error(transparent)]
    Verify(VerifyFault),
    #[error(transparent)]
    Run(RunFault),
    #[error(transparent)]
    Dispatch(DispatchFault),
    #[error(transparent)]
    Times(TimesFault),
    #[error("out of memory")]
    Memory,
    #[error("the file {0} cannot be read or written")]
    File(&'a str),
}

impl From<OutOfMemory> for Fault<'_> {
    ghost use Rattle.std.specs.Prelude.{◌≡◌};
    ghost use Rattle.fleet_cli.specs.declared.fault.Fault.TheVariants.{Memory};

    ghost from_gives = { λ _ e. e ≡ Memory };

    fn from(_e: OutOfMemory) -> Self {
        Fault::Memory
    }
}

impl Refusal for Fault<'_> {
    ghost use Rattle.fleet_cli.specs.Faults.{words_of, is_failure_of};

    ghost words = { words_of };

    ghost is_failure = { is_failure_of };

    fn put<O: TraceOut>(&self, out: &mut O) -> Result<(), OutFault> {
        match self {
            Fault::Map(fault) => fault.put(out),
            Fault::Scen(fault) => fault.put(out),
            Fault::Text(fault) => fault.put(out),
            Fault::Check(fault) => fault.put(out),
            Fault::Search(stop) => stop.put(out),
            Fault::Hex(fault) => fault.put(out),
            Fault::Load(fault) => fault.put(out),
            Fault::Compile(fault) => fault.put(out),
            Fault::Verify(fault) => fault.put(out),
            Fault::Run(fault) => fault.put(out),
            Fault::Dispatch(fault) => fault.put(out),
            Fault::Times(fault) => fault.put(out),
            Fault::Memory => put_memory(out),
            Fault::File(name) => put_line(out, &[Word::Text("file"), Word::Text(name)]),
        }
    }

    fn is_failure(&self) -> bool {
        match self {
            Fault::Map(fault) => fault.is_failure(),
            Fault::Scen(fault) => fault.is_failure(),
            Fault::Text(fault) => fault.is_failure(),
            Fault::Check(fault) => fault.is_failure(),
            Fault::Search(stop) => stop.is_failure(),
            Fault::Hex(fault) => fault.is_failure(),
            Fault::Load(fault) => fault.is_failure(),
            Fault::Compile(fault) => fault.is_failure(),
            Fault::Verify(fault) => fault.is_failure(),
            Fault::Run(fault) => fault.is_failure(),
            Fault::Dispatch(fault) => fault.is_failure(),
            Fault::Times(fault) => fault.is_failure(),
            Fault::Memory | Fault::File(_) => true,
        }
    }
}

impl Fault<'_> {
    /// 3 if memory, a file, the source or the sink failed, and 1 for every other refusal.
    pub fn status(&self) -> u8
        ensures { result ≡ status_of self.now }
    {
        if self.is_failure() { 3 } else { 1 }
    }

    /// Writes the refusal's line: the part, the refusal's number, its name, then each field's name and value. If the
    /// sink fails, it has taken a proper prefix of the line.
    pub fn tell<E: TraceOut>(&self, err: &mut E)
        requires { IsWorking (E.state err.old) }
        ensures { Receives (E.state err.old) (E.state err.new) (refusal_line self.now) }
    {
        let _ = self.put(err);
    }
}

/// Writes the line of the refusal, and answers its status.
pub fn refuse<E: TraceOut>(fault: &Fault<'_>, err: &mut E) -> u8
    requires { IsWorking (E.state err.old) }
    ensures status { result ≡ status_of fault.now }
    ensures written { Receives (E.state err.old) (E.state err.new) (refusal_line fault.now) }
{
    fault.tell(err);
    fault.status()
}

/// Ends a command: answers the status with which it is done, or writes the line of its refusal and answers the
/// refusal's status.
pub fn finish<E: TraceOut>(done: Result<u8, Fault<'_>>, err: &mut E) -> u8
    requires { IsWorking (E.state err.old) }
    ensures { Finishes done.entry (E.state err.old) (E.state err.new) result }
{
    match done {
        Ok(status) => status,
        Err(fault) => refuse(&fault, err),
    }
}

/// The refusal of the first step that refuses. Want of memory in any step is `OutOfMemory`.
#[derive(Clone, Copy, Debug, Error)]
pub enum AutoFault {
    #[error("out of memory")]
    OutOfMemory,
    /// The map's text is no map.
    #[error("the map: {0}")]
    Map(MapFault),
    /// The scenario's text is no scenario on the map.
    #[error("the scenario: {0}")]
    Scen(ScenFault),
    /// An agent is left without a path.
    #[error("the plan: {0}")]
    Plan(PlanStop),
    /// The agents of the plan make too many moves.
    #[error("the program: {0}")]
    Compile(CompileFault),
    /// The run stopped before its end.
    #[error("the run: {0}")]
    Run(RunFault),
}
