//! Laws of robots that are led by orders and reports. This function does nothing: its contract is the laws.

ghost use Rattle.std.specs.Prelude.{◌≡◌, ℕ, ◌≤◌, ◌++◌, ◌∷◌, [], Bool, List};
ghost use Rattle.fleet_model.specs.declared.geometry.Place.{Place};
ghost use Rattle.fleet_model.specs.declared.task.Task.{Task};
ghost use Rattle.fleet_model.specs.Program.{Program, AreInRange};
ghost use Rattle.fleet_model.specs.Visit.{ComesAfterByChain};
ghost use Rattle.fleet_model.specs.Accepted.{IsAcceptedBy};
ghost use Rattle.fleet_model.specs.Dispatch.{IsCarriedOut};
ghost use Rattle.fleet_dispatch.specs.declared.form.ReportForm.{ReportForm};
ghost use Rattle.fleet_dispatch.specs.declared.pace.Pace.{Pace};
ghost use Rattle.fleet_dispatch.specs.Report.{Words, Line};
ghost use Rattle.fleet_dispatch.specs.Ahead.{told_at};
ghost use Rattle.fleet_dispatch.specs.Orders.{new_orders};
ghost use Rattle.fleet_dispatch.specs.Dispatch.{Course, AreTaken, AreHeard, counts_now, due_orders, said_by, left_by};
ghost use Rattle.fleet_dispatch.specs.Session.{first_course};
ghost use Rattle.fleet_dispatch.specs.Replay.{IsReplayed, logged_in, AreRead};
ghost use Rattle.fleet_dispatch.specs.Lead.{none_done, dispatch_of, schedule_of, NeverFalls, IsSafelyLed, OrdersAtOnce, LeadsWell, TellsWhatIsOrdered, IsRun, resumed, SaysAlike};

/// Whatever robots do that carry out the orders of a dispatch, each once, in turn and after it was given, and whose
/// reports come after the ends of their actions, is a schedule of the program, so they are safe, however many orders
/// are given ahead. They may do so: to begin when ordered and after the action before, and to end when reported, is
/// such a schedule. No order waits longer than it has to, so they end in time. No order is taken back, agents are apart
/// wherever their orders lead them, some agent always has an order, and at the end all stand on their goals (`well`).
/// The orders that are told are those of that dispatch (`told`). With one order at a time it is the run of the machine
/// in which with each report all others are held (`machine`). A dispatch that begins where the lines of another have
/// led says the orders that are open, and then what the other would say that had heard these lines; what both heard
/// could be heard by one (`together`), so what is promised after any reports is promised after those of both. A replay
/// of what was logged leads where the talk has led (`kept`).
pub fn dispatches_lead_safely()
    ensures safely { (passable : Place → Bool) (tasks : List Task) (p : Program)
        → IsAcceptedBy ComesAfterByChain passable tasks p
        → (clock : ℕ → ℕ) (ahead : ℕ) (reports : List Words) → NeverFalls clock
        → AreTaken p ahead (none_done p) reports
        → IsSafelyLed passable p (dispatch_of clock p ahead reports) }
    ensures can { (p : Program) (clock : ℕ → ℕ) (ahead : ℕ) (reports : List Words)
        → NeverFalls clock → AreTaken p ahead (none_done p) reports
        → IsCarriedOut p (dispatch_of clock p ahead reports)
        (schedule_of clock p ahead reports) }
    ensures at_once { (p : Program) → AreInRange p
        → (clock : ℕ → ℕ) (ahead : ℕ) (reports : List Words) → 1 ≤ ahead
        → NeverFalls clock → AreTaken p ahead (none_done p) reports
        → OrdersAtOnce p (dispatch_of clock p ahead reports) (clock 0) }
    ensures well { (passable : Place → Bool) (tasks : List Task) (p : Program)
        → IsAcceptedBy ComesAfterByChain passable tasks p
        → (ahead : ℕ) (reports : List Words) → AreTaken p ahead (none_done p) reports
        → LeadsWell passable p ahead reports }
    ensures told { (p : Program) (pace : Pace) (lines : List Line)
        → AreHeard (first_course p pace) lines → TellsWhatIsOrdered p pace lines }
    ensures machine { (p : Program) (form : ReportForm) (reports : List Words)
        → AreTaken p 1 (none_done p) reports → IsRun p form reports }
    ensures resume { (d : Course) (log live : List Line) (r : Line)
        → SaysAlike d (resumed d log) (log ++ r ∷ live) (r ∷ live) }
    ensures kept { (d : Course) (lines : List Line) → AreHeard d lines → AreRead d.form lines
        → IsReplayed d (logged_in (said_by d lines)) (left_by d lines) }
    ensures together { (d : Course) (log live : List Line)
        → AreHeard d log → AreHeard (resumed d log) live → AreHeard d (log ++ live) }
    ensures orders_open { (d : Course) (log : List Line) → due_orders (resumed d log) []
        ≡ new_orders d.program d.form (counts_now d log)
        (told_at d.program d.ahead (counts_now d log)) }
{}
