//! What it means that a text stands for tasks, or that a fault is its first.

ghost use Rattle.std.specs.Prelude.{◌≡◌, ℕ, List, Option, None, All};
ghost use Rattle.fleet_model.specs.declared.task.Task.{Task};
ghost use Rattle.fleet_text.specs.Verdict.{HasOneVerdict};
ghost use Rattle.fleet_grid.specs.Ground.{Ground, IsGround};
ghost use Rattle.fleet_scen.specs.Instance.{IsInstance};
ghost use Rattle.fleet_scen.specs.ScenText.{HasPassableEnds, IsScenText, IsFirstScenFault};
ghost use Rattle.fleet_scen.specs.ScenWriting.{scen_text};

/// For a map and a number asked, a text stands for one list of tasks at most, and these are an instance's.
pub fn a_scenario_text_is_one_instance()
    ensures one { (text : List ℕ) (g : Ground) (asked : Option ℕ) (s t : List Task)
        → IsScenText text g asked s → IsScenText text g asked t → s ≡ t }
    ensures instance { (text : List ℕ) (g : Ground) (asked : Option ℕ) (t : List Task)
        → IsScenText text g asked t → IsInstance t }
{}

/// A text either stands for tasks or has a first fault, never both, and it has one first fault at most.
pub fn a_text_is_a_scenario_or_has_a_first_fault()
    ensures { (text : List ℕ) (g : Ground) (asked : Option ℕ)
        → HasOneVerdict (IsScenText text g asked) (IsFirstScenFault text g asked) }
{}

/// The written form of an instance on a map stands for it: `write_scen` writes what `read_scen` reads.
pub fn a_written_scenario_is_read()
    ensures { (g : Ground) (t : List Task) → IsGround g → IsInstance t → All (HasPassableEnds g) t
        → IsScenText (scen_text g.width g.height t) g None t }
{}
