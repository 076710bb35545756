//! Small programs, worked out by hand. These functions do nothing: their contracts are the laws.

ghost use Rattle.std.specs.Prelude.{◌≡◌, ℕ, negsuc, pos, ◌+◌, ◌<◌, ◌≤◌, List, length, [], ◌∷◌, IsTrue};
ghost use Rattle.fleet_model.specs.declared.program.ActionId.{ActionId};
ghost use Rattle.fleet_model.specs.declared.task.Task.{Task};
ghost use Rattle.fleet_model.specs.declared.program.Visit.{Visit};
ghost use Rattle.fleet_model.specs.Program.{Program, path};
ghost use Rattle.fleet_model.specs.Machine.{Holds, opening, run, held_ticks, is_stuck, IsFinish, IsEnd};
ghost use Rattle.fleet_model.specs.Chain.{IsLevel, IsLongestChain, IsNumbering};
ghost use Rattle.fleet_model.specs.Visit.{leaving, IsVisit, IsLongestRun, ListsVisits, ComesAfterByAwait, ComesAfterByChain};
ghost use Rattle.fleet_model.specs.Accepted.{IsRight, IsAcceptedBy};
ghost use Rattle.fleet_model.specs.Conflict.{HasVertexConflict, HasFollowingConflict, HasSwappingConflict, HasCycleConflict};
ghost use Rattle.fleet_model.specs.Run.{motion};
ghost use Rattle.fleet_example.specs.Programs.{place_xy, nth_action, nth_visit, is_on_open_map, pair, pair_tasks, rash_pair, early_pair, late_pair, hasty_pair, staying_pair, sentry, blocked_pair, blocked_tasks, deadlock, idler, relay, relay_tasks, excursion, exchange, carousel, both_held, ShowsPlaces, RunsAs, HasNoOrder, IsRefusedAlways, IsRefusedAt};

/// Agent 1 of the pair waits for one tick. To hold it in that tick changes nothing, and to hold agent 0 costs a tick.
pub fn pair_runs()
    ensures nobody_held { RunsAs pair [] (
        (place_xy 1 0 ∷ place_xy 0 0 ∷ [])
        ∷ (place_xy 2 0 ∷ place_xy 0 0 ∷ [])
        ∷ (place_xy 3 0 ∷ place_xy 1 0 ∷ [])
        ∷ (place_xy 3 0 ∷ place_xy 2 0 ∷ []) ∷ []) 3 0 }
    ensures waiting_agent_held { RunsAs pair ((1 ∷ []) ∷ []) (
        (place_xy 1 0 ∷ place_xy 0 0 ∷ [])
        ∷ (place_xy 2 0 ∷ place_xy 0 0 ∷ [])
        ∷ (place_xy 3 0 ∷ place_xy 1 0 ∷ [])
        ∷ (place_xy 3 0 ∷ place_xy 2 0 ∷ []) ∷ []) 3 0 }
    ensures ready_agent_held { RunsAs pair ((0 ∷ []) ∷ []) (
        (place_xy 1 0 ∷ place_xy 0 0 ∷ [])
        ∷ (place_xy 1 0 ∷ place_xy 0 0 ∷ [])
        ∷ (place_xy 2 0 ∷ place_xy 0 0 ∷ [])
        ∷ (place_xy 3 0 ∷ place_xy 1 0 ∷ [])
        ∷ (place_xy 3 0 ∷ place_xy 2 0 ∷ []) ∷ []) 4 1 }
{}

/// However long both agents of the pair are held, they stand still for as long and finish three ticks later.
#[tactic(auto, using(crate::proofs::ProgramRuns::pair_stands, crate::proofs::ProgramRuns::pair_held))]
pub fn held_pair_runs()
    ensures still { (n t : ℕ) → t ≤ n → run pair (both_held n) t ≡ opening pair }
    ensures finish { (n : ℕ) → IsFinish pair (both_held n) (n + 3) }
    ensures held { (n : ℕ) → held_ticks pair (both_held n) (n + 3) ≡ n }
{}

/// The machine knows no cells: agent 1 goes through the cell on which agent 0 stands.
pub fn blocked_pair_runs()
    ensures { RunsAs blocked_pair [] (
        (place_xy 1 0 ∷ place_xy 0 0 ∷ [])
        ∷ (place_xy 1 0 ∷ place_xy 1 0 ∷ [])
        ∷ (place_xy 1 0 ∷ place_xy 2 0 ∷ []) ∷ []) 2 0 }
{}

/// A stay takes a tick, as a move does. Stays after the last move put off the finish.
pub fn stays_take_ticks()
    ensures before { RunsAs late_pair [] (
        (place_xy 1 0 ∷ place_xy 0 0 ∷ [])
        ∷ (place_xy 1 0 ∷ place_xy 0 0 ∷ [])
        ∷ (place_xy 2 0 ∷ place_xy 0 0 ∷ [])
        ∷ (place_xy 3 0 ∷ place_xy 1 0 ∷ [])
        ∷ (place_xy 3 0 ∷ place_xy 2 0 ∷ []) ∷ []) 4 0 }
    ensures after { RunsAs staying_pair [] (
        (place_xy 1 0 ∷ place_xy 0 0 ∷ [])
        ∷ (place_xy 2 0 ∷ place_xy 0 0 ∷ [])
        ∷ (place_xy 3 0 ∷ place_xy 1 0 ∷ [])
        ∷ (place_xy 3 0 ∷ place_xy 2 0 ∷ [])
        ∷ (place_xy 3 0 ∷ place_xy 2 0 ∷ [])
        ∷ (place_xy 3 0 ∷ place_xy 2 0 ∷ []) ∷ []) 5 0 }
{}

/// Agents that await each other are stuck from the start, whatever is held.
pub fn deadlock_is_stuck()
    ensures places { ShowsPlaces deadlock [] ((place_xy 1 0 ∷ place_xy 0 0 ∷ []) ∷ []) }
    ensures end { (holds : Holds) → IsEnd deadlock holds 0 }
    ensures stuck { (holds : Holds) (t : ℕ) → IsTrue (is_stuck deadlock (run deadlock holds t)) }
{}

/// An agent with nothing to do is finished at once, whatever is held.
pub fn idler_is_finished()
    ensures { (holds : Holds) → RunsAs idler holds ((place_xy 0 0 ∷ []) ∷ []) 0 0 }
{}

/// Each agent of the relay moves in the tick after the one that it awaits.
pub fn relay_runs()
    ensures { RunsAs relay [] (
        (place_xy 1 0 ∷ place_xy 0 2 ∷ place_xy 0 0 ∷ [])
        ∷ (place_xy 2 0 ∷ place_xy 0 2 ∷ place_xy 0 0 ∷ [])
        ∷ (place_xy 2 0 ∷ place_xy 1 2 ∷ place_xy 0 0 ∷ [])
        ∷ (place_xy 2 0 ∷ place_xy 1 2 ∷ place_xy 1 0 ∷ []) ∷ []) 3 0 }
{}

/// A place may lie off the map.
pub fn excursion_runs()
    ensures { RunsAs excursion [] (
        (place_xy 0 0 ∷ [])
        ∷ (record { x = negsuc 0; y = pos 0 } ∷ [])
        ∷ (place_xy 0 0 ∷ []) ∷ []) 2 0 }
{}

/// Two agents on one place. Each pair that is refused below comes to that, three of them only while agent 0 is held.
pub fn vertex_conflicts_are_found()
    ensures vertex { HasVertexConflict (motion blocked_pair []) 1 0 1 }
    ensures vertex_when_held { HasVertexConflict (motion rash_pair ((0 ∷ []) ∷ [])) 1 0 1 }
    ensures vertex_when_held_later { HasVertexConflict
        (motion early_pair ([] ∷ (0 ∷ []) ∷ (0 ∷ []) ∷ [])) 3 0 1 }
    ensures vertex_when_staying { HasVertexConflict (motion hasty_pair ([] ∷ (0 ∷ []) ∷ [])) 2 0 1 }
{}

/// One conflict of each other kind.
pub fn conflicts_are_found()
    ensures following { HasFollowingConflict (motion blocked_pair []) 0 1 0 }
    ensures swapping { HasSwappingConflict (motion exchange []) 0 0 1 }
    ensures cycle { HasCycleConflict (motion carousel []) 0 (0 ∷ 1 ∷ 2 ∷ 3 ∷ []) }
{}

/// The levels of the pair's actions, and the length of its longest chain.
pub fn pair_levels()
    ensures first_of_0 { IsLevel pair (nth_action 0 1) 1 }
    ensures second_of_0 { IsLevel pair (nth_action 0 2) 2 }
    ensures first_of_1 { IsLevel pair (nth_action 1 1) 2 }
    ensures second_of_1 { IsLevel pair (nth_action 1 2) 3 }
    ensures longest { IsLongestChain pair 3 }
{}

/// The levels of the relay's actions, and the length of its longest chain.
pub fn relay_levels()
    ensures of_0 { IsLevel relay (nth_action 0 1) 1 }
    ensures of_1 { IsLevel relay (nth_action 1 1) 2 }
    ensures of_2 { IsLevel relay (nth_action 2 1) 3 }
    ensures longest { IsLongestChain relay 3 }
{}

/// The visits of each cell of the pair's map.
pub fn pair_visits()
    ensures at_0 { ListsVisits pair (place_xy 0 0) (nth_visit 1 0 ∷ []) }
    ensures at_1 { ListsVisits pair (place_xy 1 0) (nth_visit 0 0 ∷ nth_visit 1 1 ∷ []) }
    ensures at_2 { ListsVisits pair (place_xy 2 0) (nth_visit 0 1 ∷ nth_visit 1 2 ∷ []) }
    ensures at_3 { ListsVisits pair (place_xy 3 0) (nth_visit 0 2 ∷ []) }
{}

/// A visit is a longest run of positions on one place, named by the first of them and left by the action after it.
pub fn visits_are_longest_runs()
    ensures run { (p : Program) (v : Visit) → IsVisit p v → (l : ℕ) × ((leaving p v).number ≡ l + 1)
        × IsLongestRun p v.agent v.position l }
    ensures all { (p : Program) (i first last : ℕ) → i < length p → IsLongestRun p i first last
        → IsVisit p (nth_visit i first) × ((leaving p (nth_visit i first)).number ≡ last + 1) }
{}

/// A stay begins no visit. To come back to a place does, also if the agent stayed on it before.
pub fn stays_are_no_visits()
    ensures at_1 { ListsVisits late_pair (place_xy 1 0) (nth_visit 0 0 ∷ nth_visit 1 1 ∷ []) }
    ensures at_2 { ListsVisits late_pair (place_xy 2 0) (nth_visit 0 2 ∷ nth_visit 1 2 ∷ []) }
    ensures last { ListsVisits staying_pair (place_xy 2 0) (nth_visit 0 1 ∷ nth_visit 1 2 ∷ []) }
    ensures back { ListsVisits sentry (place_xy 0 0) (nth_visit 0 0 ∷ nth_visit 0 3 ∷ []) }
{}

/// A visit is left by the first move after its stays. The last one is never left: its action would come after the
/// agent's last.
pub fn moves_leave_visits()
    ensures left { leaving late_pair (nth_visit 0 0) ≡ nth_action 0 2 }
    ensures left_first { leaving sentry (nth_visit 0 0) ≡ nth_action 0 2 }
    ensures never_left { leaving sentry (nth_visit 0 3) ≡ nth_action 0 5 }
{}

/// Pairs that stay are accepted if agent 1 awaits the moves of agent 0, and the longest chain counts the stays.
pub fn staying_pairs_are_accepted()
    ensures before { IsAcceptedBy ComesAfterByChain (is_on_open_map 4 1) pair_tasks late_pair }
    ensures before_longest { IsLongestChain late_pair 4 }
    ensures after { IsAcceptedBy ComesAfterByAwait (is_on_open_map 4 1) pair_tasks staying_pair }
    ensures after_longest { IsLongestChain staying_pair 5 }
{}

/// To await a stay is not enough: the cell 1,0 has no order, and this alone is wrong.
#[tactic(auto, using(crate::proofs::UnorderedPairs::hasty_refused))]
pub fn hasty_pair_is_refused()
    ensures { IsRefusedAt (is_on_open_map 4 1) pair_tasks hasty_pair (place_xy 1 0) }
{}

/// The pair is accepted on a map of four open cells in a row.
pub fn pair_is_accepted()
    ensures by_await { IsAcceptedBy ComesAfterByAwait (is_on_open_map 4 1) pair_tasks pair }
    ensures by_chain { IsAcceptedBy ComesAfterByChain (is_on_open_map 4 1) pair_tasks pair }
{}

/// The relay is accepted on an open map of nine cells by chains. Direct awaits give the cell 1,0 no order.
pub fn relay_is_accepted_by_chain()
    ensures by_chain { IsAcceptedBy ComesAfterByChain (is_on_open_map 3 3) relay_tasks relay }
    ensures not_by_await { HasNoOrder ComesAfterByAwait relay (place_xy 1 0) }
{}

/// Without agent 1's first await the pair has no order on the cell 1,0, and this alone is wrong with it.
#[tactic(auto, using(crate::proofs::UnorderedPairs::rash_refused))]
pub fn rash_pair_is_refused()
    ensures { IsRefusedAt (is_on_open_map 4 1) pair_tasks rash_pair (place_xy 1 0) }
{}

/// To await an arrival is not enough: the cell 2,0 has no order, and this alone is wrong.
#[tactic(auto, using(crate::proofs::UnorderedPairs::early_refused))]
pub fn early_pair_is_refused()
    ensures { IsRefusedAt (is_on_open_map 4 1) pair_tasks early_pair (place_xy 2 0) }
{}

/// A start is a visit too: the cell 1,0, on which an agent stands for good, has no order, and this alone is wrong.
#[tactic(auto, using(crate::proofs::UnorderedPairs::blocked_refused))]
pub fn blocked_pair_is_refused()
    ensures { IsRefusedAt (is_on_open_map 4 1) blocked_tasks blocked_pair (place_xy 1 0) }
{}

/// To leave the map and come back is refused.
pub fn excursion_is_refused()
    ensures away { path excursion 0 1 ≡ record { x = negsuc 0; y = pos 0 } }
    ensures refused { (columns rows : ℕ) (tasks : List Task)
        → IsRight (is_on_open_map columns rows) tasks excursion → ⊥ }
{}

/// Agents that await each other have no numbering.
pub fn deadlock_is_refused()
    ensures right { IsRight (is_on_open_map 4 1) pair_tasks deadlock }
    ensures not_numbered { (number : ActionId → ℕ) → IsNumbering deadlock number → ⊥ }
    ensures refused { IsRefusedAlways deadlock }
{}
