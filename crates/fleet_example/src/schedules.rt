//! Schedules of small programs whose actions take times of their own, worked out by hand. These functions do nothing:
//! their contracts are the laws.

ghost use Rattle.std.specs.Prelude.{false, [], ◌∷◌};
ghost use Rattle.fleet_example.specs.Compiled.{corridor_program};
ghost use Rattle.fleet_example.specs.Programs.{await_on, nth_action, pair, late_pair, relay};
ghost use Rattle.fleet_example.specs.Schedules.{lasts, stalls_from, stopped, schedule_with, cost_of, is_second_of, IsSoonest, Stops};

/// When the actions of small programs begin and end if each begins as soon as it may: of the pair, of three robots in a
/// corridor, of the relay, and of a pair of which the first robot stays for a while.
pub fn worked_schedules_are_soonest()
    ensures pair { IsSoonest pair (λ _. false)
        (cost_of ((3 ∷ 1 ∷ []) ∷ (2 ∷ 2 ∷ []) ∷ []))
        (schedule_with (
        (lasts 0 3 ∷ lasts 3 4 ∷ [])
        ∷ (lasts 3 5 ∷ lasts 5 7 ∷ []) ∷ [])) }
    ensures corridor { IsSoonest (corridor_program (await_on 1 2 ∷ [])) (λ _. false)
        (cost_of ((2 ∷ 5 ∷ []) ∷ (1 ∷ 1 ∷ []) ∷ (4 ∷ 1 ∷ []) ∷ []))
        (schedule_with (
        (lasts 0 2 ∷ lasts 2 7 ∷ [])
        ∷ (lasts 2 3 ∷ lasts 7 8 ∷ [])
        ∷ (lasts 3 7 ∷ lasts 8 9 ∷ []) ∷ [])) }
    ensures relay { IsSoonest relay (λ _. false)
        (cost_of ((4 ∷ []) ∷ (1 ∷ []) ∷ (2 ∷ []) ∷ []))
        (schedule_with ((lasts 0 4 ∷ []) ∷ (lasts 4 5 ∷ []) ∷ (lasts 5 7 ∷ []) ∷ [])) }
    ensures stay { IsSoonest late_pair (λ _. false)
        (cost_of ((5 ∷ 1 ∷ 1 ∷ []) ∷ (1 ∷ 3 ∷ []) ∷ []))
        (schedule_with (
        (lasts 0 5 ∷ lasts 5 6 ∷ lasts 6 7 ∷ [])
        ∷ (lasts 6 7 ∷ lasts 7 10 ∷ []) ∷ [])) }
{}

/// The second robot in the corridor never ends its second action. The first one arrives as before, and the third is
/// stopped before its last action alone; it is so in every schedule.
pub fn a_broken_robot_stops_those_behind_it()
    ensures schedule { IsSoonest (corridor_program (await_on 1 2 ∷ [])) (is_second_of 1)
        (cost_of ((2 ∷ 5 ∷ []) ∷ (1 ∷ 1 ∷ []) ∷ (4 ∷ 1 ∷ []) ∷ []))
        (schedule_with (
        (lasts 0 2 ∷ lasts 2 7 ∷ [])
        ∷ (lasts 2 3 ∷ stalls_from 7 ∷ [])
        ∷ (lasts 3 7 ∷ stopped ∷ []) ∷ [])) }
    ensures always { Stops (corridor_program (await_on 1 2 ∷ [])) (nth_action 1 2) (nth_action 2 2) }
{}
