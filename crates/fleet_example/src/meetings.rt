//! Visits of small programs that have no order, with the holds that bring their agents together, and awaits that others
//! imply. These functions do nothing: their contracts are the laws.

ghost use Rattle.std.specs.Prelude.{[], ◌∷◌};
ghost use Rattle.fleet_verify.specs.Reduced.{IsThinned};
ghost use Rattle.fleet_example.specs.Meetings.{loose_relay, tight_relay, MeetBy};
ghost use Rattle.fleet_example.specs.Programs.{place_xy, nth_visit, pair, rash_pair, early_pair, hasty_pair, blocked_pair, relay};

/// Two visits without an order in small programs, and the holds that bring their agents onto the place.
#[tactic(auto, using(crate::proofs::UnorderedPairs::rash_visits, crate::proofs::UnorderedPairs::early_visits, crate::proofs::UnorderedPairs::hasty_visits, crate::proofs::UnorderedPairs::blocked_visits, crate::proofs::UnorderedPairs::relayed_visits))]
pub fn worked_visits_meet()
    ensures setting_out { MeetBy rash_pair (place_xy 1 0) (nth_visit 0 0) (nth_visit 1 1)
        ((0 ∷ []) ∷ []) }
    ensures coming { MeetBy early_pair (place_xy 2 0) (nth_visit 0 1) (nth_visit 1 2)
        ([] ∷ (0 ∷ []) ∷ (0 ∷ []) ∷ []) }
    ensures staying { MeetBy hasty_pair (place_xy 1 0) (nth_visit 0 0) (nth_visit 1 1)
        ([] ∷ (0 ∷ []) ∷ []) }
    ensures never_leaving { MeetBy blocked_pair (place_xy 1 0) (nth_visit 0 0) (nth_visit 1 1)
        ([] ∷ []) }
    ensures relayed { MeetBy loose_relay (place_xy 1 0) (nth_visit 0 0) (nth_visit 2 1)
        ((0 ∷ []) ∷ (0 ∷ []) ∷ []) }
{}

/// Small programs without their implied awaits. An await is not implied by one that an earlier action has of the same
/// agent, with a smaller count.
pub fn worked_programs_are_thinned()
    ensures relay { IsThinned tight_relay relay }
    ensures pair { IsThinned pair pair }
{}
