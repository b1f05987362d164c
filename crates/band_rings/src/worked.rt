//! Worked examples of lanes.
#![tactic(auto, unfolding(crate::specs::Unfold::everything))]

ghost use Rattle.std.specs.Prelude.{◌≡◌, ◌∷◌, []};
ghost use Rattle.band_rings.specs.Lane.{Step, fresh, after};
ghost use Rattle.band_rings.specs.Lane.Step.{Push, Pop};

/// Of two numbers sent, one was received and one is left.
pub fn one_of_two_is_received()
    ensures { after fresh (Push 5 ∷ Push 6 ∷ Pop ∷ []) ≡ record { sent = 5 ∷ 6 ∷ []; received = 5 ∷ []; rest = 6 ∷ [] } }
{}

/// A number isn't received before it was sent.
pub fn nothing_is_received_early()
    ensures { after fresh (Pop ∷ Push 5 ∷ Pop ∷ Pop ∷ Push 6 ∷ Pop ∷ []) ≡ record { sent = 5 ∷ 6 ∷ []; received = 5 ∷ 6 ∷ []; rest = [] } }
{}
