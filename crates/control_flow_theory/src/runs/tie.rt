//! When two meanings are tied.

ghost use Rattle.std.specs.Prelude.{ℕ, ◌↔◌};
ghost use Rattle.control_flow_theory.specs.runs.Run.{Run, IsOver, Begins, Covers};
ghost use Rattle.control_flow_theory.specs.runs.Tied.{Meaning, Steady, Tied, Paced, ComesTo, EndAlike};

/// A run covers itself, and what covers a covering run covers the first one.
pub fn covers_compose<Event, End>()
    ensures itself { (a : Run Event End) → Covers a a }
    ensures composes { (a b c : Run Event End) → Covers a b → Covers b c → Covers a c }
{}

/// A meaning that never shows less with more steps is tied to itself.
pub fn a_steady_meaning_is_tied_to_itself<World, Event, End>()
    ensures { (a : Meaning World Event End) → Steady a → Tied a a }
{}

/// A tie holds in both directions.
pub fn ties_turn_round<World, Event, End>()
    ensures { (a b : Meaning World Event End) → Tied a b → Tied b a }
{}

/// What is tied to the same meaning is tied.
pub fn ties_compose<World, Event, End>()
    ensures { (a b c : Meaning World Event End) → Tied a b → Tied b c → Tied a c }
{}

/// Two meanings are tied where each number of steps of the first has a number of steps of the
/// second with the same run, at a similar pace.
pub fn paced_is_tied<World, Event, End>()
    ensures { (a b : Meaning World Event End) → Steady b → Paced a b → Tied a b }
{}

/// Two meanings are tied where in every world they come to the same run, which is over, each within
/// a number of steps fixed beforehand.
pub fn ended_alike_is_tied<World, Event, End>()
    ensures { (a b : Meaning World Event End) → Steady a → Steady b → EndAlike a b → Tied a b }
{}

/// What tied meanings have in common, without the numbers: what one shows the other comes to show,
/// and they come to the same runs that are over, or neither ends.
pub fn tied_meanings_do_the_same<World, Event, End>()
    ensures show { (a b : Meaning World Event End) → Tied a b →
        (world : World) (n : ℕ) → (k : ℕ) × Begins (a world n).trace (b world k).trace }
    ensures end { (a b : Meaning World Event End) → Tied a b →
        (world : World) (run : Run Event End) → IsOver run → (ComesTo a world run)
        ↔ (ComesTo b world run) }
{}

/// Meanings stay tied where their world is computed from another one.
pub fn ties_hold_in_other_worlds<World, Event, End, Other>()
    ensures { (world_of : Other → World) (a b : Meaning World Event End) → Tied a b →
        Tied {World = Other} (λ w. a (world_of w)) (λ w. b (world_of w)) }
{}
