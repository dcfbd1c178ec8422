//! What a machine does in many steps, and when one machine does what another does.

ghost use Rattle.std.specs.Prelude.{ℕ, ◌≡◌, ◌+◌};
ghost use Rattle.control_flow_theory.specs.runs.Run.{IsOver, Covers};
ghost use Rattle.control_flow_theory.specs.runs.Tied.{Steady, Tied};
ghost use Rattle.control_flow_theory.specs.runs.Machine.{iterate, Reaches, Machine, meaning, Grows, Simulates};

/// Steps compose: their numbers add up, and what a reached state reaches is reached.
pub fn runs_compose<State>()
    ensures counted { (step : State → State) (k n : ℕ) (s : State) →
        iterate step (k + n) s ≡ iterate step n (iterate step k s) }
    ensures itself { (step : State → State) (s : State) → Reaches step s s }
    ensures stepped { (step : State → State) (s t : State) → Reaches step (step s) t →
        Reaches step s t }
    ensures composes { (step : State → State) (s t u : State) →
        Reaches step s t → Reaches step t u → Reaches step s u }
{}

/// With more steps a machine shows at least as much.
pub fn more_steps_show_more<World, Event, End, State>()
    ensures steady { (machine : Machine World Event End State) → Grows machine →
        Steady (meaning machine) }
    ensures reached { (machine : Machine World Event End State) → Grows machine →
        (s t : State) → Reaches machine.step s t → Covers (machine.run s) (machine.run t) }
{}

/// A state that is over stays, and at most one such state is reached from any state.
pub fn what_is_over_stays<World, Event, End, State>()
    ensures stays { (machine : Machine World Event End State) → Grows machine →
        (n : ℕ) (s : State) → IsOver (machine.run s) → iterate machine.step n s ≡ s }
    ensures one { (machine : Machine World Event End State) → Grows machine →
        (s t u : State) → IsOver (machine.run t) → IsOver (machine.run u) →
        Reaches machine.step s t → Reaches machine.step s u → t ≡ u }
{}

/// A relation between the states of two machines.
pub trait Relation<First, Second> {
    ghost related: { First → Second → Type 0 };
}

/// A machine is tied to one that simulates it, under any relation between their states.
pub fn simulated_is_tied<World, Event, End, First, Second, R: Relation<First, Second>>()
    ensures { (a : Machine World Event End First) (b : Machine World Event End Second) →
        Grows a → Grows b → Simulates a b R.related → Tied (meaning a) (meaning b) }
{}
