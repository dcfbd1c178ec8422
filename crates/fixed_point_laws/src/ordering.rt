//! The order of the procedures of a structured program.

ghost use Rattle.fixed_point_laws.specs.Ordering.{PlansGoByPlaces};

/// The plan of a structured program has the paragraphs in their order, where each of them is
/// entered.
pub fn plans_go_by_places()
    ensures { PlansGoByPlaces }
{}
