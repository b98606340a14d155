//! What holds of every scope that is answered.

ghost use Rattle.cal_imports.specs.CallOrder.{CallsHaveAnOrder, IsAnswered};
ghost use Rattle.cal_imports.specs.Whole.{Scope};

/// In a scope that [`resolve`](crate::resolve) answers, all functions and procedures have an order in which each stands
/// behind those that it calls. So none calls itself, directly or indirectly.
pub fn scopes_have_an_order()
    ensures { (scope : Scope) → IsAnswered scope → CallsHaveAnOrder scope }
{}
