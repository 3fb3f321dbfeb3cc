//! Laws of tasks that cause tasks.

ghost use Rattle.pd_turns.specs.Turns.{Rules, World, IsRecursion, IsAgenda};

/// The bound of the recursion makes no difference.
pub fn is_recursion<K, T>()
    ensures { (r : Rules K T) → IsRecursion r }
{}

/// The recursion, and the list of what is left to do, give the same.
pub fn is_agenda<K, T>()
    ensures { (r : Rules K T) → IsAgenda r }
{}
