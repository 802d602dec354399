// Whether a binding has an effect.
ghost use Rattle.std.specs.Prelude.{◌≡◌, ◌<◌, List, ℕ};
ghost use Rattle.prepared.specs.internal.Drawn.{its_net};
ghost use Rattle.bindings.specs.Effect.{legal};
ghost use Rattle.bindings.specs.internal.Bindings.{Binds, binding};
ghost use Rattle.bindings.specs.internal.Legal.{every_row};

use plan::guard_of;
use prepared::Transition;

// Whether a transition's binding has an effect: it has no guard, or its guard holds.
pub fn has_effect(transition: &Transition, env: &[u8; 32]) -> bool
    ensures { (colours : List ℕ) → Binds (its_net transition.now) (binding transition.now.number colours) env.now
        → result ≡ legal (its_net transition.now) (binding transition.now.number colours) }
{
    match transition.guard() {
        None => true,
        Some(guard) => transition.bound(env).guard_at(16, guard).holds,
    }
}

// Whether each of a transition's bindings has an effect, whatever its colours: it has no guard.
pub fn every_binding_has_row(plan: &[u32; 3584], t: usize) -> bool
    requires { t < 32 }
    ensures { result ≡ every_row plan.now t }
{
    guard_of(plan, t).is_none()
}
