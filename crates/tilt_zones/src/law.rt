// Laws of moments and local times.
ghost use Rattle.std.specs.Prelude.{◌≡◌, ℤ, Option, Some};
ghost use Rattle.tilt_zones.specs.Order.{IsInOrder};
ghost use Rattle.tilt_zones.specs.Zone.{IsMomentOf, ZoneParts, local_at};
ghost use Rattle.tilt_zones.specs.declared.moments.Fold.{Fold};

/// This does nothing. Its clauses are laws of the definitions. At the moment that a local time means, clocks show that local time. A local
/// time means at most one moment. And in a zone whose transitions are in order, each moment is meant by the local time that clocks show
/// then, with one fold or the other.
pub fn each_is_the_inverse()
    ensures back { (zone : ZoneParts) (local moment : ℤ) (fold : Option Fold) → IsMomentOf zone local fold moment
        → local_at zone moment ≡ local }
    ensures one { (zone : ZoneParts) (local m n : ℤ) (fold : Option Fold) → IsMomentOf zone local fold m → IsMomentOf zone local fold n
        → m ≡ n }
    ensures forth { (zone : ZoneParts) (moment : ℤ) → IsInOrder zone.first zone.transitions
        → (fold : Fold) × IsMomentOf zone (local_at zone moment) (Some fold) moment }
{}
