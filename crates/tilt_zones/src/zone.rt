// A zone, and the two ways between moments and local times.
ghost use Rattle.std.specs.Prelude.{◌≡◌, ◌↔◌, ◌≤ℤ◌, ◌<ℤ◌, ◌⊎◌, FitsSigned, IfOk, IfSome, IsNone, MatchResult, Some};
ghost use Rattle.std.specs.Int.{w64};
ghost use Rattle.tilt_zones.specs.Order.{IsInOrder};
ghost use Rattle.tilt_zones.specs.Taken.{IsByOffset, IsOfSkipped, moment_by, moment_taken};
ghost use Rattle.tilt_zones.specs.Zone.{IsBeyond, IsDoubled, IsKnown, IsMomentOf, IsShownAt, IsSkipped, local_at, offset_at};

use crate::fault::{LocalFault, ZoneFault};
use crate::moments::{Fold, chosen, moment_by, moments_of};
use crate::order::{is_in_order, offset_after};
use crate::place::count_at;
use crate::transition::Transition;
use std::alloc::{AllocError, Global};
use std::marker::Model;

/// What clocks of a place show: how far they are ahead of UTC before the first transition, and from each transition on. The transitions
/// are in order, as `IsInOrder` says.
#[derive(Debug, Drop)]
pub struct Zone {
    first: i32,
    transitions: Vec<Transition>,
    end: i64,
}

impl Model for Zone {
    ghost use Rattle.tilt_zones.specs.Order.{IsInOrder};
    ghost use Rattle.tilt_zones.specs.Zone.{ZoneParts};

    ghost Value = { ZoneParts };

    ghost view = { λ z. record { first = z.first; transitions = z.transitions.items; end = z.end } };

    ghost invariant = { λ z. IsInOrder z.first z.transitions.items };
}

impl Zone {
    /// A zone of this offset and these transitions. They say what clocks show before `end`.
    pub fn new(first: i32, transitions: Vec<Transition>, end: i64) -> Result<Zone, ZoneFault>
        ensures { MatchResult result
            (λ zone. IsInOrder first transitions.items × (zone ≡ record { first = first; transitions = transitions.items; end = end }))
            (λ fault. (¬ (IsInOrder first transitions.items)) × (fault ≡ ZoneFault.Disordered)) }
    {
        if !is_in_order(first, &transitions) {
            return Err(ZoneFault::Disordered);
        }
        Ok(Zone {
            first,
            transitions,
            end,
        })
    }

    /// How far clocks are ahead of UTC at a moment, in seconds.
    pub fn offset_at(&self, moment: i64) -> i32
        ensures { result ≡ offset_at self.now moment }
    {
        let count = count_at(&self.transitions, moment);
        offset_after(self.first, &self.transitions, count)
    }

    /// The local time that clocks show at a moment. `None` if the table doesn't say it, or if it doesn't fit 64 bits.
    pub fn local_of(&self, moment: i64) -> Option<i64>
        ensures some { IfSome result (λ local. IsShownAt self.now local moment × IsKnown self.now moment) }
        ensures none { IsNone result ↔ (self.now.end ≤ℤ moment ⊎ ¬ (FitsSigned w64 (local_at self.now moment))) }
    {
        if moment >= self.end {
            return None;
        }
        moment.checked_add(i64::from(self.offset_at(moment)))
    }

    /// The moment at which clocks show a local time. If there are several, `fold` says which one is meant.
    pub fn moment_of_local(&self, local: i64, fold: Option<Fold>) -> Result<i64, LocalFault>
        ensures moment { IfOk result (λ m. IsMomentOf self.now local fold m × IsKnown self.now m) }
        ensures skipped { (result ≡ Err LocalFault.Skipped) ↔ IsSkipped self.now local }
        ensures doubled { (result ≡ Err LocalFault.Doubled) ↔ ((fold ≡ None) × IsDoubled self.now local) }
        ensures beyond { (result ≡ Err LocalFault.Beyond) ↔ IsBeyond self.now local fold }
    {
        let moments = moments_of(self.first, &self.transitions, local);
        match chosen(moments, fold) {
            Ok(moment) => known(moment, self.end),
            Err(fault) => Err(fault),
        }
    }

    /// The same, and with a fold a local time that clocks skip has a moment too. It is the one by the offset before the change for the
    /// first fold, and the one by the offset after it for the second.
    pub fn moment_taken(&self, local: i64, fold: Option<Fold>) -> Result<i64, LocalFault>
        ensures taken { result ≡ moment_taken self.now local fold }
        ensures moment { IfOk result (λ m. IsKnown self.now m
            × (IsMomentOf self.now local fold m ⊎ (IsSkipped self.now local × IsOfSkipped self.now local fold m))) }
        ensures skipped { (result ≡ Err LocalFault.Skipped) ↔ ((fold ≡ None) × IsSkipped self.now local) }
        ensures doubled { (result ≡ Err LocalFault.Doubled) ↔ ((fold ≡ None) × IsDoubled self.now local) }
    {
        let _ = &self.first;
        match self.moment_of_local(local, fold) {
            Ok(moment) => Ok(moment),
            Err(LocalFault::Skipped) => match fold {
                Some(fold) => self.moment_by(local, fold),
                None => Err(LocalFault::Skipped),
            },
            Err(LocalFault::Doubled) => Err(LocalFault::Doubled),
            Err(LocalFault::Beyond) => Err(LocalFault::Beyond),
        }
    }

    // The moment of a local time that clocks skip.
    fn moment_by(&self, local: i64, fold: Fold) -> Result<i64, LocalFault>
        requires { IsSkipped self.now local }
        ensures by { MatchResult result
            (λ m. (m ≡ moment_by self.now fold local) × IsKnown self.now m)
            (λ e. (e ≡ LocalFault.Beyond) × (¬ (IsKnown self.now (moment_by self.now fold local)))) }
        ensures offset { IsByOffset self.now local fold (moment_by self.now fold local) }
    {
        known(
            moment_by(self.first, &self.transitions, local, fold),
            self.end,
        )
    }

    /// The same zone. `AllocError` comes if memory runs out, and for no other reason.
    pub fn copy(&self, alloc: Global) -> Result<Zone, AllocError>
        ensures { IfOk result (λ zone. zone ≡ self.now) }
    {
        let mut transitions = Vec::new(alloc);
        transitions.extend_from_slice(&self.transitions)?;
        Ok(Zone {
            first: self.first,
            transitions,
            end: self.end,
        })
    }
}

// A moment before the end, as a number of 64 bits.
fn known(moment: i128, end: i64) -> Result<i64, LocalFault>
    ensures { MatchResult result
        (λ m. (m ≡ moment) × FitsSigned w64 moment × (moment <ℤ end))
        (λ e. (e ≡ LocalFault.Beyond) × (¬ (FitsSigned w64 moment × (moment <ℤ end)))) }
{
    match i64::try_from(moment) {
        Ok(moment) if moment < end => Ok(moment),
        _ => Err(LocalFault::Beyond),
    }
}
