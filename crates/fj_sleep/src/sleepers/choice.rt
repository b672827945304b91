//! The choice of one place.
ghost use Rattle.std.specs.Prelude.{◌≢◌, MatchOption, Some};
ghost use Rattle.fj_sleep.specs.Places.{is_asleep, is_awake, is_due, is_resting, is_waiting};
ghost use Rattle.fj_sleep.specs.Sleeping.{IsAt, NobodyIs};
ghost use Rattle.fj_sleep.specs.Waking.{MayWake, OnlyLookoutRests};

use crate::sleeper::Sleeper;

/// A place that is `Awake`.
pub fn any_awake<T: Copy>(places: &[Sleeper<T>]) -> Option<usize>
    ensures { MatchOption result (NobodyIs is_awake places.now) (λ p. IsAt is_awake places.now p) }
{
    places.iter().position(|sleeper| sleeper.is_awake())
}

/// A place at which somebody rests.
pub fn any_resting<T: Copy>(places: &[Sleeper<T>]) -> Option<usize>
    ensures { MatchOption result (NobodyIs is_resting places.now) (λ p. IsAt is_resting places.now p) }
{
    places.iter().position(|sleeper| sleeper.rests())
}

/// A place at which somebody waits.
fn any_waiting<T: Copy>(places: &[Sleeper<T>]) -> Option<usize>
    ensures { MatchOption result (NobodyIs is_waiting places.now) (λ p. IsAt is_waiting places.now p) }
{
    places.iter().position(|sleeper| sleeper.waits())
}

/// A place that is `Due`.
pub fn any_due<T: Copy>(places: &[Sleeper<T>]) -> Option<usize>
    ensures { MatchOption result (NobodyIs is_due places.now) (λ p. IsAt is_due places.now p) }
{
    places.iter().position(|sleeper| sleeper.is_due())
}

/// A place at which somebody other than the lookout rests.
fn resting_beside<T: Copy>(places: &[Sleeper<T>], lookout: Option<usize>) -> Option<usize>
    ensures { MatchOption result (OnlyLookoutRests places.now lookout) (λ p. IsAt is_resting places.now p × (lookout ≢ Some p)) }
{
    for (place, sleeper) in places.iter().enumerate() {
        if sleeper.rests() && lookout != Some(place) {
            return Some(place);
        }
    }
    None
}

/// The place to wake for work that any thread may do.
pub fn anyone<T: Copy>(places: &[Sleeper<T>], lookout: Option<usize>) -> Option<usize>
    ensures { MatchOption result (NobodyIs is_asleep places.now) (λ p. MayWake places.now lookout p) }
{
    if let Some(place) = resting_beside(places, lookout) {
        return Some(place);
    }
    if let Some(place) = any_resting(places) {
        return Some(place);
    }
    any_waiting(places)
}
