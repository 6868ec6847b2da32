//! The laws of what the step and the ledger share, each on the contract of a function of its own.
ghost use Rattle.rules.specs.Laws.{PassesClearFronts, LookingNoFurther, ExpiresExactly, FittingIsExact, SumsStop, OpensOnce, RoundsToNearest, LateIsRefused, OthersStay};

/// Each pass removes at most 100 and takes a front of its order, and it stops where it must.
pub fn passes_clear_fronts<Key, Value>()
    ensures { PassesClearFronts Key Value }
{}

/// The shortest run that frees a weight is the least popular of all that do.
pub fn looking_no_further<Key, Value>()
    ensures { LookingNoFurther Key Value }
{}

/// An entry is expired from the end of its life or idle time on, and not a nanosecond before.
pub fn expires_exactly<Key, Value>()
    ensures { ExpiresExactly Key Value }
{}

/// A weight fits exactly when it and the recorded one sum to no more than the capacity.
pub fn fitting_is_exact()
    ensures { FittingIsExact }
{}

/// Recorded weight and tickets are exact below 2^64, and stop there.
pub fn sums_stop()
    ensures { SumsStop }
{}

/// The sketch opens once, when half of the capacity is recorded, and its size is rounded to the
/// nearest number.
pub fn opens_once()
    ensures once { OpensOnce }
    ensures rounded { RoundsToNearest }
{}

/// An instant above 2^62 is refused and changes nothing, and no other is refused for it.
pub fn late_is_refused<Key, Value>()
    ensures { LateIsRefused Key Value }
{}

/// An entry that is not removed keeps its value, its ticket and its place among the others.
pub fn others_stay<Key, Value>()
    ensures { OthersStay Key Value }
{}
