//! The theorems over whole lists of calls, each on the contract of a function of its own.
ghost use Rattle.rules.specs.Account.{AccountOf};
ghost use Rattle.rules.specs.Kinds.{kind_of};
ghost use Rattle.rules.specs.Samples.{Samples};
ghost use Rattle.rules.specs.Served.{FreshAgrees, GoesOnOf, ServedOf};
ghost use Rattle.rules.specs.Sums.{SumsOf};
ghost use Rattle.rules.specs.Values.{ValuesOf};

use kinds::EntryKind;

/// The sample runs come out as the rules have them.
pub fn samples_stand()
    ensures { Samples }
{}

/// Over every list of calls each entry is accounted for, and each verdict and each hit is right.
pub fn account_of<K: EntryKind>()
    ensures { AccountOf (kind_of K.alike K.hashed K.weighs K.WEIGHED) }
{}

/// The same said of the log alone: the ledger goes through it, line by line.
pub fn served_of<K: EntryKind>()
    ensures { ServedOf (kind_of K.alike K.hashed K.weighs K.WEIGHED) }
{}

/// A cache that goes on from any ledger that agrees with it is accounted for in the same way, and the
/// two agree again; a fresh cache agrees with the empty ledger.
pub fn goes_on_of<K: EntryKind>()
    ensures goes_on { GoesOnOf (kind_of K.alike K.hashed K.weighs K.WEIGHED) }
    ensures fresh { FreshAgrees (kind_of K.alike K.hashed K.weighs K.WEIGHED) }
{}

/// After every list of calls each item's value is the one last taken in under its ticket.
pub fn values_of<K: EntryKind>()
    ensures { ValuesOf (kind_of K.alike K.hashed K.weighs K.WEIGHED) }
{}

/// After every list of calls the recorded weight is the sum of the weights held, and the entry count
/// is how many are held.
pub fn sums_of<K: EntryKind>()
    ensures { SumsOf (kind_of K.alike K.hashed K.weighs K.WEIGHED) }
{}
