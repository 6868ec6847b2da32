//! Instants that a record may have.
ghost use Rattle.std.specs.Prelude.{◌≡◌, ℕ, Option};
ghost use Rattle.std.specs.Option.{option_map};

/// Reads and sets the instants of a record.
pub trait AccessTime {
    // When its entry was touched, where the record says so.
    ghost touched: { Self → Option ℕ };

    // When its entry was written, where the record says so.
    ghost written: { Self → Option ℕ };

    // The record touched at an instant.
    ghost touching: { Self → ℕ → Self };

    // The record written at an instant.
    ghost writing: { Self → ℕ → Self };

    /// When its entry was touched.
    fn last_accessed(&self) -> Option<u64>
        ensures { result ≡ touched self.now };

    /// Sets when its entry was touched; a record without that instant stays as it is.
    fn set_last_accessed(&mut self, nanos: u64)
        ensures { self.new ≡ touching self.old nanos };

    /// When its entry was written.
    fn last_modified(&self) -> Option<u64>
        ensures { result ≡ written self.now };

    /// Sets when its entry was written; a record without that instant stays as it is.
    fn set_last_modified(&mut self, nanos: u64)
        ensures { self.new ≡ writing self.old nanos };

    // Touching sets the touched instant, if the record has one, and leaves the other.
    ghost touches: { (r : Self) (n : ℕ) → touched (touching r n) ≡ option_map (λ _. n) (touched r) };

    ghost touch: { (r : Self) (n : ℕ) → written (touching r n) ≡ written r };

    // Writing sets the written instant, if the record has one, and leaves the other.
    ghost writes: { (r : Self) (n : ℕ) → written (writing r n) ≡ option_map (λ _. n) (written r) };

    ghost write: { (r : Self) (n : ℕ) → touched (writing r n) ≡ touched r };
}
