//! What a lock knows of the value that it keeps.
ghost use Rattle.std.specs.Prelude.{◌≡◌, ◌<◌, ◌^◌, ◌-◌, List, length};

/// A value that may fit a name, and that keeps a log.
pub trait Named {
    /// What a value fits or doesn't fit. A lock is given one when it is made.
    type Name: Drop;

    /// One entry of the log.
    type Entry;

    // The value is one that a lock of this name may keep.
    ghost fits: { Self.Name → Self → Type 0 };

    // What was entered so far, the oldest entry first.
    ghost log: { Self → List Self.Entry };

    /// How many entries the log has, fewer than 2^64 - 1.
    fn length(&self) -> u64
        ensures counts { result ≡ length (log self.now) }
        ensures short { result < 2 ^ 64 - 1 };
}
