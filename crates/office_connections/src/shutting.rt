// Machines that can be shut.

/// A machine that answers requests until it is shut, and then no more.
pub trait MayShut {
    ghost use Rattle.std.specs.Prelude.{◌≡◌, Bool};

    // Whether it is shut.
    ghost is_shut: { Self → Bool };

    /// Returns whether it is shut; then only a restart helps.
    fn is_shut(&self) -> bool
        ensures { result ≡ is_shut self.now };
}
