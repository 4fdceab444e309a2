ghost use Rattle.std.specs.Prelude.{◌≡◌, ℕ};

/// What has a length, in bytes.
pub trait Measured: Drop {
    /// The length as a function of the value.
    ghost measure: { Self → ℕ };

    /// The length, in bytes.
    fn length(&self) -> u32
        ensures { result ≡ measure self.now };
}
