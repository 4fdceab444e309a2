// Numbers of so many bits.
ghost use Rattle.std.specs.Prelude.{◌≡◌, ℕ, nat_le};

/// Numbers of so many bits. They take no more memory than that, and contracts speak of them as numbers.
pub trait Number: Copy {
    /// The number that a value is.
    ghost number: { Self → ℕ };

    /// 0.
    fn zero() -> Self
        ensures { number result ≡ 0 };

    /// Whether it is no more than another.
    fn is_within(self, other: Self) -> bool
        ensures { result ≡ nat_le (number self) (number other) };
}

impl Number for u64 {
    ghost number = { λ n. n };

    fn zero() -> u64 {
        0
    }

    fn is_within(self, other: u64) -> bool {
        self <= other
    }
}

impl Number for u128 {
    ghost number = { λ n. n };

    fn zero() -> u128 {
        0
    }

    fn is_within(self, other: u128) -> bool {
        self <= other
    }
}
