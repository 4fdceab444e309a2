// Calls that are to fail.
ghost use Rattle.std.specs.Prelude.{◌≡◌};
ghost use Rattle.tva_outside.specs.Calls.{is_due};

// Whether the call with that number is one of those that are to fail.
pub(crate) fn is_due(failing: &[u32], number: u64) -> bool
    ensures { result ≡ is_due failing.now number }
{
    failing.iter().any(|call| u64::from(*call) == number)
}
