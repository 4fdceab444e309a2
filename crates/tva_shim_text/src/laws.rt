// What holds of all bytes.
ghost use Rattle.std.specs.Prelude.{◌≡◌, ℕ, List};
ghost use Rattle.tva_shim_text.specs.ShimText.{IsTextOf};

/// Bytes have a text of their shim, and one alone.
pub fn bytes_have_one_text()
    ensures there { (bytes : List ℕ) → (text : List ℕ) × IsTextOf bytes text }
    ensures one { (bytes text other : List ℕ) → IsTextOf bytes text → IsTextOf bytes other → text ≡ other }
{}
