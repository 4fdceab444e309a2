// What holds of all bytes.
ghost use Rattle.std.specs.Prelude.{◌≡◌, ◌⊎◌, ℕ, List};
ghost use Rattle.tva_shim.specs.{Shims.ShimData, Shims.IsShim, Layout.HaveNoShim, Layout.layout};

/// Two shims of one layout are the same, and bytes are the layout of a shim or of none.
pub fn layouts_are_distinct()
    ensures one { (a b : ShimData) → IsShim a → IsShim b → layout a ≡ layout b → a ≡ b }
    ensures told { (bytes : List ℕ) → ((s : ShimData) × IsShim s × (layout s ≡ bytes)) ⊎ HaveNoShim bytes }
{}
