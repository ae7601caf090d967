//! What holds of riders, whatever the actions do: the contracts are the laws.
ghost use Rattle.std.specs.Prelude.{◌≡◌};
ghost use Rattle.hpx_value.specs.Values.{Act};
ghost use Rattle.hpx_value.specs.Shapes.{IsAct};
ghost use Rattle.hpx_value.specs.Hands.{id_at, own_slot};
ghost use Rattle.hpx_value.specs.Riders.{plain};

/// An action without its rider has the same target, and where it is well formed it is so still, and its continuation leads
/// where it led.
pub fn plain_law()
    ensures target { (a : Act) → id_at (plain a).ids 0 ≡ id_at a.ids 0 }
    ensures formed { (a : Act) → IsAct a → IsAct (plain a) }
    ensures own { (a : Act) → IsAct a → own_slot (plain a).ids (plain a).cont ≡ own_slot a.ids a.cont }
{}
