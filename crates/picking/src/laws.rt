// What holds of the definitions that the contracts cite.
ghost use Rattle.std.specs.Prelude.{◌≡◌};
ghost use Rattle.picking.specs.Picks.{target_of};

// The worked example.
pub fn picks_are_exact()
    ensures { target_of 4096 ≡ 3686 }
{}
