// What holds of the definitions that the contracts cite.
ghost use Rattle.std.specs.Prelude.{◌≡◌, Decides};
ghost use Rattle.cache.specs.Keys.{Key, same_key};

// Two keys are compared as equal exactly where they are.
pub fn keys_are_compared_exactly()
    ensures { (j k : Key) → Decides (same_key j k) (j ≡ k) }
{}
