// What holds of the tables that the default policies keep to.
ghost use Rattle.policy.specs.Rules.{Rules};

// Who uses the cache, by the tables: every rule of specs/Rules.antt.
pub fn policies_keep_their_rules()
    ensures { Rules }
{}
