// What holds of the definitions that the contracts cite.
ghost use Rattle.std.specs.Prelude.{◌≡◌, ℕ, ℤ};
ghost use Rattle.hosts.specs.Numbers.{LeftOver, TakenInOrder};

// What is left of a number is one number, and a lent list is read from its first number on.
pub fn hosts_are_exact()
    ensures remainder { (x : ℤ) (n r s : ℕ) → LeftOver x n r → LeftOver x n s → r ≡ s }
    ensures list { TakenInOrder }
{}
