// Times and draws.
ghost use Rattle.std.specs.Prelude.{ℕ, ◌<◌, ◌≤◌, ℤ};

pub trait Host {
    // asked for a time, the host gives this one, and goes on so
    ghost times: { Self → ℤ → Self → Type 0 };

    // asked for a draw below a number, it gives this one, and goes on so
    ghost draws: { Self → ℕ → ℕ → Self → Type 0 };

    fn time(&mut self) -> i64
        ensures { times self.old result self.new };

    fn draw(&mut self, n: usize) -> usize
        ensures drawn { draws self.old n result self.new }
        ensures below { 1 ≤ n → result < n };
}
