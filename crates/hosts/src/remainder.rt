// From a number to a draw.
ghost use Rattle.hosts.specs.Numbers.{LeftOver};

// What is left of x after taking off a multiple of n, from 0 to n - 1, also of a negative x; 0 where n is 0.
pub(crate) fn left_over(x: i64, n: usize) -> usize
    ensures { LeftOver x n result }
{
    if n == 0 {
        return 0;
    }
    if x >= 0 {
        x as usize % n
    } else {
        // -(x + 1) fits where -x may not
        n - 1 - (-(x + 1)) as usize % n
    }
}
