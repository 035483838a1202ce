// How many of a program's records are lent to a call.
ghost use Rattle.std.specs.Prelude.{◌≤◌};

// So many, and no more than there are.
pub fn within(n: usize, most: usize) -> usize
    ensures { result ≤ most }
{
    n.min(most)
}
