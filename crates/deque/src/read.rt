// For proved code only, unchecked: what may be read off the records, with what it means for whatever lists they stand
// for.
// The answer is the link as it stands, a slot's number or NONE: a rule of the project, 01's forms.
ghost use Rattle.std.specs.Prelude.{◌<◌, length};
ghost use Rattle.deque_rules.specs.Read.{Front, Follows};

// The front of the deque d, or NONE where it is empty.
#[inline(always)]
pub fn front(heads: &[usize], d: usize) -> usize
    requires { d < length heads.now }
    ensures { Front heads.now d result }
{
    heads[d]
}

// The slot after s in its deque, or NONE where it is last.
#[inline(always)]
pub fn following(next: &[usize], s: usize) -> usize
    requires { s < length next.now }
    ensures { Follows next.now s result }
{
    next[s]
}
