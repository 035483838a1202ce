// The two numbers that a link or a cursor holds where it stands at no slot. The functions say that each constant is the
// number of the definitions.
ghost use Rattle.std.specs.Prelude.{◌≡◌};
ghost use Rattle.numbers.specs.Shared.{no_slot, past_end};

// No slot: one past the last that may be lent. A cursor that stands at none has it too.
pub const NONE: usize = 4096;

// The cursor that stands past the end.
pub const PAST_END: usize = 4097;

pub fn none() -> usize
    ensures { result ≡ no_slot }
{
    NONE
}

pub fn past_end() -> usize
    ensures { result ≡ past_end }
{
    PAST_END
}
