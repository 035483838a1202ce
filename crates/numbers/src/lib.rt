// Numbers that several crates share: the wrapping product of 64 bits, the least power of two that is not below a
// number, and the two that are no slot.
#![tactic(auto)]

ghost use Rattle.std.specs.Prelude.{◌≡◌, ◌*◌, ◌%◌, ◌^◌};
ghost use Rattle.numbers.specs.Shared.{power_for, is_power_to};

pub mod refusals; // why a call is refused
pub mod slots; // what a link or a cursor holds where it stands at no slot

const MOST: u64 = 65536;

// a * b, modulo 2^64.
pub fn wrapping_mul(a: u64, b: u64) -> u64
    ensures { result ≡ a * b % 2 ^ 64 }
{
    a.wrapping_mul(b)
}

// Whether a number is a power of two up to 65,536.
pub fn is_power(n: u64) -> bool
    ensures { result ≡ is_power_to 16 n }
{
    n <= MOST && n.is_power_of_two()
}

// The least power of two that is not below a number up to 65,536; 65,536 for any number above.
pub fn power_for(n: u64) -> u64
    ensures { result ≡ power_for 16 n }
{
    n.min(MOST).next_power_of_two()
}
