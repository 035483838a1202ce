// The workloads. The wheel of each has as many node records as it was given, to its end.
ghost use Rattle.std.specs.Prelude.{◌<◌, ◌≤◌};
ghost use Rattle.bench.specs.Kept.{shown, Works, SameSize};

use crate::generator::following;
use crate::wheels::records::{Records, Wheel};
use crate::wheels::told::Told;
use deque::NONE;
use lines::digest_step;

// So many times an entry at random, disarmed where it is armed, else armed; then an advance to the last reading.
#[inline(never)]
pub fn cancel(nodes: usize, calls: u64, first: u64) -> u64
    requires { (165 < nodes) × (nodes ≤ 4096) }
{
    let mut records = Records::new();
    let mut wheel = records.lay(nodes);
    let entries = wheel.entries.dated.len();
    let mut slots = [NONE; 4168];
    let mut x = first;
    for _ in 0..calls {
        x = following(x);
        let e = below(x, entries);
        if e < 4168 {
            let slot = slots[e];
            slots[e] = if wheel.disarm(slot) {
                NONE
            } else {
                wheel.arm(e, x >> 14)
            };
        }
    }
    let mut told = Told::listing(0);
    wheel.advance(u64::MAX, &mut told);
    prove!(wheel.nodes.linked.next.len() == nodes);
    told.digest
}

// All entries are armed; then so many advances, each as far as the stride says, after which what expired is armed
// again, as far ahead of the reading as the delay says.
#[inline(never)]
pub fn go_on<D: Fn(u64) -> u64, S: Fn(u64) -> u64>(
    nodes: usize,
    calls: u64,
    first: u64,
    delay: D,
    stride: S,
) -> u64
    requires size { (165 < nodes) × (nodes ≤ 4096) }
    requires delays { D.IsAlwaysCallable delay }
    requires strides { S.IsAlwaysCallable stride }
{
    let mut records = Records::new();
    let mut wheel = records.lay(nodes);
    let mut told = Told::listing(wheel.entries.dated.len());
    let mut x = wheel.arm_listed(&told, first, &delay);
    for _ in 0..calls {
        x = following(x);
        told.listed = 0;
        let clock = wheel.clock;
        wheel.advance(clock.reading.wrapping_add(stride(x)), &mut told);
        x = wheel.arm_listed(&told, x, &delay);
    }
    prove!(wheel.nodes.linked.next.len() == nodes);
    digest_step(told.digest, told.moved)
}

// All entries are armed; then so many checked counts of the armed timers: their sum.
#[inline(never)]
pub fn count(nodes: usize, calls: u64, first: u64) -> u64
    requires { (165 < nodes) × (nodes ≤ 4096) }
{
    let mut records = Records::new();
    let mut wheel = records.lay(nodes);
    let told = Told::listing(wheel.entries.dated.len());
    wheel.arm_listed(&told, first, &|x| x >> 14);
    let mut sum = 0u64;
    for _ in 0..calls {
        let counted = wheel::armed_count(
            wheel.nodes.as_read(),
            wheel.entries.as_read(),
            wheel.clock,
        );
        sum = sum.wrapping_add(counted.unwrap_or(0) as u64);
    }
    prove!(wheel.nodes.linked.next.len() == nodes);
    sum
}

impl Wheel<'_> {
    // Arms the listed entries, each as far ahead of the reading as the delay of the generator's next number; answers
    // the generator's last number.
    #[inline(always)]
    fn arm_listed<D: Fn(u64) -> u64>(&mut self, told: &Told, first: u64, delay: &D) -> u64
        requires works { Works (shown self.old) }
        requires delays { D.IsAlwaysCallable delay.now }
        ensures works { Works (shown self.new) }
        ensures size { SameSize self.old self.new }
    {
        let mut x = first;
        for i in 0..told.listed {
            x = following(x);
            let due = self.clock.reading.wrapping_add(delay(x));
            self.arm(told.entry(i), due);
        }
        x
    }
}

// A number below n, from the generator's number; 0 where there is none.
fn below(x: u64, n: usize) -> usize {
    if n == 0 {
        return 0;
    }
    (x % (n as u64)) as usize
}
