// The sketch's public calls: refusals in order, then the unchecked work.
ghost use Rattle.std.specs.Prelude.{◌≡◌, ◌<◌, ◌≤◌};
ghost use Rattle.numbers.specs.Rows.{refusal_in};
ghost use Rattle.sketch_rules.specs.Sketch.{standing, sample_for, unused_sketch, Ensures, Estimates, Increases};

use crate::sound::is_sound;
use crate::unchecked;
use numbers::refusals::Refusal;
use sketch_rules::Sketch;

// The record of a sketch that is not used yet: it takes its table with the first capacity that is ensured.
pub fn unused() -> Sketch
    ensures { result ≡ unused_sketch }
{
    Sketch {
        used: 0,
        sample: 0,
        size: 0,
    }
}

// The refusal that each call tests first: the record is not sound.
#[tactic(auto, unfolding(sketch_rules::specs::Sketch::standing))]
fn standing(table: &[u64], sketch: Sketch) -> Result<(), Refusal>
    ensures { refusal_in result ≡ standing table.now sketch }
{
    if is_sound(table.len(), sketch) {
        Ok(())
    } else {
        Err(Refusal::NotSound)
    }
}

// The sample size of a capacity up to 65,536.
fn sample_for(capacity: u64) -> u64
    requires { capacity ≤ 65536 }
    ensures { result ≡ sample_for capacity }
{
    if capacity == 0 { 10 } else { 10 * capacity }
}

// Makes the table long enough for a capacity, if it is not already: the longer table's words are all 0 then, and the
// size count stays. Refused: 4, 15 (capacity above 65,536), 14 (the lent table is too short to grow).
#[tactic(auto, unfolding(sketch_rules::specs::Sketch::standing, sketch_rules::specs::Sketch::ensure_refusal, sketch_rules::specs::Sketch::ensured_table, sketch_rules::specs::Sketch::ensured_sketch))]
pub fn ensure_capacity(table: &mut [u64], sketch: Sketch, capacity: u64) -> Result<Sketch, Refusal>
    ensures { Ensures table.old sketch capacity result table.new }
{
    standing(table, sketch)?;
    if capacity > 65536 {
        return Err(Refusal::CapacityTooLarge);
    }
    let words = numbers::power_for(capacity) as usize;
    if words <= sketch.used {
        return Ok(sketch);
    }
    if table.len() < words {
        return Err(Refusal::TableTooShort);
    }
    unchecked::clear(table, words);
    Ok(Sketch {
        used: words,
        sample: sample_for(capacity),
        size: sketch.size,
    })
}

// The least of a hash's four counters; 0 where the sketch is unused. Refused: 4.
#[tactic(auto, unfolding(sketch_rules::specs::Sketch::estimate_of))]
pub fn estimate(table: &[u64], sketch: Sketch, hash: u64) -> Result<u64, Refusal>
    ensures { Estimates table.now sketch hash result }
{
    standing(table, sketch)?;
    if sketch.used == 0 {
        return Ok(0);
    }
    Ok(unchecked::least_count(table, sketch.used, hash))
}

// Raises the four counters of a hash that are below 15, and ages the table where the size count comes to the sample
// size; does nothing where the sketch is unused. Refused: 4.
#[tactic(auto, unfolding(sketch_rules::specs::Sketch::standing, sketch_rules::specs::Sketch::increased_table, sketch_rules::specs::Sketch::increased_sketch))]
pub fn increase(table: &mut [u64], sketch: Sketch, hash: u64) -> Result<Sketch, Refusal>
    ensures { Increases table.old sketch hash result table.new }
{
    // Not `standing(table, sketch)?`: a loop of increases runs 6 % more instructions with it.
    if !is_sound(table.len(), sketch) {
        return Err(Refusal::NotSound);
    }
    if sketch.used == 0 {
        return Ok(sketch);
    }
    Ok(unchecked::raise_hash(table, sketch, hash).sketch)
}
