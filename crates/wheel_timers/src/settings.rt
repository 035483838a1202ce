// For proved code only, unchecked: setting an entry.
ghost use Rattle.rules.specs.Places.{wheel01};
ghost use Rattle.wheel_rules.specs.records.Settings.{EntryReady, Sets};
ghost use Rattle.wheel_timers.specs.Slices.{entries_now, SameEntries};

use crate::lent::EntriesMut;

impl EntriesMut<'_> {
    // Sets the entry e: whether it has a deadline, which, and its generation.
    // No Option: what may not change, `Sets` speaks of any d, of an entry without a deadline too.
    #[inline(always)]
    pub fn set_entry(&mut self, e: usize, has: bool, d: u64, h: u32)
        requires { EntryReady (entries_now self.old) e }
        ensures does { Sets wheel01 (entries_now self.old) (entries_now self.new) e has d h }
        ensures same { SameEntries self.old self.new }
    {
        self.dated[e] = has;
        self.deadline[e] = d;
        self.generation[e] = h;
    }
}
