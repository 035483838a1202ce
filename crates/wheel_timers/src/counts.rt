// For proved code only, unchecked: the two calls that only read: armed count and next due.
ghost use Rattle.std.specs.Prelude.{◌≤◌, length};
ghost use Rattle.rules.specs.Places.{wheel01};
ghost use Rattle.wheel_rules.specs.records.Counts.{Counts, KeyReady, DueReady, FindsKey, Sooner, FindsDue};

use crate::lent::{Entries, Nodes};

impl Nodes<'_> {
    // How many slots are armed: those from the total of buckets on whose bucket is one.
    pub fn armed_count(&self) -> usize
        requires { length self.now.linked.heads.now ≤ length self.now.linked.home.now }
        ensures { Counts wheel01 self.now.linked.heads.now self.now.linked.home.now result }
    {
        let total = self.linked.heads.len();
        self.linked.home[total..]
            .iter()
            .filter(|bucket| **bucket < total)
            .count()
    }

    // What next due takes the least of: the deadline that the slot's entry holds, if the slot is armed.
    fn key(&self, entries: &Entries<'_>, x: usize) -> Option<u64>
        requires { KeyReady
            (length self.now.linked.heads.now) self.now.linked.home.now self.now.entry.now
            entries.now.dated.now entries.now.deadline.now x }
        ensures { FindsKey
            (length self.now.linked.heads.now) self.now.linked.home.now self.now.entry.now
            entries.now.dated.now entries.now.deadline.now x result }
    {
        if self.linked.heads.len() <= self.linked.home[x] {
            return None;
        }
        let e = self.entry[x];
        if entries.dated[e] {
            Some(entries.deadline[e])
        } else {
            None
        }
    }

    // The least deadline of the armed timers, or none.
    pub fn next_due(&self, entries: &Entries<'_>) -> Option<u64>
        requires { DueReady
            self.now.linked.heads.now self.now.linked.home.now self.now.entry.now
            entries.now.dated.now entries.now.deadline.now }
        ensures { FindsDue wheel01
            self.now.linked.heads.now self.now.linked.home.now self.now.entry.now
            entries.now.dated.now entries.now.deadline.now result }
    {
        let mut least = None;
        for x in self.linked.heads.len()..self.linked.home.len() {
            least = sooner(self.key(entries, x), least);
        }
        least
    }
}

// The less of two, where there are two.
fn sooner(a: Option<u64>, b: Option<u64>) -> Option<u64>
    ensures { Sooner a b result }
{
    let Some(d) = a else {
        return b;
    };
    let Some(c) = b else {
        return a;
    };
    Some(d.min(c))
}
