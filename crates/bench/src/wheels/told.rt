// What a workload's advances hand out.
use lines::{digest_start, digest_step};
use wheel_rules::calls::Event;

// The entries that are listed to be armed, in order; the digest of all that expired, and how many timers were moved.
#[derive(Drop)]
pub struct Told {
    list: [usize; 4168],
    pub listed: usize,
    pub digest: u64,
    pub moved: u64,
}

impl Told {
    // The first n entries are listed.
    #[inline(always)]
    pub fn listing(n: usize) -> Told {
        let mut told = Told {
            list: [0; 4168],
            listed: 0,
            digest: digest_start(),
            moved: 0,
        };
        for e in 0..n {
            told.list_entry(e);
        }
        told
    }

    // The i-th entry of the list, the first is 0.
    #[inline(always)]
    pub fn entry(&self, i: usize) -> usize {
        if i < 4168 { self.list[i] } else { 0 }
    }

    // Lists the entry, if there is room.
    #[inline(always)]
    fn list_entry(&mut self, e: usize) {
        let i = self.listed;
        if i < 4168 {
            self.list[i] = e;
            self.listed = i + 1;
        }
    }

    // Lists and digests an entry that expired, and counts a timer that was moved.
    #[inline(always)]
    pub fn take(&mut self, event: Event) {
        match event {
            Event::Expired { entry, .. } => {
                self.list_entry(entry);
                self.digest = digest_step(self.digest, entry as u64);
            }
            Event::Rescheduled { .. } => self.moved = self.moved.wrapping_add(1),
            Event::End => {}
        }
    }
}
