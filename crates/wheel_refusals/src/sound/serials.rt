// For proved code only, unchecked: whether the serials of armed slots differ, in slices of one length that is at most
// 4,096. The slots are filed under the remainder of their serial by 4,096. Where serials are near each other a
// remainder has one slot, and this is one pass.
ghost use Rattle.std.specs.Prelude.{◌<◌, ◌≡◌};
ghost use Rattle.wheel_rules.specs.Lent.{Decides, SerialsDiffer};
ghost use Rattle.wheel_rules.specs.sound.Filing.{Walkable, Met, Fileable, Files, Sized};

// The slots filed so far: the latest slot under each remainder, and for each slot the one filed before it, 0 where
// there is none (slot 0 is a sentinel). Each way back goes over earlier slots only.
// Stays 0 for none: the definitions of wheel_rules, specs/sound/Filing.antt, speak of lists of numbers.
#[derive(Drop)]
pub struct Filing {
    pub latest: [u16; 4096],
    pub before: [u16; 4096],
}

impl Filing {
    // Whether a slot with the wanted serial is filed at the slot `latest` or before it.
    pub fn is_met(&self, serial: &[u64], latest: usize, wanted: u64) -> bool
        requires { Walkable self.now.before serial.now latest }
        ensures { Decides (Met self.now.before serial.now latest wanted) result }
    {
        is_met(&self.before, serial, latest, wanted)
    }

    // Files the slot x, if it is armed: whether it is the first with its serial.
    pub fn file(&mut self, bucket: &[usize], serial: &[u64], total: usize, x: usize) -> bool
        requires { Fileable total bucket.now serial.now self.old.latest self.old.before x }
        ensures { Files total bucket.now serial.now self.new.latest self.new.before x result }
    {
        file(&mut self.latest, &mut self.before, bucket, serial, total, x)
    }
}

// Whether a slot with the wanted serial is filed at the slot `latest` or before it. This and `file` are lent the arrays
// one by one, for callers that have no `Filing`.
pub fn is_met(before: &[u16; 4096], serial: &[u64], latest: usize, wanted: u64) -> bool
    requires { Walkable before.now serial.now latest }
    ensures { Decides (Met before.now serial.now latest wanted) result }
{
    let mut y = latest;
    while 0 < y {
        if serial[y] == wanted {
            return true;
        }
        y = usize::from(before[y]);
    }
    false
}

// Files the slot x, if it is armed: whether it is the first with its serial.
pub fn file(
    latest: &mut [u16; 4096],
    before: &mut [u16; 4096],
    bucket: &[usize],
    serial: &[u64],
    total: usize,
    x: usize,
) -> bool
    requires { Fileable total bucket.now serial.now latest.old before.old x }
    ensures { Files total bucket.now serial.now latest.new before.new x result }
{
    if total <= bucket[x] {
        return true;
    }
    let wanted = serial[x];
    let k = (wanted % 4096) as usize;
    let y = latest[k];
    if is_met(before, serial, usize::from(y), wanted) {
        return false;
    }
    before[x] = y;
    latest[k] = x as u16;
    true
}

// Whether the serials of armed slots differ.
pub fn serials_differ(bucket: &[usize], serial: &[u64], total: usize) -> bool
    requires { Sized bucket.now serial.now }
    ensures { Decides (SerialsDiffer total bucket.now serial.now) result }
{
    let mut filing = Filing {
        latest: [0; 4096],
        before: [0; 4096],
    };
    for x in total..bucket.len() {
        if !filing.file(bucket, serial, total, x) {
            return false;
        }
    }
    true
}
