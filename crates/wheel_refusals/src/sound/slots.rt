// For proved code only, unchecked: what is asked of each slot by itself, in slices of one length: its kind, and of an
// armed one its entry and its serial. One pass over the slots each.
ghost use Rattle.std.specs.Prelude.{◌≡◌, length};
ghost use Rattle.wheel_rules.specs.Lent.{Decides, KindAt, Kinds, EntriesExist, SerialsBelow};

use deque::NONE;

// Whether the slot x, whose bucket field is b, is a sentinel, armed or free.
pub fn has_kind(total: usize, x: usize, b: usize) -> bool
    ensures { Decides (KindAt total x b) result }
{
    if x < total {
        b == x
    } else {
        b < total || b == NONE
    }
}

// Whether each slot is a sentinel, armed or free. All are looked at, whatever the first ones are: so the compiler takes
// several at a time.
pub fn kinds(bucket: &[usize], total: usize) -> bool
    ensures { Decides (Kinds total bucket.now) result }
{
    let mut good = true;
    for (x, b) in bucket.iter().enumerate() {
        good &= has_kind(total, x, *b);
    }
    good
}

// Whether the entries of armed slots exist.
pub fn entries_exist(bucket: &[usize], entry: &[usize], total: usize, entries: usize) -> bool
    requires { length entry.now ≡ length bucket.now }
    ensures { Decides (EntriesExist total entries bucket.now entry.now) result }
{
    (total..bucket.len()).all(|x| total <= bucket[x] || entry[x] < entries)
}

// Whether the serials of armed slots lie below the next. No plainer as one generic function with entries_exist: that one
// would ask for an order with laws, where each is one line.
pub fn serials_below(bucket: &[usize], serial: &[u64], total: usize, next: u64) -> bool
    requires { length serial.now ≡ length bucket.now }
    ensures { Decides (SerialsBelow total next bucket.now serial.now) result }
{
    (total..bucket.len()).all(|x| total <= bucket[x] || serial[x] < next)
}
