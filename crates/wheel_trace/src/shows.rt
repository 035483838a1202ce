// What is shown of the records: a bucket's slots, the clock, and the dump or its digest, row by row.
use crate::answers::Answer;
use crate::records::Wheel;
use crate::requests::Show;
use crate::rows::{Digest, Dump, Rows};
use deque::NONE;
use lines::{Answers, Value, digest_start};

impl Wheel<'_> {
    // Puts what is shown after the answers that wait, but for the digest, which it answers.
    pub fn show(&self, rt: &impl Print, answers: &mut Answers, show: Show) -> Answer {
        match show {
            Show::Bucket(b) => {
                let head = at(self.nodes.linked.heads, b, NONE);
                answers.say_chain(rt, b"bucket", head, self.nodes.linked.next);
            }
            Show::Clock => self.tell_clock(&mut Dump { rt, answers }),
            Show::Dump => self.tell_all(&mut Dump { rt, answers }),
            Show::Digest => {
                let mut digest = Digest(digest_start());
                self.tell_all(&mut digest);
                return Answer::Digest(digest.0);
            }
        }
        Answer::Shown
    }

    // The clock, then the buckets, the node records and the entries.
    fn tell_all(&self, rows: &mut impl Rows) {
        self.tell_clock(rows);
        self.tell_buckets(rows);
        self.tell_nodes(rows);
        self.tell_entries(rows);
    }

    // `ENABLED READING SERIAL OPEN PREVIOUS LEVEL STEP NODES ENTRIES FREE`.
    fn tell_clock(&self, rows: &mut impl Rows) {
        let clock = self.clock;
        let values = [
            Value::Number(u64::from(clock.enabled)),
            Value::Number(clock.reading),
            Value::Number(clock.serial),
            Value::Number(u64::from(clock.open)),
            Value::Number(clock.previous),
            Value::Number(clock.level as u64),
            Value::Number(clock.step as u64),
            Value::Number(clock.nodes as u64),
            Value::Number(clock.entries as u64),
            Value::Link(clock.free as u64),
        ];
        rows.take(b"clock", &values);
    }

    // `B HEAD TAIL`.
    fn tell_buckets(&self, rows: &mut impl Rows) {
        let linked = self.nodes.linked.as_read();
        for b in 0..linked.heads.len() {
            let values = [
                Value::Number(b as u64),
                link(linked.heads, b),
                link(linked.tails, b),
            ];
            rows.take(b"bucket", &values);
        }
    }

    // `S NEXT PREV BUCKET ENTRY GENERATION SERIAL`.
    fn tell_nodes(&self, rows: &mut impl Rows) {
        let nodes = self.nodes.as_read();
        for x in 0..nodes.linked.next.len() {
            let values = [
                Value::Number(x as u64),
                link(nodes.linked.next, x),
                link(nodes.linked.prev, x),
                link(nodes.linked.home, x),
                Value::Number(at(nodes.entry, x, 0) as u64),
                Value::Number(u64::from(at(nodes.generation, x, 0))),
                Value::Number(at(nodes.serial, x, 0)),
            ];
            rows.take(b"node", &values);
        }
    }

    // Each entry with its deadline, if it has one, and its generation.
    fn tell_entries(&self, rows: &mut impl Rows) {
        let entries = self.entries.as_read();
        for e in 0..entries.dated.len() {
            let deadline = entries.dated[e].then_some(at(entries.deadline, e, 0));
            rows.take_entry(e, deadline, at(entries.generation, e, 0));
        }
    }
}

// A column's link in record i.
fn link(column: &[usize], i: usize) -> Value {
    Value::Link(at(column, i, NONE) as u64)
}

// What a column has in record i, else the other value: all columns have as many.
fn at<T: Copy>(column: &[T], i: usize, other: T) -> T {
    if i < column.len() { column[i] } else { other }
}
