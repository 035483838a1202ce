// What takes the records row by row: it puts their lines among the answers, or counts them into a digest.
use lines::{Answers, NONE, Value, digest_row};

pub trait Rows {
    // Takes a row: the word of its line, and its values.
    fn take(&mut self, word: &[u8], values: &[Value]);

    // Takes the row of the entry e.
    fn take_entry(&mut self, e: usize, deadline: Option<u64>, generation: u32);
}

// The lines of a dump.
#[derive(Drop)]
pub struct Dump<'a, P> {
    pub rt: &'a P,
    pub answers: &'a mut Answers,
}

impl<P: Print> Rows for Dump<'_, P> {
    fn take(&mut self, word: &[u8], values: &[Value]) {
        self.answers.say_row(self.rt, word, values);
    }

    // `E DEADLINE GENERATION`.
    fn take_entry(&mut self, e: usize, deadline: Option<u64>, generation: u32) {
        let due = match deadline {
            Some(time) => Value::Number(time),
            None => Value::Link(NONE),
        };
        let values = [
            Value::Number(e as u64),
            due,
            Value::Number(u64::from(generation)),
        ];
        self.take(b"entry", &values);
    }
}

// The digest of the rows so far.
#[derive(Drop)]
pub struct Digest(pub u64);

impl Rows for Digest {
    fn take(&mut self, _word: &[u8], values: &[Value]) {
        self.0 = digest_row(self.0, values);
    }

    // The deadline is two numbers: whether there is one, and which.
    fn take_entry(&mut self, e: usize, deadline: Option<u64>, generation: u32) {
        let values = [
            Value::Number(e as u64),
            Value::Number(u64::from(deadline.is_some())),
            Value::Number(deadline.unwrap_or(0)),
            Value::Number(u64::from(generation)),
        ];
        self.take(b"entry", &values);
    }
}
