// Pokes: a field of a lent record is written, if there is such a record.
use crate::answers::Answer;

pub fn put<T: Copy>(fields: &mut [T], i: usize, x: T) -> Answer {
    match fields.get_mut(i) {
        Some(field) => {
            *field = x;
            Answer::Done
        }
        None => Answer::BadLine,
    }
}
