// A part of a line as a field of a call, by its kind; none where it is no field of that kind.
use lines::{NONE, Number, number_at};

// Any number.
pub fn number(line: &[u8], k: usize) -> Option<u64> {
    match number_at(line, k) {
        Number::Is(n) => Some(n),
        _ => None,
    }
}

pub fn index(line: &[u8], k: usize) -> Option<usize> {
    Some(number(line, k)? as usize)
}

// A number below the end.
pub fn below(line: &[u8], k: usize, end: usize) -> Option<usize> {
    index(line, k).filter(|n| *n < end)
}

// A 32-bit number.
pub fn generation(line: &[u8], k: usize) -> Option<u32> {
    u32::try_from(number(line, k)?).ok()
}

// 0 or 1.
pub fn flag(line: &[u8], k: usize) -> Option<bool> {
    match number(line, k)? {
        0 => Some(false),
        1 => Some(true),
        _ => None,
    }
}

// A number, or no deadline.
pub fn deadline(line: &[u8], k: usize) -> Option<Option<u64>> {
    match number_at(line, k) {
        Number::Is(n) => Some(Some(n)),
        Number::Dash => Some(None),
        Number::Other => None,
    }
}

// A number below none's, or none's.
pub fn link(line: &[u8], k: usize) -> Option<usize> {
    match number_at(line, k) {
        Number::Is(n) if n < NONE => Some(n as usize),
        Number::Dash => Some(NONE as usize),
        _ => None,
    }
}
