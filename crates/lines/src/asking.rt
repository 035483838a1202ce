// A line as a word of a table and up to three numbers.
use crate::collecting::{Kind, kind_of};
use crate::parts::{SPACE, count, part};
use crate::reading::{Number, number_at};

// What a line asks for: its word's place in the table, if it has one there; how many parts it has if all after the word
// are numbers, at most three, else 0; and these numbers.
#[derive(Clone, Copy)]
pub struct Asked {
    pub word: Option<usize>,
    pub parts: usize,
    pub numbers: [u64; 3],
}

// What the line asks for, by the words of the table; none where it answers nothing.
pub fn requested(line: &[u8], words: &[u8]) -> Option<Asked> {
    match kind_of(line) {
        Kind::Silent => None,
        Kind::Long => Some(Asked {
            word: None,
            parts: 0,
            numbers: [0; 3],
        }),
        Kind::Call => Some(numbered(line, place_of(part(line, 0), words))),
    }
}

// The word with the line's numbers, up to the first part that is none.
fn numbered(line: &[u8], word: Option<usize>) -> Asked {
    let parts = count(line);
    let mut numbers = [0; 3];
    let mut read = 1;
    for k in 0..3 {
        let Number::Is(n) = number_at(line, k + 1) else {
            break;
        };
        numbers[k] = n;
        read = k + 2;
    }
    Asked {
        word,
        parts: if read == parts { parts } else { 0 },
        numbers,
    }
}

// The place of the word in the table.
fn place_of(word: &[u8], words: &[u8]) -> Option<usize> {
    words.split(|b| *b == SPACE).position(|w| w == word)
}
