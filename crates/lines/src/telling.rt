// What a program tells of a line: an answer as six numbers, and the line that says it.
ghost use Rattle.std.specs.Prelude.{◌≡◌, ◌∷◌, [], slice_index, true};
ghost use Rattle.lines.specs.Collecting.{all_taken};

use crate::answers::Answers;
use crate::collecting::Lines;
use crate::parts::part;

// What is told is the place of its first word in the program's table, how many numbers follow, these, and one number
// that only the program reads. Three are no words of a table: no line, a line that waits among the answers already, and
// a line that is no call.
pub const NO_LINE: u64 = 97;

pub const SHOWN: u64 = 98;

pub const BAD_LINE: u64 = 99;

// So many numbers stand for one that is none.
const DASH: u64 = 9;

// Tells a word and so many of three numbers.
pub fn tell(told: &mut [u64; 6], word: u64, numbers: u64, a: u64, b: u64, c: u64)
    ensures { told.new ≡ word ∷ numbers ∷ a ∷ b ∷ c ∷ slice_index told.old 5 ∷ [] }
{
    *told = [word, numbers, a, b, c, told[5]];
}

// Tells a word and none.
pub fn tell_none(told: &mut [u64; 6], word: u64)
    ensures { told.new ≡ word ∷ 9 ∷ 0 ∷ 0 ∷ 0 ∷ slice_index told.old 5 ∷ [] }
{
    tell(told, word, DASH, 0, 0, 0);
}

impl Answers {
    // Puts the line of what was told after what waits, with its word out of the table, and writes all out where all
    // that was read is answered, so that nothing waits while more is read.
    pub fn say(&mut self, rt: &impl Print, words: &[u8], told: &[u64; 6], input: &Lines)
        ensures { all_taken input.now ≡ true → self.new.waiting ≡ 0 }
    {
        match told[0] {
            NO_LINE | SHOWN => {}
            BAD_LINE => self.append(rt, b"bad line\n"),
            word => {
                self.append(rt, part(words, word as usize));
                self.say_numbers(rt, told);
                self.append(rt, b"\n");
            }
        }
        self.settle(rt, input);
    }

    // A space before each of so many numbers, or before the dash for none.
    fn say_numbers(&mut self, rt: &impl Print, told: &[u64; 6]) {
        let numbers = told[1];
        if numbers == DASH {
            self.append(rt, b" -");
            return;
        }
        for k in 0..3 {
            if numbers > k as u64 {
                self.append_field(rt, told[2 + k]);
            }
        }
    }
}
