// The calls of the trace, on the lent words and the sketch's record.
use crate::answers::Answer;
use crate::requests::Request;
use sketch::{Refusal, Sketch};

// A call on the words that are lent. A refusal leaves them and the record as they are.
pub fn perform(
    table: &mut [u64],
    record: &mut Sketch,
    request: Request,
) -> Result<Answer, Refusal> {
    Ok(match request {
        Request::Lend(_) => {
            table.fill(0);
            *record = sketch::unused();
            Answer::Done
        }
        Request::Index { hash, depth, mask } => {
            Answer::Index(sketch::word_index(hash, depth, mask))
        }
        Request::Record => Answer::Record(*record),
        Request::Digest => Answer::Digest(digest(table, *record)),
        Request::Increase(hash) => {
            *record = sketch::increase(table, *record, hash)?;
            Answer::Done
        }
        Request::Estimate(hash) => Answer::Estimate(sketch::estimate(table, *record, hash)?),
        Request::Ensure(capacity) => {
            *record = sketch::ensure_capacity(table, *record, capacity)?;
            Answer::Done
        }
        Request::Word(at) => table
            .get(at)
            .map_or(Answer::BadLine, |word| Answer::Word(*word)),
        Request::PokeWord { at, word } => match table.get_mut(at) {
            Some(place) => {
                *place = word;
                Answer::Done
            }
            None => Answer::BadLine,
        },
        Request::PokeRecord { used, sample, size } => {
            *record = Sketch { used, sample, size };
            Answer::Done
        }
        Request::Bad => Answer::BadLine,
        Request::Silent => Answer::NoLine,
    })
}

// The digest of the lent words and the record.
fn digest(table: &[u64], record: Sketch) -> u64 {
    let words = lines::digest_all(lines::digest_start(), table);
    lines::digest_all(words, &[record.used as u64, record.sample, record.size])
}
