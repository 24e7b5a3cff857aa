//! What comes out of a ring through which numbered samples go. The number of a sample is its time and its tag.

use gp_ring::Taken;

/// What came out of a ring in order: the number behind it, and how many before that number were counted lost.
#[derive(Clone, Copy, Debug)]
pub struct Passed {
    pub next: u64,
    pub lost: u64,
}

impl Passed {
    /// Nothing.
    pub fn none() -> Passed {
        Passed { next: 0, lost: 0 }
    }

    // And the sample of this time and this tag, if it is the next one.
    fn with_sample(self, time: u64, tag: u64) -> Option<Passed> {
        if time != self.next || tag != self.next {
            return None;
        }
        let next = self.next.checked_add(1)?;
        Some(Passed {
            next,
            lost: self.lost,
        })
    }

    // And a loss of so many, the first of which is of this time, if that is the next one.
    fn with_loss(self, time: u64, count: u64) -> Option<Passed> {
        if time != self.next {
            return None;
        }
        let next = self.next.checked_add(count)?;
        let lost = self.lost.checked_add(count)?;
        Some(Passed { next, lost })
    }

    // And the record at this place, which has this tag. A sample has the header 1 and the stack 7, a loss the header 0.
    fn with_record(self, words: &[u64], at: usize, tag: u64) -> Option<Passed> {
        let rest = words.get(at..)?;
        match rest {
            &[_, time, 0, count, ..] => self.with_loss(time, count),
            &[_, time, 1, 7, ..] => self.with_sample(time, tag),
            _ => None,
        }
    }

    // And the records of a batch, if they are the next ones.
    fn with_batch(self, words: &[u64], tags: &[u64]) -> Option<Passed> {
        let mut passed = self;
        let mut at = 0;
        for tag in tags {
            passed = passed.with_record(words, at, *tag)?;
            let size = *words.get(at)?;
            if size > 1 << 30 {
                return None;
            }
            at = at.checked_add(size as usize)?;
        }
        Some(passed)
    }

    /// And what an act found, if that is what comes next. Behind the end nothing does.
    pub fn with_taken(self, taken: Taken<'_>) -> Option<Passed> {
        match taken {
            Taken::Batch { words, tags } => self.with_batch(words, tags),
            Taken::Lost { count, time } => self.with_loss(time, count),
            Taken::Raced { .. } | Taken::Nothing => Some(self),
            Taken::End => None,
        }
    }
}
