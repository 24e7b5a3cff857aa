use gp_cases::{Page, Unanswered};
use std::alloc::Global;

/// Samples of a profile that stand for the same.
#[derive(Drop)]
struct Group {
    set: u8,
    // its stack and its labels
    text: String,
    count: u128,
    delay: u128,
}

/// The samples of a profile, in groups: a slow plain list.
#[derive(Drop)]
pub struct Groups {
    all: Vec<Group>,
    /// How many there are, and how long they took together.
    pub count: u128,
    pub delay: u128,
}

/// A number as a profile has it.
pub fn capped(number: u128) -> u64 {
    u64::try_from(number)
        .unwrap_or(u64::MAX)
        .min(0x7fff_ffff_ffff_ffff)
}

impl Groups {
    pub fn new(alloc: Global) -> Groups {
        Groups {
            all: Vec::new(alloc),
            count: 0,
            delay: 0,
        }
    }

    // Whether there was such a group. One more stands in it then.
    fn join(&mut self, set: u8, text: &str, count: u128, delay: u128) -> bool {
        for group in self.all.iter_mut() {
            if group.set == set && group.text.as_str() == text {
                group.count = group.count.saturating_add(count);
                group.delay = group.delay.saturating_add(delay);
                return true;
            }
        }
        false
    }

    /// One more of a group, which counts so many.
    pub fn add(
        &mut self,
        alloc: Global,
        set: u8,
        text: &str,
        count: u128,
        delay: u128,
    ) -> Result<(), Unanswered> {
        self.count = self.count.saturating_add(count);
        self.delay = self.delay.saturating_add(delay);
        if !self.join(set, text, count, delay) {
            self.all.push(Group {
                set,
                text: text.to_string(alloc)?,
                count,
                delay,
            })?;
        }
        Ok(())
    }

    /// Tells each group in a line: what it counts, where that is asked for its delay, its stack and its labels.
    pub fn tell(&self, page: &mut Page, has_delay: bool) -> Result<(), Unanswered> {
        for group in self.all.iter() {
            page.line("sample")?;
            page.number(" ", capped(group.count))?;
            if has_delay {
                page.number(" ", capped(group.delay))?;
            }
            page.text(group.text.as_str())?;
        }
        Ok(())
    }
}
