//! Whether what a run gave is what its journal comes to.
use crate::goroutine::Shown;
use crate::replay::{Profile, Sample};
use gp_cpu::CpuRecord;
use gp_stack::{Record, Records};

fn is_shown(record: &Record, shown: &Shown) -> bool {
    record.g == shown.g
        && record.set == shown.set
        && record.stack.as_slice() == shown.frames.as_slice()
}

/// Whether the records are those of the frozen goroutines, each once, in the order of the entries that took them.
pub fn is_profile(records: &Records, profile: &Profile) -> bool {
    let as_many = records.len() == profile.frozen.len() && records.len() == profile.taken.len();
    let mut all = as_many;
    for (record, g) in records.iter().zip(profile.taken.iter()) {
        let shown = profile.frozen.iter().any(|shown| is_shown(record, shown));
        all = all && record.g == *g && shown;
    }
    all
}

// The rate record, which is offered before all samples.
fn is_rate(record: &CpuRecord, hz: u32) -> bool {
    match record {
        CpuRecord::Sample {
            time,
            tag,
            header,
            stack,
        } => *time == 0 && *tag == 0 && *header == u64::from(hz) && stack.is_empty(),
        CpuRecord::Lost { .. } => false,
    }
}

// How many samples a record stands for, from one on.
fn stands_for(record: &CpuRecord, sample: &Sample) -> Option<u64> {
    match record {
        CpuRecord::Sample {
            time,
            tag,
            header,
            stack,
        } => {
            let is_it = *time == sample.time
                && *tag == u64::from(sample.set)
                && *header == 1
                && stack.as_slice() == sample.frames.as_slice();
            if is_it { Some(1) } else { None }
        }
        CpuRecord::Lost { count, time } => {
            if *time == sample.time {
                Some(*count)
            } else {
                None
            }
        }
    }
}

/// Whether records begin with the rate record, and then cover samples in order: each is delivered, or is one of those that a loss
/// counts, whose first one's time it has.
pub fn are_covered(records: &[CpuRecord], hz: u32, samples: &[Sample]) -> bool {
    let mut is_first = true;
    let mut all = !records.is_empty();
    let mut at = 0_u64;
    for record in records {
        if is_first {
            all = all && is_rate(record, hz);
            is_first = false;
        } else {
            let stands = match samples.get(at as usize) {
                Some(sample) => stands_for(record, sample).unwrap_or(0),
                None => 0,
            };
            all = all && stands > 0;
            at = at.saturating_add(stands);
        }
    }
    all && at == samples.len() as u64
}
