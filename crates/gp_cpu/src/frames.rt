ghost use Rattle.std.specs.Prelude.{◌≡◌, ◌<◌, map, take, drop, slice_index, IfOk};
ghost use Rattle.gp_ring.specs.PlainRing.{record_in};
ghost use Rattle.gp_cpu.specs.Records.{frame_of, cpu_record_of};
ghost use Rattle.gp_cpu.specs.Batch.{BeginsWithRecord, first_words, first_size};

use crate::record::CpuRecord;
use gp_isa::{Frame, Memory, Sequence};
use gp_layout::decode_at;
use gp_stack::Stack;
use std::alloc::Global;

// How many header words a record has.
const HEADER_WORDS: u32 = 1;

// The frame that a word spells.
fn frame(word: u64) -> Frame
    ensures { result ≡ frame_of word }
{
    Frame {
        function: (word / 4_294_967_296) as u32,
        line: (word % 4_294_967_296) as u32,
    }
}

// The stack that words spell.
fn stack(alloc: Global, words: &[u64]) -> Result<Stack, Memory>
    ensures { IfOk result (λ stack. stack ≡ map frame_of words.now) }
{
    let mut frames = Vec::with_capacity(alloc, words.len())?;
    for word in words {
        frames.push(frame(*word))?;
    }
    Ok(Sequence::from_vec(frames))
}

/// The record that stands first, with its tag.
pub(crate) fn first_record(alloc: Global, words: &[u64], tag: u64) -> Result<CpuRecord, Memory>
    requires { BeginsWithRecord words.now }
    ensures { IfOk result (λ it. it ≡ cpu_record_of (record_in 1 tag (first_words words.now))) }
{
    let laid = decode_at(words, 0, HEADER_WORDS);
    let header = words[laid.header];
    if header == 0 {
        return Ok(CpuRecord::Lost {
            count: words[laid.stack],
            time: laid.time,
        });
    }
    Ok(CpuRecord::Sample {
        time: laid.time,
        tag,
        header,
        stack: stack(alloc, &words[laid.stack..laid.end])?,
    })
}
