ghost use Rattle.std.specs.Prelude.{◌≡◌, ◌+◌, ◌-◌, ◌<◌, ◌≤◌, ◌++◌, [], List, ℕ, length, take, drop, vec_len};
ghost use Rattle.std.specs.Prelude.{Option, Some, IfOk, IfSome, OnOk, OnErr, IsErrOf};
ghost use Rattle.gp_io.specs.Outside.{Rose, Takes, TakesAtMost, Appends, AppendsSome};
ghost use Rattle.gp_io.specs.declared.whole.ReadError.TheVariants.{ReadFault, Memory};

use crate::sink::Sink;
use crate::source::{Failed, Source};
use gp_isa::Content;
use std::alloc::{AllocError, Global};

// The most bytes that one call of a source is asked for.
const BLOCK: usize = 4096;

/// Why a source was not read whole.
#[derive(Clone, Copy, Debug, PartialEq, Eq)]
pub enum ReadError {
    /// A call of the source failed.
    ReadFault,
    /// The source had more bytes than the limit.
    TooLong,
    /// Want of memory.
    Memory,
}

impl From<Failed> for ReadError {
    ghost from_gives = { λ _ e. e ≡ ReadFault };

    fn from(_failed: Failed) -> ReadError {
        ReadError::ReadFault
    }
}

impl From<AllocError> for ReadError {
    ghost from_gives = { λ _ e. e ≡ Memory };

    fn from(_error: AllocError) -> ReadError {
        ReadError::Memory
    }
}

/// Reads a source to its end. At most `limit` bytes are returned, and at most `limit + 1` are taken. What is
/// left after a fault isn't said.
pub fn read_all<S: Source>(
    alloc: Global,
    source: &mut S,
    limit: usize,
) -> Result<Content, ReadError>
    ensures all { IfOk result (λ c. IfSome (S.left source.old) (λ held. c ≡ held)) }
    ensures within { IfOk result (λ c. length c ≤ limit) }
    ensures nothing_left { OnOk result (IfSome (S.left source.old) (λ _. S.left source.new ≡ Some [])) }

    ensures too_long { IsErrOf result ReadError.TooLong
        → IfSome (S.left source.old) (λ held. limit < length held) }
    ensures one_more_taken { IsErrOf result ReadError.TooLong
        → IfSome (S.left source.old) (λ held. S.left source.new ≡ Some (drop (limit + 1) held)) }
    ensures some_taken { IsErrOf result ReadError.Memory
        → TakesAtMost (limit + 1) (S.left source.old) (S.left source.new) }

    ensures fault { IsErrOf result ReadError.ReadFault → Rose (S.faults source.old) (S.faults source.new) }
    ensures ok_without_fault { OnOk result (S.faults source.new ≡ S.faults source.old) }
    ensures too_long_without_fault { IsErrOf result ReadError.TooLong → S.faults source.new ≡ S.faults source.old }
    ensures memory_without_fault { IsErrOf result ReadError.Memory → S.faults source.new ≡ S.faults source.old }
{
    let mut bytes = Vec::new(alloc);
    while bytes.len() <= limit {
        if read_block(source, &mut bytes, limit)? == 0 {
            return Ok(Content::from_vec(bytes));
        }
    }
    Err(ReadError::TooLong)
}

// Takes a block, but not more than one byte past the limit. Answers how many bytes came: 0 is the end.
fn read_block<S: Source>(
    source: &mut S,
    bytes: &mut Vec<u8>,
    limit: usize,
) -> Result<usize, ReadError>
    requires { vec_len bytes.old ≤ limit }
    ensures count { IfOk result (λ n. vec_len bytes.new ≡ vec_len bytes.old + n) }
    ensures within { OnOk result (vec_len bytes.new ≤ limit + 1) }
    ensures taken { OnOk result ((piece : List ℕ) × (bytes.new.items ≡ bytes.old.items ++ piece)
        × Takes (S.left source.old) piece (S.left source.new)) }
    ensures some_taken { IsErrOf result ReadError.Memory
        → TakesAtMost (limit + 1 - vec_len bytes.old) (S.left source.old) (S.left source.new) }
    ensures end { IfOk result (λ n. n ≡ 0 → IfSome (S.left source.old) (λ held. held ≡ [])) }

    ensures never_too_long { IsErrOf result ReadError.TooLong → ⊥ }
    ensures fault { IsErrOf result ReadError.ReadFault → Rose (S.faults source.old) (S.faults source.new) }
    ensures ok_without_fault { OnOk result (S.faults source.new ≡ S.faults source.old) }
    ensures memory_without_fault { IsErrOf result ReadError.Memory → S.faults source.new ≡ S.faults source.old }
{
    let mut block = [0u8; BLOCK];
    let room = (limit - bytes.len()).min(BLOCK - 1) + 1;
    let n = source.read(&mut block[..room])?;
    bytes.extend_from_slice(&block[..n])?;
    Ok(n)
}

/// Writes a piece whole, with as many calls as the sink needs. After a call that fails it makes none: then a prefix of the
/// piece was appended, empty or not. It takes no memory, and answers what the sink answers.
pub fn write_all<O: Sink>(out: &mut O, piece: &[u8]) -> Result<(), Failed>
    ensures whole { OnOk result (Appends (O.written out.old) piece.now (O.written out.new)) }
    ensures prefix { OnErr result (AppendsSome (O.written out.old) piece.now (O.written out.new)) }
    ensures well { OnOk result (O.faults out.new ≡ O.faults out.old) }
    ensures failed { OnErr result (Rose (O.faults out.old) (O.faults out.new)) }
{
    let mut at = 0;
    while at < piece.len() {
        at += out.write(&piece[at..])?;
    }
    Ok(())
}
