//! The channel, the mutexes and the label sets.
ghost use Rattle.std.specs.Prelude.{◌≡◌, ◌<◌, ◌≤◌, [], ◌∷◌, IfOk, codes};
ghost use Rattle.std.specs.Fmt.{decimal};
ghost use Rattle.gp_gen.specs.Generated.{numbered, each_below, done_channel, mutex_of, label_set_of};

use gp_isa::{
    ChannelDecl, Channels, LabelSet, LabelSets, Memory, MutexDecl, Mutexes, Pair, Sequence, Text,
};
use std::alloc::Global;

// A list of one thing.
fn only<T: Drop>(alloc: Global, item: T) -> Result<Sequence<T>, Memory>
    ensures { IfOk result (λ all. all ≡ item ∷ []) }
{
    let mut all = Sequence::new(alloc);
    all.push(item)?;
    Ok(all)
}

/// The channel into which every goroutine sends once, with room for all.
pub(crate) fn channels(alloc: Global, q: u32) -> Result<Channels, Memory>
    requires { q < 64 }
    ensures { IfOk result (λ channels. channels ≡ done_channel q ∷ []) }
{
    only(
        alloc,
        ChannelDecl {
            name: Text::from_str(alloc, "done")?,
            line: 1,
            capacity: 16 * q,
        },
    )
}

fn mutex(alloc: Global, m: u32) -> Result<MutexDecl, Memory>
    requires { m < 4 }
    ensures { IfOk result (λ mutex. mutex ≡ mutex_of m) }
{
    Ok(MutexDecl {
        name: Text::from_string(format!(in alloc; "m{m}")?),
        line: 2 + m,
    })
}

/// The four mutexes.
#[tactic(auto, using(crate::proofs::Below::more_below))]
pub(crate) fn mutexes(alloc: Global) -> Result<Mutexes, Memory>
    ensures { IfOk result (λ mutexes. mutexes ≡ each_below mutex_of 4) }
{
    let mut all = Mutexes::new(alloc);
    for m in 0..4 {
        all.push(mutex(alloc, m)?)?;
    }
    Ok(all)
}

fn label_set(alloc: Global, j: u32) -> Result<LabelSet, Memory>
    requires { j < 16 }
    ensures { IfOk result (λ set. set ≡ label_set_of j) }
{
    let pair = Pair {
        key: Text::from_str(alloc, "kind")?,
        value: Text::from_string(format!(in alloc; "{j}")?),
    };
    Ok(LabelSet {
        name: Text::from_string(format!(in alloc; "l{j}")?),
        line: 6 + j,
        pairs: only(alloc, pair)?,
    })
}

/// The label set of each kind.
#[tactic(auto, using(crate::proofs::Below::more_below))]
pub(crate) fn label_sets(alloc: Global) -> Result<LabelSets, Memory>
    ensures { IfOk result (λ sets. sets ≡ each_below label_set_of 16) }
{
    let mut all = LabelSets::new(alloc);
    for j in 0..16 {
        all.push(label_set(alloc, j)?)?;
    }
    Ok(all)
}
