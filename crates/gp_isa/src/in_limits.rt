ghost use Rattle.std.specs.Prelude.{◌≡◌, ◌≤◌, ◌<◌, ◌↔◌, ℕ, suc, List, length, map, All, IsTrue, slice_index_or};
ghost use Rattle.std.specs.List.{list_any};
ghost use Rattle.std.specs.Str.{bytes_eq};
ghost use Rattle.gp_isa.specs.Limits.{most_functions, most_channels, most_mutexes, most_label_sets, most_capacity, most_loops};
ghost use Rattle.gp_isa.specs.Statement.{action, most_bodies};
ghost use Rattle.gp_isa.specs.InLimits.{AreNames, IsPair, ArePairs, KeysRise, IsAction, AreStatements, AreInLimits};

use crate::limits;
use crate::parts::{ChannelDecl, Function, LabelSet, MutexDecl, Pair, Parts};
use crate::statement::{Stmt, What};
use crate::text::Text;
use std::cmp::Ordering;

/// What has a name.
trait Named {
    ghost name_of: { Self → List ℕ };

    fn name(&self) -> &Text
        ensures { result.now ≡ name_of self.now };
}

impl Named for Function {
    ghost name_of = { λ f. f.name };

    fn name(&self) -> &Text {
        &self.name
    }
}

impl Named for ChannelDecl {
    ghost name_of = { λ c. c.name };

    fn name(&self) -> &Text {
        &self.name
    }
}

impl Named for MutexDecl {
    ghost name_of = { λ m. m.name };

    fn name(&self) -> &Text {
        &self.name
    }
}

impl Named for LabelSet {
    ghost name_of = { λ l. l.name };

    fn name(&self) -> &Text {
        &self.name
    }
}

// Whether one of them has this name.
fn has_name<N: Named>(items: &[N], name: &Text) -> bool
    ensures { result ≡ list_any (λ item. bytes_eq name.now (N.name_of item)) items.now }
{
    items
        .iter()
        .any(|item| name.as_str() == item.name().as_str())
}

// Whether their names are those of one space. Each is compared with all before it.
fn names_fit<N: Named>(items: &[N]) -> bool
    ensures { IsTrue result ↔ AreNames (map N.name_of items.now) }
{
    for (at, item) in items.iter().enumerate() {
        let name = item.name();
        if name.len() > limits::NAME_BYTES || has_name(&items[..at], name) {
            return false;
        }
    }
    true
}

fn pair_fits(pair: &Pair) -> bool
    ensures { IsTrue result ↔ IsPair pair.now }
{
    (1..=limits::NAME_BYTES).contains(&pair.key.len()) && pair.value.len() <= limits::NAME_BYTES
}

fn keys_rise(pairs: &[Pair]) -> bool
    ensures { IsTrue result ↔ KeysRise pairs.now }
{
    for next in 1..pairs.len() {
        let key = pairs[next - 1].key.as_bytes();
        if key.cmp(pairs[next].key.as_bytes()) != Ordering::Less {
            return false;
        }
    }
    true
}

fn pairs_fit(pairs: &[Pair]) -> bool
    ensures { IsTrue result ↔ ArePairs pairs.now }
{
    pairs.len() <= limits::PAIRS && pairs.iter().all(pair_fits) && keys_rise(pairs)
}

// Whether statements fit in which loops stand at most `deep` inside each other.
#[cycle(limits)]
fn statements_fit(parts: &Parts, body: &[Stmt], deep: u8) -> bool
    ensures { IsTrue result ↔ AreStatements parts.now (suc deep) body.now }
{
    for statement in body {
        if !action_fits(parts, &statement.what, deep) {
            return false;
        }
    }
    true
}

// Whether what a statement does fits.
#[cycle(limits)]
fn action_fits(parts: &Parts, what: &What, deep: u8) -> bool
    ensures { IsTrue result ↔ IsAction parts.now (AreStatements parts.now deep) (action what.now) }
{
    match what {
        What::Work { n } => *n >= 1,
        What::Call { f } => (*f as usize) < parts.functions.len(),
        What::Loop { n, body, .. } => {
            if *n == 0 {
                return false;
            }
            if deep == 0 {
                return false;
            }
            statements_fit(parts, body.get().as_slice(), deep - 1)
        }
        What::Send { c } => (*c as usize) < parts.channels.len(),
        What::Recv { c } => (*c as usize) < parts.channels.len(),
        What::Lock { m } => (*m as usize) < parts.mutexes.len(),
        What::Unlock { m } => (*m as usize) < parts.mutexes.len(),
        What::Spawn { f } => (*f as usize) < parts.functions.len(),
        What::Labels { s } => *s >= 1 && *s as usize <= parts.labels.len(),
    }
}

fn functions_fit(parts: &Parts) -> bool
    ensures { IsTrue result ↔ ((length parts.now.functions ≤ most_functions)
        × AreNames (map (λ (f : Function). f.name) parts.now.functions)
        × All (λ f. AreStatements parts.now most_bodies f.body) parts.now.functions) }
{
    let functions = parts.functions.as_slice();
    functions.len() <= limits::FUNCTIONS
        && names_fit(functions)
        && functions.iter().all(|f| statements_fit(parts, f.body.as_slice(), limits::LOOPS))
}

fn channels_fit(channels: &[ChannelDecl]) -> bool
    ensures { IsTrue result ↔ ((length channels.now ≤ most_channels)
        × AreNames (map (λ (c : ChannelDecl). c.name) channels.now)
        × All (λ c. c.capacity ≤ most_capacity) channels.now) }
{
    channels.len() <= limits::CHANNELS
        && names_fit(channels)
        && channels.iter().all(|c| c.capacity <= limits::CAPACITY)
}

fn mutexes_fit(mutexes: &[MutexDecl]) -> bool
    ensures { IsTrue result ↔ ((length mutexes.now ≤ most_mutexes) × AreNames (map (λ (m : MutexDecl). m.name) mutexes.now)) }
{
    mutexes.len() <= limits::MUTEXES && names_fit(mutexes)
}

fn labels_fit(labels: &[LabelSet]) -> bool
    ensures { IsTrue result ↔ ((length labels.now ≤ most_label_sets)
        × AreNames (map (λ (l : LabelSet). l.name) labels.now)
        × All (λ l. ArePairs l.pairs) labels.now) }
{
    labels.len() <= limits::LABEL_SETS
        && names_fit(labels)
        && labels.iter().all(|l| pairs_fit(l.pairs.as_slice()))
}

impl Parts {
    /// Whether the parts lie in their limits, which `check` requires: at most 256 functions, 1,024 channels of
    /// capacities up to 65,535, 1,024 mutexes and 255 label sets; names of at most 64 bytes, no two of one list
    /// alike; at most 16 pairs in a label set, their keys rising; counts of at least 1, loops at most eight deep,
    /// and whatever a statement names is there. It takes no memory. Its time grows with the statements and with the
    /// square of the names of a list, each two of which it compares.
    pub fn in_limits(&self) -> bool
        ensures { IsTrue result ↔ AreInLimits self.now }
    {
        functions_fit(self)
            && channels_fit(self.channels.as_slice())
            && mutexes_fit(self.mutexes.as_slice())
            && labels_fit(self.labels.as_slice())
    }
}
