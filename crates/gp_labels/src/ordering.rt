ghost use Rattle.std.specs.Prelude.{◌≡◌, List, ℕ, map, fold, IfOk, OnOk};
ghost use Rattle.gp_isa.specs.InLimits.{KeysRise};
ghost use Rattle.gp_labels.specs.LabelSet.{with_pair, canonical_of, value_of, last_value};
ghost use Rattle.gp_labels.specs.Entry.{pair_of_entry};

use gp_isa::{Memory, Pair, Pairs, Text};
use std::alloc::Global;
use std::collections::BTreeMap;

// The value of each key, the last one where it stands again.
fn values(alloc: Global, pairs: Pairs) -> Result<BTreeMap<String, String>, Memory>
    ensures { IfOk result (λ values. map pair_of_entry values.entries ≡ canonical_of pairs) }
{
    let mut values = BTreeMap::new(alloc);
    for pair in pairs.into_vec() {
        values.insert(pair.key.into_string(), pair.value.into_string())?;
    }
    Ok(values)
}

// The pairs of a map, in the order of its keys.
fn listed(alloc: Global, values: BTreeMap<String, String>) -> Result<Pairs, Memory>
    ensures { IfOk result (λ pairs. pairs ≡ map pair_of_entry values.entries) }
{
    let mut pairs = Pairs::new(alloc);
    for (key, value) in values {
        pairs.push(Pair {
            key: Text::from_string(key),
            value: Text::from_string(value),
        })?;
    }
    Ok(pairs)
}

/// The label set that pairs write: sorted by the bytes of the keys, each key once, with its last value.
///
/// The texts are moved, and memory is taken for the list and for a map by key. Its time grows with the pairs times the
/// logarithm of their number.
pub fn canonical(alloc: Global, pairs: Pairs) -> Result<Pairs, Memory>
    ensures set { IfOk result (λ set. set ≡ canonical_of pairs) }
    ensures rising { IfOk result KeysRise }
    ensures last { IfOk result (λ set. (key : List ℕ) → value_of key set ≡ last_value key pairs) }
{
    let values = values(alloc, pairs)?;
    listed(alloc, values)
}
