ghost use Rattle.std.specs.Prelude.{◌≡◌, IfOk};
ghost use Rattle.gp_wire.specs.Canonical.{canon};

use crate::message::Message;
use crate::profile::Profile;
use gp_isa::{Content, Memory};
use std::alloc::Global;

/// The canonical bytes of a profile: the fields of each message in the order of their numbers. Nothing is
/// renumbered, and nothing is tested: ids and places in the string table are written as they stand.
#[tactic(auto, unfolding(crate::specs::Canonical::canon))]
pub fn write(alloc: Global, profile: &Profile) -> Result<Content, Memory>
    ensures { IfOk result (λ content. content ≡ canon profile.now) }
{
    let mut out = Vec::new(alloc);
    profile.put(alloc, &mut out)?;
    Ok(Content::from_vec(out))
}
