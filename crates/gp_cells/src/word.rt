//! The words of cells.
ghost use Rattle.std.specs.Prelude.{◌≡◌, ◌<◌, ◌^◌, ◌↔◌, IsTrue};
ghost use Rattle.gp_cells.specs.Words.{home_word, busy_word, kind_of, epoch_of, IsHome};

// The lowest bit of the kind, and that of the epoch.
const KIND: u64 = 1 << 62;

const EPOCH: u64 = 1 << 32;

/// The word of an empty cell.
pub const DEAD: u64 = 0;

/// The word of a body at home with an epoch.
pub fn home(epoch: u32) -> u64
    requires { epoch < 2 ^ 30 }
    ensures { result ≡ home_word epoch }
{
    KIND + u64::from(epoch) * EPOCH
}

/// Whether a word is that of a body at home.
pub fn is_home(word: u64) -> bool
    ensures { IsTrue result ↔ IsHome word }
{
    word >> 62 == 1 && word % EPOCH == 0
}

// The word of a body that an actor has by a claim, or else by a take.
pub(crate) fn busy(claims: bool, epoch: u32, actor: u32) -> u64
    requires { epoch < 2 ^ 30 }
    ensures { result ≡ busy_word claims epoch actor }
{
    if claims {
        2 * KIND + u64::from(epoch) * EPOCH + u64::from(actor)
    } else {
        3 * KIND + u64::from(epoch) * EPOCH + u64::from(actor)
    }
}

// Bits 62 and 63 of a word.
pub(crate) fn kind(word: u64) -> u64
    ensures { result ≡ kind_of word }
{
    word >> 62
}

// The epoch of a word.
pub(crate) fn epoch_in(word: u64) -> u32
    ensures value { result ≡ epoch_of word }
    ensures fits { result < 2 ^ 30 }
{
    ((word >> 32) % (1 << 30)) as u32
}
