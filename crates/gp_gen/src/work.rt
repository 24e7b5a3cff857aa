//! How much work there is, in instructions. The products are taken in 128 bits.
ghost use Rattle.std.specs.Prelude.{◌≡◌, ◌<◌};
ghost use Rattle.gp_gen.specs.Generated.{caller_work, callee_work};

/// What the caller of a kind works in each of its turns.
pub(crate) fn caller_work(n: u64, j: u32) -> u32
    requires { j < 16 }
    ensures { result ≡ caller_work n j }
{
    let sum = 31 * u128::from(n) + 17 * u128::from(j);
    1000 + (sum % 97) as u32
}

/// What the callee of a kind works.
pub(crate) fn callee_work(n: u64, j: u32) -> u32
    requires { j < 16 }
    ensures { result ≡ callee_work n j }
{
    let sum = 7 * u128::from(n) + 5 * u128::from(j);
    10 + (sum % 13) as u32
}
