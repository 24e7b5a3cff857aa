ghost use Rattle.std.specs.Prelude.{◌≡◌, ◌<◌, ◌+◌, ◌-◌, ◌^◌};
ghost use Rattle.gp_layout.specs.Words as bits;

/// How many offers the pending loss counts; 0 where none is pending.
pub fn count_of(overflow: u64) -> u32
    ensures { result ≡ bits.count_of overflow }
{
    (overflow % (1 << 32)) as u32
}

/// The change number, which rises with each first loss and whenever a loss is taken.
pub fn change_of(overflow: u64) -> u32
    ensures { result ≡ bits.change_of overflow }
{
    (overflow >> 32) as u32
}

/// The overflow word with one more offer counted.
pub fn bump(overflow: u64) -> u64
    requires { bits.count_of overflow < 2 ^ 32 - 1 }
    ensures count { bits.count_of result ≡ bits.count_of overflow + 1 }
    ensures change { bits.change_of result ≡ bits.change_of overflow }
{
    overflow + 1
}

/// The overflow word after the pending loss was taken: the next change number, and no count.
pub fn taken(overflow: u64) -> u64
    requires { bits.change_of overflow < 2 ^ 32 - 1 }
    ensures count { bits.count_of result ≡ 0 }
    ensures change { bits.change_of result ≡ bits.change_of overflow + 1 }
{
    ((overflow >> 32) + 1) << 32
}
