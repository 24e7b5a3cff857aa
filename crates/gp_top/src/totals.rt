ghost use Rattle.std.specs.Prelude.{◌≡◌, ◌≤◌, ◌+◌};
ghost use Rattle.gp_events.specs.Sums.{total_count, total_delay};
ghost use Rattle.gp_top.specs.Files.{capped, totals_of};

use gp_events::Sum;
use gp_report::Totals;

/// The largest sum that is told.
const MOST: u64 = 9_223_372_036_854_775_807;

// The counts of all stacks, and their delays, each as it's told.
#[derive(Clone, Copy)]
struct Waits {
    count: u64,
    delay: u64,
}

// A sum more, as far as it's told.
fn with_more(sum: u64, more: u128) -> u64
    requires { sum ≤ 9223372036854775807 }
    ensures { result ≡ capped (sum + more) }
{
    let more = more.min(u128::from(MOST)) as u64;
    sum.saturating_add(more).min(MOST)
}

fn total_waits(sums: &[Sum]) -> Waits
    ensures count { result.count ≡ capped (total_count sums.now) }
    ensures delay { result.delay ≡ capped (total_delay sums.now) }
{
    let mut all = Waits { count: 0, delay: 0 };
    for sum in sums {
        all = Waits {
            count: with_more(all.count, sum.count),
            delay: with_more(all.delay, sum.delay),
        };
    }
    all
}

/// The sums of block events, and of mutex events, over all stacks.
pub(crate) fn totals(block: &[Sum], mutex: &[Sum]) -> Totals
    ensures { result ≡ totals_of block.now mutex.now }
{
    let block = total_waits(block);
    let mutex = total_waits(mutex);
    Totals {
        block_count: block.count,
        block_delay: block.delay,
        mutex_count: mutex.count,
        mutex_delay: mutex.delay,
    }
}
