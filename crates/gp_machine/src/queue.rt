ghost use Rattle.std.specs.Prelude.{◌≡◌, ◌<◌, ◌≤◌, [], ◌∷◌, ◌++◌, length, slice_set, IfOk};
ghost use Rattle.gp_isa.specs.Limits.{most_cells};
ghost use Rattle.gp_journal.specs.Standing.{head_of, times, without};

use gp_isa::Memory;
use std::alloc::Global;
use std::marker::Model;

/// Goroutines in the order in which they came; any of them may leave.
///
/// Each stands in the queue at most once. No call but `new` takes memory, and each other takes constant time.
#[derive(Debug, Drop)]
pub struct Queue {
    // A goroutine's place is its number. The place past them all is the end's, which is before the head and behind the
    // tail: so everyone has two neighbours, and no step asks whether someone is the first or the last.
    //
    // by place: the place behind it, as long as someone stands there
    next: Vec<u32>,
    // by place: the place before it
    prev: Vec<u32>,
    end: u32,
    len: u32,
}

impl Model for Queue {
    ghost use Rattle.gp_machine.specs.Queue.{Line};
    ghost use Rattle.gp_machine.specs.kept.Ring.{items_of, IsRing};

    ghost Value = { Line };

    ghost view = { λ q. record { cells = q.end; items = items_of q.next.items q.end q.len } };

    ghost invariant = { λ q. IsRing q.next.items q.prev.items q.end q.len };
}

// Makes two places neighbours.
fn join(next: &mut [u32], prev: &mut [u32], before: u32, behind: u32)
    requires before { before < length next.old }
    requires behind { behind < length prev.old }
    ensures next { next.new ≡ slice_set next.old before behind }
    ensures prev { prev.new ≡ slice_set prev.old behind before }
{
    next[before as usize] = behind;
    prev[behind as usize] = before;
}

impl Queue {
    /// An empty queue for goroutines whose numbers are below `cells`.
    pub fn new(alloc: Global, cells: u32) -> Result<Queue, Memory>
        requires { cells ≤ most_cells }
        ensures { IfOk result (λ queue. queue ≡ record { cells = cells; items = [] }) }
    {
        let places = cells as usize + 1;
        let next = vec![in alloc; cells; places]?;
        let prev = vec![in alloc; cells; places]?;
        Ok(Queue {
            next,
            prev,
            end: cells,
            len: 0,
        })
    }

    /// Lets goroutine g, which stands nowhere in the queue, stand at its tail.
    pub fn push_back(&mut self, g: u32)
        requires within { g < self.old.cells }
        requires absent { times g self.old.items ≡ 0 }
        ensures { self.new ≡ record self.old { items = self.old.items ++ g ∷ [] } }
    {
        let end = self.end;
        let tail = self.prev[end as usize];
        join(&mut self.next, &mut self.prev, tail, g);
        join(&mut self.next, &mut self.prev, g, end);
        self.len += 1;
    }

    /// Lets goroutine g, which stands nowhere in the queue, stand at its head.
    pub fn push_front(&mut self, g: u32)
        requires within { g < self.old.cells }
        requires absent { times g self.old.items ≡ 0 }
        ensures { self.new ≡ record self.old { items = g ∷ self.old.items } }
    {
        let end = self.end;
        let head = self.next[end as usize];
        join(&mut self.next, &mut self.prev, end, g);
        join(&mut self.next, &mut self.prev, g, head);
        self.len += 1;
    }

    /// Takes goroutine g, wherever it stands, from the queue.
    pub fn remove(&mut self, g: u32)
        requires within { g < self.old.cells }
        requires once { times g self.old.items ≡ 1 }
        ensures { self.new ≡ record self.old { items = without g self.old.items } }
    {
        let before = self.prev[g as usize];
        let behind = self.next[g as usize];
        join(&mut self.next, &mut self.prev, before, behind);
        self.len -= 1;
    }

    /// The goroutine that has stood in the queue for longest, if any stands there.
    pub fn head(&self) -> Option<u32>
        ensures { result ≡ head_of self.now.items }
    {
        if self.len == 0 {
            return None;
        }
        Some(self.next[self.end as usize])
    }

    /// How many goroutines stand in the queue.
    pub fn len(&self) -> u32
        ensures { result ≡ length self.now.items }
    {
        self.len
    }
}
