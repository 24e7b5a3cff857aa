//! What stands behind the lock of a run.
use crate::naming::Naming;
use gp_machine::Run;
use gp_stack::Body;
use gp_world::World;
use std::marker::{Model, PhantomData};

/// What the actors of a run share: its world, and the bodies of the goroutines that were born, by number. Its value is the
/// world's.
#[derive(Drop)]
pub struct Locked<K: Naming, R: Run> {
    pub(crate) world: World<R>,
    pub(crate) bodies: Vec<Body>,
    pub(crate) of: PhantomData<K>,
}

impl<K: Naming, R: Run> Model for Locked<K, R> {
    ghost use Rattle.std.specs.Vec.{vec_capacity};
    ghost use Rattle.gp_world.specs.Scene.{Scene};
    ghost use Rattle.gp_workers.specs.kept.Locked.{IsLocked};

    ghost Value = { Scene };

    ghost view = { λ l. l.world };

    ghost invariant = { λ l. IsLocked K.book K.ring R.program R.settings l.world (vec_capacity l.bodies) l.bodies.items };
}

impl<K: Naming, R: Run> Locked<K, R> {
    /// Notes that somebody met want of memory.
    pub(crate) fn fail(&mut self) {
        self.world.fail();
    }
}
