//! The replies to a whole list of steps.

ghost use Rattle.std.specs.Prelude.{◌≡◌, ◌<◌, ◌↔◌, [], IfOk, IfErr};
ghost use Rattle.arcstr_count.specs.Model.{replies_from, replies, start};
ghost use Rattle.arcstr_world.specs.Worlds.{WorldView};
ghost use Rattle.arcstr_count.specs.Laws.{HoldsInEveryInterleaving};

use crate::faults::RunFault;
use crate::worlds::World;
use arcstr_count::{RC_MAX, Reply, Step, every_interleaving};
use std::alloc::Allocator;

/// Returns the reply to each step of a list, starting from the empty history. The limit is the
/// greatest count, in handles, at which a clone still counts.
///
/// The call allocates the replies and a world, and frees the world. It first checks for
/// `LimitTooLarge`, a limit above `RC_MAX`; then it fails with `Memory` if an allocation fails.
///
/// ```
/// use arcstr_count::{Reply, Step};
/// let steps = [Step::Make, Step::Clone(0), Step::Look(1)];
/// let replies = run(rt.alloc(), 2, &steps)?;
/// assert_eq!(rt; replies.last(), Some(&Reply::Count(2)));
/// ```
pub fn run<A: Allocator + Copy>(
    alloc: A,
    limit: u64,
    steps: &[Step],
) -> Result<Vec<Reply, A>, RunFault>
    // Promise: It fails with `LimitTooLarge` exactly if the limit is above `RC_MAX`.
    ensures too_large { (result ≡ Err RunFault.LimitTooLarge) ↔ (RC_MAX < limit) }

    // Promise: The steps before a step decide its reply.
    ensures replies { IfOk result (λ found. found.items ≡ replies limit steps.now) }

    // What holds after every prefix of the steps, for every block made in it.
    // Promise: Every interleaving keeps the six laws.
    ensures laws { HoldsInEveryInterleaving limit steps.now }
{
    every_interleaving(limit, steps);
    let world = World::new(alloc, limit)?;
    replies_of(alloc, world, steps)
}

/// Returns the replies of a world to the steps of a list.
fn replies_of<A: Allocator + Copy>(
    alloc: A,
    mut world: World<A>,
    steps: &[Step],
) -> Result<Vec<Reply, A>, RunFault>
    ensures memory { IfErr result (λ fault. fault ≡ RunFault.Memory) }
    ensures replies { IfOk result (λ found. found.items
        ≡ replies_from world.limit world.state steps.now) }
{
    let mut replies = Vec::new(alloc);
    for step in steps {
        let reply = world.step(*step)?;
        if replies.push(reply).is_err() {
            return Err(RunFault::Memory);
        }
    }
    Ok(replies)
}
