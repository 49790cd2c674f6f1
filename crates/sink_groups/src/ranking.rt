// The order in which the members of a group are tried.
ghost use Rattle.std.specs.Prelude.{◌≡◌, IfOk, length, ◌<◌, ◌^◌};
ghost use Rattle.sink_groups.specs.Ranking.{IsRanking, priority_of};

use crate::GroupKind;
use std::alloc::{AllocError, Global};
use std::cmp::Reverse;

fn priority_of(kind: GroupKind, priorities: &[u32], member: usize) -> u32
    requires { member < length priorities.now }
    ensures { result ≡ priority_of kind priorities.now member }
{
    match kind {
        GroupKind::Failover => priorities[member],
        GroupKind::Single | GroupKind::RoundRobin | GroupKind::Random => 0,
    }
}

/// All members, by their priorities.
pub fn ranking_of(
    alloc: Global,
    kind: GroupKind,
    priorities: &[u32],
) -> Result<Vec<u32>, AllocError>
    requires { length priorities.now < 2 ^ 32 }
    ensures { IfOk result (λ v. IsRanking kind priorities.now v.items) }
{
    let mut ranks = Vec::with_capacity(alloc, priorities.len())?;
    for place in 0..priorities.len() {
        ranks.push((Reverse(priority_of(kind, priorities, place)), place as u32))?;
    }
    ranks.sort_unstable();
    let mut ranking = Vec::with_capacity(alloc, ranks.len())?;
    for rank in &ranks {
        ranking.push(rank.1)?;
    }
    Ok(ranking)
}
