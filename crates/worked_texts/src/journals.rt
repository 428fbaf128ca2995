ghost use Rattle.std.specs.Prelude.{◌≡◌, length};
ghost use Rattle.order_core.specs.Rankings.{IsRanking};

use net_model::Net;
use state_replay::{Place, next_change, replay, replay_laws};
use std::test::Fail;
use test_networks::bare;

/// Routers 0, 1 and 2, each in a wave of its own.
fn one_by_one() -> [u32; 3]
    ensures { IsRanking 3 result }
{
    [0, 1, 2]
}

/// Routers 0 and 2 in the first wave, router 1 in the second.
fn two_waves() -> [u32; 3]
    ensures { IsRanking 3 result }
{
    [0, 1, 0]
}

/// Where a journal stands, and the number of the change that may come next on each router, 0 where none may.
fn stand(net: &Net, ranks: [u32; 3], journal: &[u8]) -> (Place, [u8; 3])
    requires ranking { IsRanking 3 ranks }
    requires routers { length net.now ≡ 3 }
{
    let mut done = [0; 3];
    let place = replay(net, &ranks, journal, &mut done);
    let mut next = [0; 3];
    for router in 0..3 {
        if let Some(half) = next_change(&ranks, &done, router) {
            next[router as usize] = half.number();
        }
    }
    (place, next)
}

#[test]
fn a_journal_of_an_order(rt: HostRuntime) -> Result<(), Fail> {
    let net = Net::build(rt.alloc(), bare(rt.alloc(), 3)?)?;
    assert!(rt; net.routers() == 3);
    for (journal, place, next) in [
        (
            b"journal 1\nR1 1\nR1 2\nR2 1\n".as_slice(),
            Place::Reached(3),
            [0, 2, 0],
        ),
        (b"journal 1\n", Place::Reached(0), [1, 0, 0]),
        (b"journal 1\nR1 1\nR1 1\n", Place::Departs(3), [2, 0, 0]),
        (b"", Place::Departs(1), [1, 0, 0]),
        (
            b"journal 1\nR1 1\nR1 2\nR2 1\nR2 2\nR3 1\nR3 2\n",
            Place::Reached(6),
            [0, 0, 0],
        ),
        (
            b"journal 1\nR1 1\nR1 2\nR2 1\nR2 2\nR3 1\nR3 2\n\n",
            Place::Departs(8),
            [0, 0, 0],
        ),
        (b"journal 1\nR1  1\n", Place::Departs(2), [1, 0, 0]),
    ] {
        let (its_place, its_next) = stand(&net, one_by_one(), journal);
        assert_eq!(rt; its_place, place, "{journal:?}");
        assert_eq!(rt; its_next, next, "{journal:?}");
    }
    replay_laws();
    Ok(())
}

#[test]
fn a_journal_of_waves(rt: HostRuntime) -> Result<(), Fail> {
    let net = Net::build(rt.alloc(), bare(rt.alloc(), 3)?)?;
    assert!(rt; net.routers() == 3);
    for (journal, place, next) in [
        (
            b"journal 1\nR3 1\nR1 1\n".as_slice(),
            Place::Reached(2),
            [2, 0, 2],
        ),
        (b"journal 1\nR2 1\n", Place::Departs(2), [1, 0, 1]),
        (
            b"journal 1\nR3 1\nR3 2\nR1 1\nR2 1\n",
            Place::Departs(5),
            [2, 0, 0],
        ),
    ] {
        let (its_place, its_next) = stand(&net, two_waves(), journal);
        assert_eq!(rt; its_place, place, "{journal:?}");
        assert_eq!(rt; its_next, next, "{journal:?}");
    }
    Ok(())
}
