ghost use Rattle.std.specs.Prelude.{◌≡◌, ◌+◌, ◌<◌, ◌==◌, nat_lt, if◌then◌else◌, ℕ, refl};
ghost use Rattle.std.proofs.Common.{rules, arith};
ghost use Rattle.std.proofs.lemmas.Grind.{common_steps};

use std::test::Fail;
use walk_core::{CostGraph, Offer, least_walks};

/// The graph that `least_walks` draws.
struct Drawn;

impl CostGraph for Drawn {
    ghost vertex_count = { λ _. 5 };

    ghost arc_count = { λ _ u. if u == 0 then 2 else (if nat_lt u 3 then 1 else 0) };

    ghost arc_at = { λ _ u i. if u == 0 then (i + 1, 1) else (3, 1) };

    ghost has_arc = { λ _ u v c. (i : ℕ) ×
        (i < (if u == 0 then 2 else (if nat_lt u 3 then 1 else 0))) ×
        ◌≡◌ {A = ℕ × ℕ} (if u == 0 then (i + 1, 1) else (3, 1)) (v, c) };

    fn vertices(&self) -> u32 {
        5
    }

    fn arcs(&self, u: u32) -> u32 {
        if u == 0 {
            2
        } else if u < 3 {
            1
        } else {
            0
        }
    }

    fn arc(&self, u: u32, i: u32) -> (u32, u32) {
        if u == 0 { (i + 1, 1) } else { (3, 1) }
    }

    ghost counted_is_arc = { λ g u i _ index. (i, index, refl) };

    ghost arc_is_counted = { λ g u v c _ arc. arc };

    ghost end_is_vertex = { λ g u v c _ arc. Prim.grind (arith, common_steps) };

    ghost cost_is_positive = { λ g u v c _ arc. Prim.grind (arith, common_steps) };
}

#[test]
fn drawn_graph(rt: HostRuntime) -> Result<(), Fail> {
    let walks = least_walks(rt.alloc(), &Drawn, 0)?;
    assert_eq!(rt; walks.distance(3), Some(2));
    assert_eq!(rt; walks.distance(4), None);
    assert!(rt; walks.first_hop(3, 1) && walks.first_hop(3, 2));
    let offers = [Offer { at: 1, asks: 6 }, Offer { at: 3, asks: 5 }];
    assert_eq!(rt; walks.best_cost(&offers), Some(7));
    let hops = walks.hops_towards(rt.alloc(), &offers, 7, 5)?;
    assert_eq!(rt; hops.as_slice(), [1, 2].as_slice());
    Ok(())
}
