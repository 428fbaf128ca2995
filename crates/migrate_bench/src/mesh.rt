ghost use Rattle.std.specs.Prelude.{◌≡◌, ◌<◌, ◌≤◌, ℕ, [], Contains, slice_index, slice_index_or, length, vec_len};
ghost use Rattle.std.proofs.Common.{subst, arith};
ghost use Rattle.std.proofs.lemmas.List.Elements.{Contains-get_or};
ghost use Rattle.std.proofs.lemmas.List.{get_or_default};
ghost use Rattle.migrate_bench.specs.Rows.{ListsRouters};

use crate::shape::Shape;
use std::alloc::{AllocError, Global};
use std::marker::Model;
use walk_core::CostGraph;

/// The neighbors of a router.
#[derive(Drop)]
struct Neighbors {
    all: Vec<u32>,
}

impl Model for Neighbors {
    ghost use Rattle.std.specs.Prelude.{List, ℕ};

    ghost Value = { List ℕ };

    ghost view = { λ x. x.all.items };
}

/// Routers that links join, each at the cost 1 in both directions.
#[derive(Drop)]
pub struct Mesh {
    count: u32,
    rows: Vec<Neighbors>,
    ghost whole: { vec_len rows ≡ count },
    ghost row: { (u : ℕ) → u < count → ListsRouters count (slice_index_or rows.items u []) },
}

impl Mesh {
    /// So many routers, with the links of a shape.
    pub fn new(alloc: Global, shape: Shape, count: u32) -> Result<Mesh, AllocError> {
        let mut rows = Vec::new(alloc);
        for u in 0..count {
            rows.push(Neighbors::beside(alloc, shape, count, u)?)?;
        }
        Ok(Mesh { count, rows })
    }
}

impl Neighbors {
    ghost use Rattle.std.specs.Prelude.{IfOk};
    ghost use Rattle.migrate_bench.specs.Rows.{ListsRouters};

    /// The routers that a link joins to u.
    fn beside(alloc: Global, shape: Shape, count: u32, u: u32) -> Result<Neighbors, AllocError>
        ensures { IfOk result (λ row. ListsRouters count row) }
    {
        let mut all = Vec::new(alloc);
        for v in 0..count {
            if shape.joins(count, u, v) {
                all.push(v)?;
            }
        }
        Ok(Neighbors { all })
    }
}

impl CostGraph for Mesh {
    ghost vertex_count = { λ m. m.count };

    ghost arc_count = { λ m u. length (slice_index_or m.rows.items u []) };

    ghost arc_at = { λ m u i. (slice_index (slice_index_or m.rows.items u []) i, 1) };

    ghost has_arc = { λ m u v c. Contains (slice_index_or m.rows.items u []) v × (1 ≡ c) };

    fn vertices(&self) -> u32 {
        self.count
    }

    fn arcs(&self, u: u32) -> u32 {
        self.rows[u as usize].all.len() as u32
    }

    fn arc(&self, u: u32, i: u32) -> (u32, u32) {
        (self.rows[u as usize].all[i as usize], 1)
    }

    ghost counted_is_arc = { λ m u i _ index.
        (Contains-get_or (slice_index_or m.rows.items u []) i 0 index, Prim.cc) };

    ghost arc_is_counted = { λ m u v c _ arc. (
      arc.0.0,
      arc.0.1,
      (let e = get_or_default (slice_index_or m.rows.items u []) arc.0.0 0 v arc.0.1 in
          Prim.cc (e, arc.0.2, arc.1)),
    ) };

    ghost end_is_vertex = { λ m u v c below arc.
        (let e = get_or_default (slice_index_or m.rows.items u []) arc.0.0 0 v arc.0.1 in
        subst (λ (n : ℕ). n < m.count) (Prim.cc (e, arc.0.2)) ((m.row u below).within arc.0.0 arc.0.1)) };

    ghost cost_is_positive = { λ m u v c _ arc. subst (λ (n : ℕ). 1 ≤ n) arc.1 (Prim.search arith) };
}
