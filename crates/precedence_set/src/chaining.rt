ghost use Rattle.std.specs.Prelude.{◌≡◌, ℕ, ◌+◌, ◌^◌, ◌<◌, ◌≤◌, ◌⊎◌, length, slice_index, take, Contains};
ghost use Rattle.order_core.specs.Least.{IsLowest};
ghost use Rattle.order_core.specs.Pairs.{AreBelow};
ghost use Rattle.order_core.specs.Rankings.{rank_of, wave_count};
ghost use Rattle.precedence_set.specs.Layers.{AreLayers, IsChain, IsInLayer};

/// Writes the chain of the layers into the first places, in time of the pairs and routers. The parents are
/// room to work in.
pub(crate) fn trace_chain(
    pairs: &[(u32, u32)],
    layers: &[u32],
    count: u32,
    parents: &mut [u32],
    out: &mut [u32],
)
    requires small { length layers.now < 2 ^ 31 }
    requires below { AreBelow (length layers.now) pairs.now }
    requires layers { AreLayers (length layers.now) pairs.now layers.now }
    requires count { count ≡ wave_count layers.now }
    requires parents_length { length parents.old ≡ length layers.now }
    requires out_length { length out.old ≡ length layers.now }
    ensures { IsChain pairs.now layers.now (take count out.new) }
{
    if count == 0 {
        return;
    }
    find_parents(pairs, layers, parents);
    let mut k = count as usize - 1;
    out[k] = first_in_layer(layers, count - 1);
    while k > 0 {
        k -= 1;
        out[k] = parents[out[k + 1] as usize];
    }
}

/// No router of this number.
const NONE: u32 = u32::MAX;

/// Finds the lowest-numbered predecessor of each router in the layer before, where there is one.
fn find_parents(pairs: &[(u32, u32)], layers: &[u32], parents: &mut [u32])
    requires small { length layers.now < 2 ^ 31 }
    requires few { (u : ℕ) → rank_of layers.now u < 2 ^ 31 }
    requires below { AreBelow (length layers.now) pairs.now }
    requires parents_length { length parents.old ≡ length layers.now }
    ensures lowest { (u v : ℕ) → Contains pairs.now (u, v) → rank_of layers.now u + 1 ≡ rank_of layers.now v → slice_index parents.new v ≤ u }
    ensures found { (v : ℕ) → v < length layers.now → (slice_index parents.new v ≡ NONE)
        ⊎ (Contains pairs.now (slice_index parents.new v, v) × (rank_of layers.now (slice_index parents.new v) + 1 ≡ rank_of layers.now v)) }
{
    forget_parents(parents);
    for i in 0..pairs.len() {
        let (u, v) = pairs[i];
        if layers[u as usize] + 1 == layers[v as usize] {
            parents[v as usize] = parents[v as usize].min(u);
        }
    }
}

/// No parent is found yet.
fn forget_parents(parents: &mut [u32])
    ensures { (v : ℕ) → v < length parents.new → slice_index parents.new v ≡ NONE }
{
    for parent in parents.iter_mut() {
        *parent = NONE;
    }
}

/// The lowest-numbered router of a layer that has one.
fn first_in_layer(layers: &[u32], layer: u32) -> u32
    requires small { length layers.now < 2 ^ 31 }
    requires some { (u : ℕ) × IsInLayer layers.now layer u }
    ensures { IsLowest (IsInLayer layers.now layer) result }
{
    for router in 0..layers.len() as u32 {
        if layers[router as usize] == layer {
            return router;
        }
    }
    unreachable!()
}
