ghost use Rattle.std.specs.Prelude.{◌≡◌, ◌≤◌, ◌<◌, ℕ};

/// A directed graph whose arcs cost 1 or more. Its vertices are numbered from 0, and so are the
/// arcs that leave each vertex; two arcs may join the same vertices.
pub trait CostGraph {
    /// How many vertices there are.
    ghost vertex_count: { Self → ℕ };

    /// How many arcs leave a vertex.
    ghost arc_count: { Self → ℕ → ℕ };

    /// Where the arc of this number from a vertex leads, and what it costs.
    ghost arc_at: { Self → ℕ → ℕ → ℕ × ℕ };

    /// The relation that the arcs make: from where, to where and at what cost.
    ghost has_arc: { Self → ℕ → ℕ → ℕ → Type 0 };

    /// How many vertices there are.
    fn vertices(&self) -> u32
        ensures { result ≡ vertex_count self.now };

    /// How many arcs leave u.
    fn arcs(&self, u: u32) -> u32
        requires { u < vertex_count self.now }
        ensures { result ≡ arc_count self.now u };

    /// Where the arc i from u leads, and what it costs.
    fn arc(&self, u: u32, i: u32) -> (u32, u32)
        requires vertex { u < vertex_count self.now }
        requires index { i < arc_count self.now u }
        ensures { result ≡ arc_at self.now u i };

    /// Each arc that is counted is one of the relation.
    ghost counted_is_arc: { (g : Self) (u i : ℕ) → u < vertex_count g → i < arc_count g u →
        has_arc g u (arc_at g u i).0 (arc_at g u i).1 };

    /// Each arc of the relation is counted.
    ghost arc_is_counted: { (g : Self) (u v c : ℕ) → u < vertex_count g → has_arc g u v c →
        (i : ℕ) × (i < arc_count g u) × (arc_at g u i ≡ (v, c)) };

    /// An arc ends at a vertex.
    ghost end_is_vertex: { (g : Self) (u v c : ℕ) → u < vertex_count g → has_arc g u v c →
        v < vertex_count g };

    /// An arc costs at least 1.
    ghost cost_is_positive: { (g : Self) (u v c : ℕ) → u < vertex_count g → has_arc g u v c →
        1 ≤ c };
}
