ghost use Rattle.std.specs.Prelude.{◌≡◌, ◌<◌, ◌↔◌, ◌⊎◌, ℕ, Contains};

/// Routers, numbered from 0, and their steps for one address.
pub(crate) trait StepGraph {
    /// How many routers there are.
    ghost size: { Self → ℕ };

    /// Which router steps to which.
    ghost step: { Self → ℕ → ℕ → Type 0 };

    /// How many routers there are. No others step on.
    fn size(&self) -> u32
        ensures count { result ≡ size self.now }
        ensures inside { (u h : ℕ) → step self.now u h → u < size self.now };

    /// The routers that a router steps to, in two lists.
    fn hops(&self, router: u32) -> (&[u32], &[u32])
        requires { router < size self.now }
        ensures { (h : ℕ) → (Contains result.0.now h ⊎ Contains result.1.now h) ↔ step self.now router h };
}
