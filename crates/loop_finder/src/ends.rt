ghost use Rattle.std.specs.Prelude.{◌≡◌, ◌<◌, length};
ghost use Rattle.std.specs.Bool.{OnTrue};
ghost use Rattle.loop_finder.specs.steps.EndPairs.{new_hops, old_hops};

/// The hops of a router in both networks. One hop in each is told itself, so that it isn't looked up again.
#[derive(Clone, Copy)]
pub(crate) enum Ends<'m> {
    /// This hop alone, in both.
    One(u32),
    /// One hop in the old network, and another one in the new one.
    Two(u32, u32),
    /// The hops in the old network, and those in the new one.
    Each(&'m [u32], &'m [u32]),
}

impl<'m> Ends<'m> {
    /// The hops in the old network, and those in the new one.
    pub fn new(olds: &'m [u32], news: &'m [u32]) -> Ends<'m>
        ensures olds { old_hops result ≡ olds.now }
        ensures news { new_hops result ≡ news.now }
    {
        let ([old], [new]) = (olds, news) else {
            return Ends::Each(olds, news);
        };
        if old == new {
            Ends::One(*old)
        } else {
            Ends::Two(*old, *new)
        }
    }

    /// Whether there is a hop in both.
    pub fn moves(&self) -> bool
        ensures { OnTrue result ((0 < length (old_hops self.now)) × (0 < length (new_hops self.now))) }
    {
        match self {
            Ends::One(_) | Ends::Two(_, _) => true,
            Ends::Each(olds, news) => !olds.is_empty() && !news.is_empty(),
        }
    }
}
