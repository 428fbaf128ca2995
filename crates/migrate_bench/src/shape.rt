/// How the links of a network are laid out.
#[derive(Clone, Copy)]
pub enum Shape {
    /// Each router is linked to the next, and the last to the first.
    Ring,
    /// Rows of this many routers, of which the last may be shorter: each router is linked to those
    /// above, below, left and right of it.
    Grid(u32),
}

impl Shape {
    /// Whether a link joins u and v, among so many routers.
    pub fn joins(self, count: u32, u: u32, v: u32) -> bool {
        self.comes_after(count, u, v) || self.comes_after(count, v, u)
    }

    /// Whether v comes after u.
    fn comes_after(self, count: u32, u: u32, v: u32) -> bool {
        let one_on = v.checked_sub(1) == Some(u);
        match self {
            Shape::Ring => one_on || (v == 0 && count.checked_sub(1) == Some(u)),
            Shape::Grid(width) => v.checked_sub(width) == Some(u)
                || (one_on && v.checked_rem(width) != Some(0)),
        }
    }
}
