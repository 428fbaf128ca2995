/// The longest prefix of a list that contains an address.
#[derive(Clone, Copy, Debug)]
pub struct Match {
    /// The prefix's place in the list.
    pub place: usize,
    /// Its length.
    pub len: u8,
}

impl Match {
    ghost use Rattle.net_addr.specs.LongestMatches.{TakesLonger};

    /// The longer of this match and an earlier one, and the earlier one where they are as long.
    pub fn or_longer(self, earlier: Option<Match>) -> Match
        ensures { TakesLonger earlier self result }
    {
        match earlier {
            Some(other) if self.len <= other.len => other,
            _ => self,
        }
    }
}
