ghost use Rattle.std.specs.Prelude.{◌≡◌};
ghost use Rattle.shown_tables.specs.EntryLines.{igp_word};

/// An interior gateway protocol: the one that the network is moved from, or the one that it is moved to.
#[derive(Clone, Copy, Debug, PartialEq, Eq)]
pub enum Igp {
    /// The old one.
    Ospf,
    /// The new one.
    Isis,
}

impl Igp {
    /// Its name in a line.
    pub(crate) fn word(self) -> &'static [u8]
        ensures { result.now ≡ igp_word self }
    {
        match self {
            Igp::Ospf => b"ospf",
            Igp::Isis => b"isis",
        }
    }
}
