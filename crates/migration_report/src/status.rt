/// How a call ended.
#[derive(Clone, Copy, Debug, PartialEq, Eq)]
pub enum Status {
    /// The answer is yes, or what was asked for is written.
    Done,
    /// The answer is no: the order isn't safe, there is none that is, the tree isn't closed, the journal fits no run.
    Negative,
    /// The words are refused.
    Words,
    /// A file could not be read.
    ReadFault,
    /// The answer could not be written whole.
    WriteFault,
    /// A configuration, the network or the order is refused.
    Refused,
    /// A number passes its limit.
    Limit,
    /// An end of the migration isn't sound.
    Unsound,
    /// The budget of branches was spent.
    Spent,
    /// There was no memory. Nothing is written.
    Memory,
}

impl Status {
    ghost use Rattle.std.specs.Prelude.{◌≡◌};
    ghost use Rattle.migration_report.specs.Codes.{code_of};

    /// The exit code of the program.
    pub fn code(self) -> u8
        ensures { result ≡ code_of self }
    {
        match self {
            Status::Done => 0,
            Status::Negative => 1,
            Status::Words => 2,
            Status::ReadFault => 3,
            Status::WriteFault => 4,
            Status::Refused => 5,
            Status::Limit => 6,
            Status::Unsound => 7,
            Status::Spent => 8,
            Status::Memory => 9,
        }
    }
}
