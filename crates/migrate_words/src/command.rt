use crate::{FileNames, Scheme};

/// The least budget of branches that a command takes.
pub const LEAST_BUDGET: u32 = 1;

/// The greatest budget of branches that a command takes.
pub const MOST_BUDGET: u32 = 100_000;

/// The budget of branches of a call that names none.
pub const USUAL_BUDGET: u32 = 10_000;

/// The fewest routers of a network that `sample` makes.
pub const LEAST_SAMPLE: u32 = 3;

/// The most routers of a network that `sample` makes.
pub const MOST_SAMPLE: u32 = 60;

/// The fewest routers that a wave may be cut to.
pub const LEAST_WAVE: u32 = 1;

/// The most routers that a wave may be cut to, the greatest number of its type: such a number cuts no wave.
pub const MOST_WAVE: u32 = 4_294_967_295;

/// The commands of the program.
#[derive(Clone, Copy, Debug, PartialEq, Eq)]
pub enum CommandKind {
    /// `check ORDER CONFIG...`: the verdict on an order of the migration, or on a list of waves, of routers or of single changes.
    Check,
    /// `prepare DESIGN CONFIG...`: the configurations with their IS-IS lines.
    Prepare,
    /// `plan [--budget N] CONFIG...`: waves of the migration that are safe throughout.
    Plan,
    /// `twopass [--budget N] CONFIG...`: waves of single changes, each router's two apart, that are safe throughout.
    TwoPass,
    /// `refute TREE CONFIG...`: the verdict on a tree that is to show that no order is safe.
    Refute,
    /// `scripts ORDER CONFIG...`: the lines of every change of an order or of a list of waves.
    Scripts,
    /// `replay ORDER JOURNAL CONFIG...`: the state that a journal of changes has reached.
    Replay,
    /// `sample N`: a summary of planning the made network of some routers.
    Sample,
    /// `pair [--budget N] OLD NEW`: waves that lead safely from a network to its redesign by a second OSPF process.
    Pair,
    /// `pairscripts ORDER OLD NEW`: the lines of every change between the two processes.
    PairScripts,
    /// `paircheck ORDER OLD NEW`: the verdict on an order between the two networks, or on a list of waves.
    PairCheck,
    /// `pairrefute TREE OLD NEW`: the verdict on a tree that is to show that no order between the two networks is safe.
    PairRefute,
    /// `split N ORDER CONFIG...`: the waves of an order that is safe, cut into waves of N routers at most.
    Split,
    /// `delta DESIGN CONFIG...`: the IS-IS lines alone that `prepare` writes into the configurations.
    Delta,
    /// `tables CONFIG...`: the entries of the route tables of both protocols.
    Tables,
    /// `why ORDER CONFIG...`: the verdict on an order or on a list of waves, and why it is so.
    Why,
    /// `picture ORDER CONFIG...`: the verdict on an order or on a list of waves, and the network as a picture with its waves.
    Picture,
    /// `failures ORDER CONFIG...`: the verdict on an order or on a list of waves, and on it in the network without each of its links.
    Failures,
    /// `rollback ORDER JOURNAL CONFIG...`: the lines that take the changes of a journal back, from the last to the first.
    Rollback,
    /// `replan [--budget N] ORDER JOURNAL CONFIG...`: waves of what a journal has left that are safe throughout.
    Replan,
    /// `observe ORDER BEFORE CONFIG...`: the journal of what was done, by the configurations of before and of now.
    Observe,
    /// `survey CONFIG...`: all that stands between the configurations and a plan.
    Survey,
    /// `design [--area AREA] [--level L] CONFIG...`: a design in which the IS-IS metrics are the OSPF costs.
    Design,
}

/// What a call asks for. Names of files are as they were given.
#[derive(Debug, Drop)]
pub struct Command<'a> {
    /// Which command it is.
    pub kind: CommandKind,
    /// The files of its own, in the order of its usage line.
    pub own: FileNames<'a>,
    /// The configurations: one file or more, or one of each of two networks, where the command takes any.
    pub configs: FileNames<'a>,
    /// The budget of branches, the number of routers, or how many a wave has at most; 0 where the command takes no number.
    pub number: u32,
    /// What a design is asked to say of every router, the usual scheme where the command takes none.
    pub scheme: Scheme<'a>,
}
