ghost use Rattle.std.specs.Prelude.{◌≡◌, map};
ghost use Rattle.migrate_words.specs.Usages.{kinds, network_names, usage_of};
ghost use Rattle.migrate_words.specs.steps.Seen.{argument_names, kind_of_entry, usage_seen};

use crate::CommandKind;

/// The number that a command takes, or the options in its place.
#[derive(Clone, Copy, Debug, PartialEq, Eq)]
pub(crate) enum NumberTaken {
    /// None.
    NoNumber,
    /// The option `--budget N`: the most branches of a search.
    Budget,
    /// `N`: the number of routers of a network.
    Routers,
    /// `N`: how many routers a wave has at most.
    WaveSize,
    /// The options `--area AREA` and `--level L`: no number, but what a design says of every router.
    DesignOptions,
}

/// The configuration files that a command takes.
#[derive(Clone, Copy, Debug, PartialEq, Eq)]
pub(crate) enum ConfigFiles {
    /// None.
    NoConfigs,
    /// `CONFIG...`: those of one network, one file or more.
    Several,
    /// `OLD NEW`: those of two networks, one file each.
    Networks,
}

/// A file that a command takes: its name in the usage line, and what it is.
pub(crate) struct OwnFile {
    pub name: &'static str,
    pub help: &'static str,
}

/// A subcommand: its command, its word, what it does, its usage line, and what it takes.
pub(crate) struct Subcommand {
    pub kind: CommandKind,
    pub word: &'static str,
    pub about: &'static str,
    pub usage: &'static str,
    pub number: NumberTaken,
    pub own: &'static [OwnFile],
    pub configs: ConfigFiles,
}

const ORDER: OwnFile = OwnFile {
    name: "ORDER",
    help: "The order file: routers in the order of their changes, or waves of routers",
};

const JOURNAL: OwnFile = OwnFile {
    name: "JOURNAL",
    help: "The journal file: the changes that are done, one a line",
};

const BEFORE: OwnFile = OwnFile {
    name: "BEFORE",
    help: "The configurations as they were before the first change, all in one file",
};

const DESIGN: OwnFile = OwnFile {
    name: "DESIGN",
    help: "The design file, in TOML",
};

const TREE: OwnFile = OwnFile {
    name: "TREE",
    help: "The tree file, as it was printed",
};

static NETWORKS: [OwnFile; 2] = [
    OwnFile {
        name: "OLD",
        help: "The configurations of the network as it is",
    },
    OwnFile {
        name: "NEW",
        help: "The configurations of the network as it is to be",
    },
];

/// The files of two networks.
pub(crate) fn networks() -> &'static [OwnFile]
    ensures { argument_names result.now ≡ network_names }
{
    &NETWORKS
}

static SUBCOMMANDS: [Subcommand; 23] = [
    Subcommand {
        kind: CommandKind::Survey,
        word: "survey",
        about: "Tells all that stands between the configurations and a plan: faulty lines, refusals, what is odd",
        usage: "migrate survey CONFIG...",
        number: NumberTaken::NoNumber,
        own: &[],
        configs: ConfigFiles::Several,
    },
    Subcommand {
        kind: CommandKind::Check,
        word: "check",
        about: "Judges an order or a list of waves: is the network safe in each state on the way?",
        usage: "migrate check ORDER CONFIG...",
        number: NumberTaken::NoNumber,
        own: &[ORDER],
        configs: ConfigFiles::Several,
    },
    Subcommand {
        kind: CommandKind::Prepare,
        word: "prepare",
        about: "Writes the configurations with the IS-IS lines of a design",
        usage: "migrate prepare DESIGN CONFIG...",
        number: NumberTaken::NoNumber,
        own: &[DESIGN],
        configs: ConfigFiles::Several,
    },
    Subcommand {
        kind: CommandKind::Plan,
        word: "plan",
        about: "Finds waves of routers that are safe in each state on the way, or a tree that shows that there are none",
        usage: "migrate plan [--budget N] CONFIG...",
        number: NumberTaken::Budget,
        own: &[],
        configs: ConfigFiles::Several,
    },
    Subcommand {
        kind: CommandKind::TwoPass,
        word: "twopass",
        about: "Finds waves of single changes, the two of a router apart, that are safe in each state, or a tree",
        usage: "migrate twopass [--budget N] CONFIG...",
        number: NumberTaken::Budget,
        own: &[],
        configs: ConfigFiles::Several,
    },
    Subcommand {
        kind: CommandKind::Refute,
        word: "refute",
        about: "Judges a tree: does it show that neither waves nor an order are safe?",
        usage: "migrate refute TREE CONFIG...",
        number: NumberTaken::NoNumber,
        own: &[TREE],
        configs: ConfigFiles::Several,
    },
    Subcommand {
        kind: CommandKind::Scripts,
        word: "scripts",
        about: "Writes the lines to type for each change, wave by wave",
        usage: "migrate scripts ORDER CONFIG...",
        number: NumberTaken::NoNumber,
        own: &[ORDER],
        configs: ConfigFiles::Several,
    },
    Subcommand {
        kind: CommandKind::Replay,
        word: "replay",
        about: "Tells how far a journal of changes has come, and which changes may come next",
        usage: "migrate replay ORDER JOURNAL CONFIG...",
        number: NumberTaken::NoNumber,
        own: &[ORDER, JOURNAL],
        configs: ConfigFiles::Several,
    },
    Subcommand {
        kind: CommandKind::Sample,
        word: "sample",
        about: "Plans a made network, and tells what was found",
        usage: "migrate sample N",
        number: NumberTaken::Routers,
        own: &[],
        configs: ConfigFiles::NoConfigs,
    },
    Subcommand {
        kind: CommandKind::Pair,
        word: "pair",
        about: "Finds waves that are safe from a network to its redesign by a second OSPF process, or a tree",
        usage: "migrate pair [--budget N] OLD NEW",
        number: NumberTaken::Budget,
        own: &[],
        configs: ConfigFiles::Networks,
    },
    Subcommand {
        kind: CommandKind::PairScripts,
        word: "pairscripts",
        about: "Writes the lines to type for each change from one OSPF process to the other, wave by wave",
        usage: "migrate pairscripts ORDER OLD NEW",
        number: NumberTaken::NoNumber,
        own: &[ORDER],
        configs: ConfigFiles::Networks,
    },
    Subcommand {
        kind: CommandKind::PairCheck,
        word: "paircheck",
        about: "Judges an order or a list of waves between two networks of OSPF",
        usage: "migrate paircheck ORDER OLD NEW",
        number: NumberTaken::NoNumber,
        own: &[ORDER],
        configs: ConfigFiles::Networks,
    },
    Subcommand {
        kind: CommandKind::PairRefute,
        word: "pairrefute",
        about: "Judges a tree between two networks of OSPF",
        usage: "migrate pairrefute TREE OLD NEW",
        number: NumberTaken::NoNumber,
        own: &[TREE],
        configs: ConfigFiles::Networks,
    },
    Subcommand {
        kind: CommandKind::Split,
        word: "split",
        about: "Writes the waves of a safe order or list, cut into waves of N routers at most",
        usage: "migrate split N ORDER CONFIG...",
        number: NumberTaken::WaveSize,
        own: &[ORDER],
        configs: ConfigFiles::Several,
    },
    Subcommand {
        kind: CommandKind::Delta,
        word: "delta",
        about: "Writes the new lines of a design alone, router by router",
        usage: "migrate delta DESIGN CONFIG...",
        number: NumberTaken::NoNumber,
        own: &[DESIGN],
        configs: ConfigFiles::Several,
    },
    Subcommand {
        kind: CommandKind::Tables,
        word: "tables",
        about: "Writes the routes of OSPF and of IS-IS that each router has by its configurations",
        usage: "migrate tables CONFIG...",
        number: NumberTaken::NoNumber,
        own: &[],
        configs: ConfigFiles::Several,
    },
    Subcommand {
        kind: CommandKind::Why,
        word: "why",
        about: "Judges an order or a list of waves as check does, and tells why",
        usage: "migrate why ORDER CONFIG...",
        number: NumberTaken::NoNumber,
        own: &[ORDER],
        configs: ConfigFiles::Several,
    },
    Subcommand {
        kind: CommandKind::Picture,
        word: "picture",
        about: "Judges an order or a list of waves as check does, and draws the network",
        usage: "migrate picture ORDER CONFIG...",
        number: NumberTaken::NoNumber,
        own: &[ORDER],
        configs: ConfigFiles::Several,
    },
    Subcommand {
        kind: CommandKind::Failures,
        word: "failures",
        about: "Judges an order or a list of waves as check does, and with each link down by itself",
        usage: "migrate failures ORDER CONFIG...",
        number: NumberTaken::NoNumber,
        own: &[ORDER],
        configs: ConfigFiles::Several,
    },
    Subcommand {
        kind: CommandKind::Rollback,
        word: "rollback",
        about: "Writes the lines that take the changes of a journal back, from the last to the first",
        usage: "migrate rollback ORDER JOURNAL CONFIG...",
        number: NumberTaken::NoNumber,
        own: &[ORDER, JOURNAL],
        configs: ConfigFiles::Several,
    },
    Subcommand {
        kind: CommandKind::Replan,
        word: "replan",
        about: "Finds waves of what a journal has left that are safe in each state on the way, or a tree",
        usage: "migrate replan [--budget N] ORDER JOURNAL CONFIG...",
        number: NumberTaken::Budget,
        own: &[ORDER, JOURNAL],
        configs: ConfigFiles::Several,
    },
    Subcommand {
        kind: CommandKind::Observe,
        word: "observe",
        about: "Writes the journal of what was done, by the configurations of before and of now",
        usage: "migrate observe ORDER BEFORE CONFIG...",
        number: NumberTaken::NoNumber,
        own: &[ORDER, BEFORE],
        configs: ConfigFiles::Several,
    },
    Subcommand {
        kind: CommandKind::Design,
        word: "design",
        about: "Writes a design in which the IS-IS metrics are the OSPF costs",
        usage: "migrate design [--area AREA] [--level L] CONFIG...",
        number: NumberTaken::DesignOptions,
        own: &[],
        configs: ConfigFiles::Several,
    },
];

/// The subcommands, in the order in which help tells them.
pub(crate) fn subcommands() -> &'static [Subcommand]
    ensures kinds { map kind_of_entry result.now ≡ kinds }
    ensures usages { map usage_seen result.now ≡ map usage_of (map kind_of_entry result.now) }
{
    &SUBCOMMANDS
}
