ghost use Rattle.std.specs.Prelude.{◌≡◌};
ghost use Rattle.design_file.specs.Keys.{interface_key, key_in, router_key, top_key};

/// A table of a design by what it speaks of.
#[derive(Clone, Copy, Debug, PartialEq, Eq)]
pub(crate) enum Place {
    /// The whole document.
    Top,
    /// The routers, by name.
    Routers,
    /// One router.
    Router,
    /// The interfaces of a router, by name.
    Interfaces,
    /// One interface.
    Interface,
}

/// What an entry of a table says.
#[derive(Clone, Copy, Debug, PartialEq, Eq)]
pub(crate) enum Key {
    /// `area`: the IS-IS area address.
    Area,
    /// `level`: the levels.
    Level,
    /// `metric`: the metric.
    Metric,
    /// `leak`: whether level 2 routes are leaked into level 1.
    Leak,
    /// `passive`: whether the interface is passive.
    Passive,
    /// A table of a kind of its own.
    Table(Place),
}

impl Place {
    /// What an entry of this key says in a table of this kind.
    pub(crate) fn key(self, word: &str) -> Option<Key>
        ensures { result ≡ key_in self word.now }
    {
        match self {
            Place::Top => top_key(word),
            Place::Routers => Some(Key::Table(Place::Router)),
            Place::Router => router_key(word),
            Place::Interfaces => Some(Key::Table(Place::Interface)),
            Place::Interface => interface_key(word),
        }
    }
}

/// The keys of the whole document.
fn top_key(word: &str) -> Option<Key>
    ensures { result ≡ top_key word.now }
{
    match word {
        "area" => Some(Key::Area),
        "level" => Some(Key::Level),
        "metric" => Some(Key::Metric),
        "routers" => Some(Key::Table(Place::Routers)),
        _ => None,
    }
}

/// The keys of a router's table.
fn router_key(word: &str) -> Option<Key>
    ensures { result ≡ router_key word.now }
{
    match word {
        "area" => Some(Key::Area),
        "level" => Some(Key::Level),
        "metric" => Some(Key::Metric),
        "leak" => Some(Key::Leak),
        "interfaces" => Some(Key::Table(Place::Interfaces)),
        _ => None,
    }
}

/// The keys of an interface's table.
fn interface_key(word: &str) -> Option<Key>
    ensures { result ≡ interface_key word.now }
{
    match word {
        "metric" => Some(Key::Metric),
        "level" => Some(Key::Level),
        "passive" => Some(Key::Passive),
        _ => None,
    }
}
