ghost use Rattle.std.specs.Prelude.{◌≡◌};
ghost use Rattle.order_core.specs.Orders.{AreDistinct};
ghost use Rattle.step_scripts.specs.declared.version.Version.TheVariants.{One};

use crate::Version;
use order_core::Waves;

/// An order file that was read: the waves in which the routers of a network are switched.
#[derive(Debug, Drop)]
pub struct WaveFile {
    /// Its version; in version 1 each wave has one router.
    pub version: Version,
    /// The rank of each router: the number of its wave, from 0.
    pub waves: Waves,
    pub ghost ones: { version ≡ One → AreDistinct waves },
}
