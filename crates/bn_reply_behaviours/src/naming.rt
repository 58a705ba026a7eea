//! The result of reading the names of ports.

use bn_behaviour::PortList;

/// The ports that some names name.
#[derive(Drop)]
pub(crate) enum Naming {
    /// The ports.
    Named(PortList),
    /// The first name, counted from 1, that is not that of a free port or names a port again.
    Misnamed {
        /// Its place.
        place: u32,
    },
}
