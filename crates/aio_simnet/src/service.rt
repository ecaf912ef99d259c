//! Who answers where no task listens.

/// The classic services of the ports below 20.
#[derive(Clone, Copy, PartialEq, Eq)]
pub(crate) enum Service {
    /// It sends back what it hears, and ends when it has heard the end.
    Echo,
    /// It hears all and says nothing.
    Discard,
    /// It says a line and closes.
    Daytime,
}

/// What a daytime service says.
pub(crate) const DAYTIME: &str = "noon\n";

/// The service of a port, where it has one: 7, 9 or 13.
pub(crate) fn service_of(port: u16) -> Option<Service> {
    match port {
        7 => Some(Service::Echo),
        9 => Some(Service::Discard),
        13 => Some(Service::Daytime),
        _ => None,
    }
}
