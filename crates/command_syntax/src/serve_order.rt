//! The words of `serve`.
use crate::web_order::WebOrder;

/// The sessions and the peers of a store, over sockets of 127.0.0.1.
#[derive(Clone, Copy, Debug, PartialEq, Eq)]
pub struct ServeOrder<'a> {
    pub file: &'a str,
    /// Where sessions come in.
    pub sessions: u16,
    /// Where peers come in.
    pub peers: u16,
    /// Where the peer listens that is joined.
    pub link: Option<u16>,
    /// Where WebSockets come in, if they do.
    pub web: Option<WebOrder<'a>>,
    /// Whether the program ends once the device failed.
    pub ends_on_failure: bool,
    /// Whether each event is written to standard error.
    pub logs: bool,
    /// Whether a line is printed once all its ports listen.
    pub tells_ready: bool,
}
