//! A guest that came in.

use crate::origin::Origin;
use tungstenite::{NoMask, WebSocket};

/// A guest that came in.
#[derive(Drop)]
pub struct Guest<'n, S> {
    pub socket: WebSocket<S, NoMask>,
    /// The named origin of the web page from which it comes; none if it comes from a program.
    pub origin: Option<&'n Origin>,
}
