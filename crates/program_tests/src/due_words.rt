//! What words of a command line have to give.
use command_syntax::{BadPort, Order, ServeOrder};
use command_words::{OrderFault, order};
use std::process::Abort;

/// What words give.
#[derive(Clone, Copy)]
pub enum Due<'a> {
    /// They ask for this.
    Is(Order<'a>),
    /// They ask for a `serve` with WebSockets at this port, for the pages of these origins.
    Web(u16, &'a [&'a str]),
    /// A number, or an id, breaks its rule.
    Field,
    /// This port breaks its rule.
    Port(BadPort<'a>),
}

/// Whether an order is a `serve` with WebSockets at this port, for the pages of these origins.
fn has_web(order: &Order<'_>, port: u16, origins: &[&str]) -> bool {
    match order {
        Order::Serve(ServeOrder { web: Some(web), .. }) => {
            web.port == port && web.origins.as_slice() == origins
        }
        _ => false,
    }
}

/// Whether an order is due.
fn is_asked(order: &Order<'_>, due: &Due<'_>) -> bool {
    match due {
        Due::Is(asked) => order == asked,
        Due::Web(port, origins) => has_web(order, *port, origins),
        _ => false,
    }
}

/// Whether a refusal is due.
fn is_refused(fault: &OrderFault<'_>, due: &Due<'_>) -> bool {
    match (fault, due) {
        (OrderFault::Field, Due::Field) => true,
        (OrderFault::Port(port), Due::Port(bad)) => port == bad,
        _ => false,
    }
}

/// Reads words, which have to give this.
pub fn gives<'a>(rt: &(impl Abort + AllocGlobal), words: &'a [&'a str], due: &Due<'a>) {
    let is_due = match order(rt.alloc(), words) {
        Ok(order) => is_asked(&order, due),
        Err(fault) => is_refused(&fault, due),
    };
    assert!(rt; is_due, "{words:?}");
}
