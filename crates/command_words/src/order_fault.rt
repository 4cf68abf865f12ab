//! Why words give no order.
ghost use Rattle.std.specs.Prelude.{◌≡◌};
ghost use Rattle.command_words.specs.declared.order_fault.OrderFault.TheVariants.{Memory};

use command_syntax::BadPort;
use std::alloc::AllocError;
use thiserror::Error;

/// Why the words of a command line give no order.
#[derive(Debug, Drop, Error)]
pub enum OrderFault<'a> {
    /// The words aren't those of a command, or ask for help: its text says where it goes and what
    /// status it ends with.
    #[error("{0}")]
    Usage(clap::Error),
    /// A word that is no port. It ends the program as words that `clap` refuses do.
    #[error("{0}")]
    Port(BadPort<'a>),
    /// 4: a UUID, a number or a form breaks its rule.
    #[error("field")]
    Field,
    /// 1: a growth was refused.
    #[error("memory")]
    Memory,
}

impl<'a> From<AllocError> for OrderFault<'a> {
    ghost from_gives = { λ _ fault. fault ≡ Memory };

    fn from(_error: AllocError) -> OrderFault<'a> {
        OrderFault::Memory
    }
}
