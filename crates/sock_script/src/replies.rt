//! What is shown of a run's replies, and what it lists.

ghost use Rattle.std.specs.Prelude.{◌≡◌, []};

use crate::shown::Shown;
use socket_list::Listing;
use std::alloc::Global;
use std::marker::Model;

/// What is shown of a run's replies, and what it lists.
#[derive(Debug, Drop)]
pub struct Replies {
    /// What is shown of the reply to each command, and to each item of the capture.
    pub each: Vec<Shown>,
    /// What each `dump` lists.
    pub listings: Vec<Listing>,
}

impl Model for Replies {
    ghost use Rattle.sock_script.specs.Output.{Replies as Given};

    ghost Value = { Given };

    ghost view = { λ r. record { each = r.each.items; listings = r.listings.items } };
}

impl Replies {
    /// Before the first command. Takes no memory.
    pub fn new(alloc: Global) -> Self
        ensures { result ≡ record { each = []; listings = [] } }
    {
        Replies {
            each: Vec::new(alloc),
            listings: Vec::new(alloc),
        }
    }
}
