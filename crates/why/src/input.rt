//! What an input is meant for.

use sock_script::Mode;

/// For which command of `inet` an input is meant.
#[derive(Clone, Copy, Debug, PartialEq, Eq)]
pub enum Input {
    /// A script, for `run` or `race`.
    Script(Mode),
    /// A record, for `audit`.
    Record,
}
