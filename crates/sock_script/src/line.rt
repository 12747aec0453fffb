use flat_list::{KeptCommand, Range, Reserved, Shape};

/// A line of a script.
#[derive(Debug, Drop)]
pub enum Line {
    /// A line with no word, or a comment.
    PassedOver,
    /// How large the tables are.
    Table(Shape),
    /// Which ports are searched where a command names none.
    Range(Range),
    /// Ports that no search tries.
    Reserved(Reserved),
    /// What the sections' generators of offsets begin with.
    Seed(u32),
    /// The offset of every search for a port.
    Offset(u16),
    /// Whether `connect` may take the place of a socket in TIME_WAIT.
    TimeWaitReuse(bool),
    /// The section of that number begins.
    Section(u32),
    /// The bytes after this line are a capture, of packets from that device and that network namespace.
    Capture { dev: Option<u16>, net: Option<u8> },
    /// A command of the section.
    Command(KeptCommand),
}
