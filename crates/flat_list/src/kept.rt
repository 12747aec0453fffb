//! A command in little room, as a script keeps it.

ghost use Rattle.std.specs.Prelude.{◌≡◌, ◌<◌, length, IfOk, IfSome, IfNone};
ghost use Rattle.flat_list.specs.Kept.{kept_command};
ghost use Rattle.flat_list.specs.declared.command.Command.TheVariants as commands;

use crate::command::{Command, End, Label, Query};
use crate::owned::Options;
use std::alloc::{AllocError, Global};
use std::marker::Model;

/// A label of at most seven bytes, in eight.
#[derive(Debug, Drop)]
pub struct ShortLabel {
    /// The label, and zeros behind it.
    bytes: [u8; 7],
    /// How many bytes are the label's.
    used: u8,
}

impl Model for ShortLabel {
    ghost use Rattle.std.specs.Prelude.{List, ℕ, ◌≡◌, ◌≤◌, take};
    ghost use Rattle.flat_list.specs.Padded.{padded};

    ghost Value = { List ℕ };

    ghost view = { λ l. take l.used l.bytes };

    ghost invariant = { λ l. (l.used ≤ 7) × (l.bytes ≡ take 7 (padded (take l.used l.bytes))) };
}

impl ShortLabel {
    /// The same label, unless it has more than seven bytes.
    fn of(label: &Label) -> Option<Self>
        ensures some { IfSome result (λ short. short ≡ label.now) }
        ensures none { IfNone result (7 < length label.now) }
    {
        let used = label.as_bytes().len();
        if used > 7 {
            return None;
        }
        let mut bytes = [0; 7];
        bytes.copy_from_slice(&label.padded()[..7]);
        Some(ShortLabel {
            bytes,
            used: used as u8,
        })
    }

    /// The label's bytes.
    pub fn as_bytes(&self) -> &[u8]
        ensures { result.now ≡ self.now }
    {
        &self.bytes[..self.used as usize]
    }

    /// The label.
    pub fn label(&self) -> Label
        ensures { result ≡ self.now }
    {
        let mut bytes = [0; 16];
        bytes[..7].copy_from_slice(&self.bytes);
        Label::from_padded(bytes, self.used)
    }
}

/// An end, of its address and its port.
fn end(addr: u32, port: u16) -> End
    ensures { result ≡ record { addr = addr; port = port } }
{
    End { addr, port }
}

/// Two labels of a command.
#[derive(Debug, Drop)]
pub struct TwoLabels {
    /// The socket that it is asked of.
    pub of: Label,
    /// The label that it gives.
    pub given: Label,
}

/// How a command is kept: in such an order that no variant takes more than 32 bytes. Two labels have room in it where
/// both are short, and memory of their own where one is longer.
#[derive(Debug, Drop)]
pub enum Form {
    /// A `socket` that names no user.
    Socket {
        label: Label,
        net: Option<u8>,
        dev: Option<u16>,
        reuseaddr: bool,
        reuseport: bool,
        noport: bool,
    },
    /// A `socket` of that user.
    UserSocket {
        label: Label,
        net: Option<u8>,
        dev: Option<u16>,
        reuseaddr: bool,
        reuseport: bool,
        noport: bool,
        uid: u32,
    },
    Bind {
        label: Label,
        port: u16,
        addr: u32,
    },
    Listen {
        label: Label,
    },
    Connect {
        label: Label,
        port: u16,
        addr: u32,
        from: Option<u32>,
    },
    Accept {
        listener: ShortLabel,
        label: ShortLabel,
        from_port: u16,
        at_port: u16,
        from_addr: u32,
        at_addr: u32,
    },
    /// An `accept` with a label that isn't short.
    LongAccept {
        from_port: u16,
        at_port: u16,
        from_addr: u32,
        at_addr: u32,
        labels: Box<TwoLabels>,
    },
    Syn {
        listener: ShortLabel,
        label: ShortLabel,
        from_port: u16,
        at_port: u16,
        from_addr: u32,
        at_addr: u32,
    },
    /// A `syn` with a label that isn't short.
    LongSyn {
        from_port: u16,
        at_port: u16,
        from_addr: u32,
        at_addr: u32,
        labels: Box<TwoLabels>,
    },
    Ack {
        request: ShortLabel,
        label: ShortLabel,
    },
    /// An `ack` with a label that isn't short.
    LongAck {
        labels: Box<TwoLabels>,
    },
    Close {
        label: Label,
    },
    Drop {
        label: Label,
    },
    At {
        moment: u32,
    },
    Reap,
    Look {
        query: Query,
    },
    Packets {
        count: u32,
    },
    Dump,
}

/// A command as a script keeps it, in 32 bytes. A contract sees it as the command.
#[derive(Debug, Drop)]
pub struct KeptCommand {
    form: Form,
}

impl Model for KeptCommand {
    ghost use Rattle.flat_list.specs.declared.command.Command.{Command};
    ghost use Rattle.flat_list.specs.Kept.{kept_command};

    ghost Value = { Command };

    ghost view = { λ k. kept_command k.form };
}

/// Both labels, where both are short.
fn short_labels(of: &Label, given: &Label) -> Option<(ShortLabel, ShortLabel)>
    ensures { IfSome result (λ r. (r.0 ≡ of.now) × (r.1 ≡ given.now)) }
{
    Some((ShortLabel::of(of)?, ShortLabel::of(given)?))
}

/// Both labels, in memory of their own.
fn long_labels(alloc: Global, of: &Label, given: &Label) -> Result<Box<TwoLabels>, AllocError>
    ensures { IfOk result (λ labels. labels.value ≡ record { of = of.now; given = given.now }) }
{
    let labels = TwoLabels {
        of: *of,
        given: *given,
    };
    Ok(Box::new(alloc, labels)?)
}

/// The command that is kept so.
fn command_of(form: &Form) -> Command
    ensures { result ≡ kept_command form.now }
{
    match form {
        Form::Socket {
            label,
            net,
            dev,
            reuseaddr,
            reuseport,
            noport,
        } => Command::Socket {
            label: *label,
            options: Options {
                net: *net,
                uid: None,
                dev: *dev,
                reuseaddr: *reuseaddr,
                reuseport: *reuseport,
                noport: *noport,
            },
        },
        Form::UserSocket {
            label,
            net,
            dev,
            reuseaddr,
            reuseport,
            noport,
            uid,
        } => Command::Socket {
            label: *label,
            options: Options {
                net: *net,
                uid: Some(*uid),
                dev: *dev,
                reuseaddr: *reuseaddr,
                reuseport: *reuseport,
                noport: *noport,
            },
        },
        Form::Bind { label, port, addr } => Command::Bind {
            label: *label,
            end: end(*addr, *port),
        },
        Form::Listen { label } => Command::Listen { label: *label },
        Form::Connect {
            label,
            port,
            addr,
            from,
        } => Command::Connect {
            label: *label,
            from: *from,
            to: end(*addr, *port),
        },
        Form::Accept {
            listener,
            label,
            from_port,
            at_port,
            from_addr,
            at_addr,
        } => Command::Accept {
            listener: listener.label(),
            label: label.label(),
            from: end(*from_addr, *from_port),
            at: end(*at_addr, *at_port),
        },
        Form::LongAccept {
            from_port,
            at_port,
            from_addr,
            at_addr,
            labels,
        } => Command::Accept {
            listener: labels.of,
            label: labels.given,
            from: end(*from_addr, *from_port),
            at: end(*at_addr, *at_port),
        },
        Form::Syn {
            listener,
            label,
            from_port,
            at_port,
            from_addr,
            at_addr,
        } => Command::Syn {
            listener: listener.label(),
            label: label.label(),
            from: end(*from_addr, *from_port),
            at: end(*at_addr, *at_port),
        },
        Form::LongSyn {
            from_port,
            at_port,
            from_addr,
            at_addr,
            labels,
        } => Command::Syn {
            listener: labels.of,
            label: labels.given,
            from: end(*from_addr, *from_port),
            at: end(*at_addr, *at_port),
        },
        Form::Ack { request, label } => Command::Ack {
            request: request.label(),
            label: label.label(),
        },
        Form::LongAck { labels } => Command::Ack {
            request: labels.of,
            label: labels.given,
        },
        Form::Close { label } => Command::Close { label: *label },
        Form::Drop { label } => Command::Drop { label: *label },
        Form::At { moment } => Command::At { moment: *moment },
        Form::Reap => Command::Reap,
        Form::Look { query } => Command::Look { query: *query },
        Form::Packets { count } => Command::Packets { count: *count },
        Form::Dump => Command::Dump,
    }
}

impl KeptCommand {
    /// A `socket`.
    pub fn socket(label: Label, options: Options) -> Self
        ensures { result ≡ commands.Socket label options }
    {
        let Options {
            net,
            uid,
            dev,
            reuseaddr,
            reuseport,
            noport,
        } = options;
        let form = match uid {
            None => Form::Socket {
                label,
                net,
                dev,
                reuseaddr,
                reuseport,
                noport,
            },
            Some(uid) => Form::UserSocket {
                label,
                net,
                dev,
                reuseaddr,
                reuseport,
                noport,
                uid,
            },
        };
        KeptCommand { form }
    }

    /// A `bind`.
    pub fn bind(label: Label, end: End) -> Self
        ensures { result ≡ commands.Bind label end }
    {
        KeptCommand {
            form: Form::Bind {
                label,
                port: end.port,
                addr: end.addr,
            },
        }
    }

    /// A `listen`.
    pub fn listen(label: Label) -> Self
        ensures { result ≡ commands.Listen label }
    {
        KeptCommand {
            form: Form::Listen { label },
        }
    }

    /// A `connect`.
    pub fn connect(label: Label, from: Option<u32>, to: End) -> Self
        ensures { result ≡ commands.Connect label from to }
    {
        KeptCommand {
            form: Form::Connect {
                label,
                port: to.port,
                addr: to.addr,
                from,
            },
        }
    }

    /// An `accept`. Takes memory only where one of the labels has more than seven bytes; so do `syn` and `ack`.
    pub fn accept(
        alloc: Global,
        listener: &Label,
        label: &Label,
        from: End,
        at: End,
    ) -> Result<Self, AllocError>
        ensures { IfOk result (λ kept. kept ≡ commands.Accept listener.now label.now from at) }
    {
        let form = match short_labels(listener, label) {
            Some((listener, label)) => Form::Accept {
                listener,
                label,
                from_port: from.port,
                at_port: at.port,
                from_addr: from.addr,
                at_addr: at.addr,
            },
            None => Form::LongAccept {
                from_port: from.port,
                at_port: at.port,
                from_addr: from.addr,
                at_addr: at.addr,
                labels: long_labels(alloc, listener, label)?,
            },
        };
        Ok(KeptCommand { form })
    }

    /// A `syn`.
    pub fn syn(
        alloc: Global,
        listener: &Label,
        label: &Label,
        from: End,
        at: End,
    ) -> Result<Self, AllocError>
        ensures { IfOk result (λ kept. kept ≡ commands.Syn listener.now label.now from at) }
    {
        let form = match short_labels(listener, label) {
            Some((listener, label)) => Form::Syn {
                listener,
                label,
                from_port: from.port,
                at_port: at.port,
                from_addr: from.addr,
                at_addr: at.addr,
            },
            None => Form::LongSyn {
                from_port: from.port,
                at_port: at.port,
                from_addr: from.addr,
                at_addr: at.addr,
                labels: long_labels(alloc, listener, label)?,
            },
        };
        Ok(KeptCommand { form })
    }

    /// An `ack`.
    pub fn ack(alloc: Global, request: &Label, label: &Label) -> Result<Self, AllocError>
        ensures { IfOk result (λ kept. kept ≡ commands.Ack request.now label.now) }
    {
        let form = match short_labels(request, label) {
            Some((request, label)) => Form::Ack { request, label },
            None => Form::LongAck {
                labels: long_labels(alloc, request, label)?,
            },
        };
        Ok(KeptCommand { form })
    }

    /// A `close`.
    pub fn close(label: Label) -> Self
        ensures { result ≡ commands.Close label }
    {
        KeptCommand {
            form: Form::Close { label },
        }
    }

    /// A `drop`.
    pub fn drop(label: Label) -> Self
        ensures { result ≡ commands.Drop label }
    {
        KeptCommand {
            form: Form::Drop { label },
        }
    }

    /// An `at`.
    pub fn at(moment: u32) -> Self
        ensures { result ≡ commands.At moment }
    {
        KeptCommand {
            form: Form::At { moment },
        }
    }

    /// A `reap`.
    pub fn reap() -> Self
        ensures { result ≡ commands.Reap }
    {
        KeptCommand { form: Form::Reap }
    }

    /// A `look`.
    pub fn look(query: Query) -> Self
        ensures { result ≡ commands.Look query }
    {
        KeptCommand {
            form: Form::Look { query },
        }
    }

    /// A `packets`.
    pub fn packets(count: u32) -> Self
        ensures { result ≡ commands.Packets count }
    {
        KeptCommand {
            form: Form::Packets { count },
        }
    }

    /// A `dump`.
    pub fn dump() -> Self
        ensures { result ≡ commands.Dump }
    {
        KeptCommand { form: Form::Dump }
    }

    /// A command, as it is kept. Takes memory only where it has two labels, of which one has more than seven bytes.
    pub fn of(alloc: Global, command: &Command) -> Result<Self, AllocError>
        ensures { IfOk result (λ kept. kept ≡ command.now) }
    {
        match command {
            Command::Socket { label, options } => Ok(Self::socket(*label, *options)),
            Command::Bind { label, end } => Ok(Self::bind(*label, *end)),
            Command::Listen { label } => Ok(Self::listen(*label)),
            Command::Connect { label, from, to } => Ok(Self::connect(*label, *from, *to)),
            Command::Accept {
                listener,
                label,
                from,
                at,
            } => Self::accept(alloc, listener, label, *from, *at),
            Command::Syn {
                listener,
                label,
                from,
                at,
            } => Self::syn(alloc, listener, label, *from, *at),
            Command::Ack { request, label } => Self::ack(alloc, request, label),
            Command::Close { label } => Ok(Self::close(*label)),
            Command::Drop { label } => Ok(Self::drop(*label)),
            Command::At { moment } => Ok(Self::at(*moment)),
            Command::Reap => Ok(Self::reap()),
            Command::Look { query } => Ok(Self::look(*query)),
            Command::Packets { count } => Ok(Self::packets(*count)),
            Command::Dump => Ok(Self::dump()),
        }
    }

    /// The command, as others take it.
    pub fn plain(&self) -> Command
        ensures { result ≡ self.now }
    {
        command_of(&self.form)
    }

    /// How it is kept, to be matched on.
    pub fn form(&self) -> &Form
        ensures { self.now ≡ kept_command result.now }
    {
        &self.form
    }
}
