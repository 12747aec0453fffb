//! The commands of calls, whose sockets are named by numbers.

ghost use Rattle.std.specs.Prelude.{◌≡◌};
ghost use Rattle.flat_calls.specs.Commands as spec;
ghost use Rattle.flat_calls.specs.Numbers as numbers;

use flat_list::{Command, End, Label, Options};

/// The label of a socket's number: its eight bytes, the highest first.
pub fn label_of(number: u64) -> Label
    ensures { result ≡ numbers.label_of number }
{
    match Label::from_bytes(&number.to_be_bytes()) {
        Some(label) => label,
        None => unreachable!(),
    }
}

/// Makes a socket, whose number is that.
pub fn socket(number: u64, options: Options) -> Command
    ensures { result ≡ spec.socket number options }
{
    Command::Socket {
        label: label_of(number),
        options,
    }
}

/// Binds a socket to an end; at port 0, to a port that is searched for.
pub fn bind(socket: u64, end: End) -> Command
    ensures { result ≡ spec.bind socket end }
{
    Command::Bind {
        label: label_of(socket),
        end,
    }
}

/// Makes a socket a listener.
pub fn listen(socket: u64) -> Command
    ensures { result ≡ spec.listen socket }
{
    Command::Listen {
        label: label_of(socket),
    }
}

/// Connects a socket to an end, from its own address, or from that one where it has none.
pub fn connect(socket: u64, from: Option<u32>, to: End) -> Command
    ensures { result ≡ spec.connect socket from to }
{
    Command::Connect {
        label: label_of(socket),
        from,
        to,
    }
}

/// Makes a connected socket of a listener's, whose number is that, from one end at another.
pub fn accept(listener: u64, number: u64, from: End, at: End) -> Command
    ensures { result ≡ spec.accept listener number from at }
{
    Command::Accept {
        listener: label_of(listener),
        label: label_of(number),
        from,
        at,
    }
}

/// Begins a handshake with a listener, from one end at another: makes a request, whose number is that.
pub fn syn(listener: u64, number: u64, from: End, at: End) -> Command
    ensures { result ≡ spec.syn listener number from at }
{
    Command::Syn {
        listener: label_of(listener),
        label: label_of(number),
        from,
        at,
    }
}

/// Ends a request's handshake: makes a connected socket of its listener's in its place, whose number is that.
pub fn ack(request: u64, number: u64) -> Command
    ensures { result ≡ spec.ack request number }
{
    Command::Ack {
        request: label_of(request),
        label: label_of(number),
    }
}

/// Closes a socket.
pub fn close(socket: u64) -> Command
    ensures { result ≡ spec.close socket }
{
    Command::Close {
        label: label_of(socket),
    }
}

/// Removes a socket without a trace.
pub fn drop_socket(socket: u64) -> Command
    ensures { result ≡ spec.drop_socket socket }
{
    Command::Drop {
        label: label_of(socket),
    }
}
