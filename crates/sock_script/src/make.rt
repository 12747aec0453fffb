//! Generated scripts: one section whose commands are chosen by a random generator.
//!
//! The same seed gives the same script on every machine, so that two runs can be compared.
ghost use Rattle.std.specs.Prelude.{◌≡◌, ◌≤◌, ◌∷◌, ◌++◌, [], IfOk, OnOk, None};
ghost use Rattle.flat_list.specs.Script.{IsSmall};
ghost use Rattle.sock_script.specs.declared.parse.Mode.TheVariants as modes;
ghost use Rattle.sock_script.specs.Grammar.{IsScript};
ghost use Rattle.sock_script.specs.MadeCommands as steps;
ghost use Rattle.sock_script.specs.Make as spec;

use crate::draft::DEFAULT_RANGE;
use flat_list::{Command, End, Header, KeptCommand, Label, Options, Query, Script, Shape};
use inet_io::put_num;
use rand_core::utils::NextWord;
use rand_pcg::Lcg64Xsh32;
use std::alloc::{AllocError, Global};

/// The generator's stream, which no section of a script draws its offsets from.
const STREAM: u64 = 1000;

/// The header's shape: so many slots that most commands find one.
const SHAPE: Shape = Shape {
    slots: 4096,
    bind: 16,
    hash: 1024,
    listen: 16,
};

/// 10.0.0.0.
const NETWORK: u32 = 0x0a00_0000;

/// The address 10.0.1.1, to which sockets are connected.
const SERVER: u32 = 0x0a00_0101;

/// The address 10.0.1.2, from which connections come.
const CLIENT: u32 = 0x0a00_0102;

/// The label of that number: `s` and the number.
fn label(number: u32) -> Label
    ensures { result ≡ spec.step_label number }
{
    let mut text = [b's'; 21];
    let len = put_num(&mut text, 1, u64::from(number));
    Label::from_bytes(&text[..len]).unwrap()
}

/// Appends a command.
fn put(commands: &mut Vec<KeptCommand>, command: Command) -> Result<(), AllocError>
    ensures { OnOk result (commands.new.items ≡ commands.old.items ++ command ∷ []) }
{
    let kept = KeptCommand::of(*commands.allocator(), &command)?;
    commands.push(kept)?;
    Ok(())
}

/// A step of a script: its number, from 1, and the word that was drawn for it.
#[derive(Clone, Copy)]
struct Step {
    number: u32,
    word: u32,
}

impl Step {
    /// This step's own label.
    fn label(self) -> Label
        ensures { result ≡ spec.step_label self.number }
    {
        label(self.number)
    }

    /// The label of this step or of an earlier one.
    fn chosen(self) -> Label
        requires { 1 ≤ self.number }
        ensures { result ≡ spec.step_label (spec.chosen_step self.number self.word) }
    {
        label(1 + self.word / 2048 % self.number)
    }

    fn addr(self) -> u32
        ensures { result ≡ steps.local_addr (spec.last_number self.word) }
    {
        NETWORK + 1 + self.word / 8 % 4
    }

    fn port(self) -> u16
        ensures { result ≡ spec.step_port self.word }
    {
        (8000 + self.word / 32 % 64) as u16
    }

    /// The end at which this step's socket listens or is reached.
    fn here(self) -> End
        ensures { result ≡ steps.end_at (steps.local_addr (spec.last_number self.word)) (spec.step_port self.word) }
    {
        End {
            addr: self.addr(),
            port: self.port(),
        }
    }

    /// The far end of this step's connection or packet.
    fn remote(self) -> End
        ensures { result ≡ steps.end_at (steps.local_addr 258) (spec.remote_port self.number) }
    {
        End {
            addr: CLIENT,
            port: (1000 + self.number % 60000) as u16,
        }
    }

    /// Makes this step's socket.
    fn socket(self, reuseaddr: bool, reuseport: bool) -> Command
        ensures { result ≡ steps.new_socket self.number reuseaddr reuseport }
    {
        let options = Options {
            net: None,
            uid: None,
            dev: None,
            reuseaddr,
            reuseport,
            noport: false,
        };
        Command::Socket {
            label: self.label(),
            options,
        }
    }

    fn bind(self, end: End) -> Command
        ensures { result ≡ Command.Bind (spec.step_label self.number) end }
    {
        Command::Bind {
            label: self.label(),
            end,
        }
    }

    fn listen(self) -> Command
        ensures { result ≡ Command.Listen (spec.step_label self.number) }
    {
        Command::Listen {
            label: self.label(),
        }
    }

    fn connect(self) -> Command
        ensures { result ≡ Command.Connect (spec.step_label self.number)
            (Some (steps.local_addr (spec.last_number self.word)))
            (steps.end_at (steps.local_addr 257) (spec.step_port self.word)) }
    {
        let to = End {
            addr: SERVER,
            port: self.port(),
        };
        Command::Connect {
            label: self.label(),
            from: Some(self.addr()),
            to,
        }
    }

    fn accept(self) -> Command
        requires { 1 ≤ self.number }
        ensures { result ≡ Command.Accept (spec.step_label (spec.chosen_step self.number self.word))
            (spec.step_label self.number) (steps.end_at (steps.local_addr 258) (spec.remote_port self.number))
            (steps.end_at (steps.local_addr (spec.last_number self.word)) (spec.step_port self.word)) }
    {
        Command::Accept {
            listener: self.chosen(),
            label: self.label(),
            from: self.remote(),
            at: self.here(),
        }
    }

    fn close(self) -> Command
        requires { 1 ≤ self.number }
        ensures { result ≡ Command.Close (spec.step_label (spec.chosen_step self.number self.word)) }
    {
        Command::Close {
            label: self.chosen(),
        }
    }

    fn look(self) -> Command
        ensures { result ≡ steps.plain_look (steps.end_at (steps.local_addr 258) (spec.remote_port self.number))
            (steps.end_at (steps.local_addr (spec.last_number self.word)) (spec.step_port self.word)) }
    {
        let query = Query {
            from: self.remote(),
            to: self.here(),
            dev: None,
            net: None,
        };
        Command::Look { query }
    }

    /// Appends the commands that make a socket and bind it.
    fn add_bound(
        self,
        commands: &mut Vec<KeptCommand>,
        reuseaddr: bool,
        reuseport: bool,
        end: End,
    ) -> Result<(), AllocError>
        ensures { OnOk result (commands.new.items ≡ commands.old.items
            ++ steps.new_socket self.number reuseaddr reuseport ∷ Command.Bind (spec.step_label self.number) end ∷ []) }
    {
        put(commands, self.socket(reuseaddr, reuseport))?;
        put(commands, self.bind(end))
    }

    /// Appends the step's commands.
    fn add_to(self, commands: &mut Vec<KeptCommand>) -> Result<(), AllocError>
        requires { 1 ≤ self.number }
        ensures { OnOk result (commands.new.items ≡ commands.old.items ++ steps.step_commands self.number self.word) }
    {
        let port = self.port();
        let addr = self.addr();
        match self.word % 8 {
            0 => self.add_bound(commands, true, false, End { addr: 0, port }),
            1 => {
                self.add_bound(commands, false, true, self.here())?;
                put(commands, self.listen())
            }
            2 => {
                self.add_bound(commands, false, false, End { addr, port: 0 })?;
                put(commands, self.listen())
            }
            3 => {
                put(commands, self.socket(false, false))?;
                put(commands, self.connect())
            }
            4 => put(commands, self.accept()),
            5 => put(commands, self.close()),
            6 => put(commands, self.look()),
            _ => {
                let moment = self.number;
                put(commands, Command::At { moment })?;
                put(commands, Command::Reap)
            }
        }
    }
}

/// The commands of so many steps.
fn commands_of(alloc: Global, seed: u32, count: u32) -> Result<Vec<KeptCommand>, AllocError>
    ensures { IfOk result (λ commands. commands.items ≡ steps.commands_from 1 (spec.step_words seed count)) }
{
    let mut generator = Lcg64Xsh32::new(u64::from(seed), STREAM);
    let mut commands = Vec::new(alloc);
    for i in 0..count {
        let step = Step {
            number: i + 1,
            word: generator.next_word(),
        };
        step.add_to(&mut commands)?;
    }
    Ok(commands)
}

fn header(seed: u32) -> Header
    ensures { result ≡ steps.made_header seed }
{
    Header {
        shape: SHAPE,
        range: DEFAULT_RANGE,
        seed,
        offset: None,
        twreuse: true,
    }
}

/// The script of a seed and so many steps, of one section.
///
/// A step makes a socket and binds, listens or connects it, accepts, closes, looks up a packet, or moves
/// the section's moment on and reaps: at most three commands. Takes memory for them.
pub fn script(alloc: Global, seed: u32, count: u32) -> Result<Script, AllocError>
    requires { count ≤ 100000 }
    ensures made { IfOk result (IsScript modes.Run (spec.made_text seed count)) }
    ensures no_capture { IfOk result (λ script. script.capture ≡ None) }
    ensures small { IfOk result IsSmall }
{
    let commands = commands_of(alloc, seed, count)?;
    let mut sections = Vec::new(alloc);
    sections.push(commands)?;
    Ok(Script::new(header(seed), sections, None))
}
