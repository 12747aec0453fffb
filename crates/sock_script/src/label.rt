ghost use Rattle.std.specs.Prelude.{◌≡◌, ◌∷◌, [], IfOk, is_some, unwrap_or, slice_get};
ghost use Rattle.std.specs.Option.{option_copied};
ghost use Rattle.sock_script.specs.Grammar as spec;
ghost use Rattle.sock_script.specs.Seen.{texts, tables};
ghost use Rattle.sock_script.specs.Steps.{label_table, label_at};

use flat_list::kept::Form;
use flat_list::{KeptCommand, Label, Script};
use std::alloc::{AllocError, Global};

/// The label that a command gives to a new socket.
pub fn given_label(command: &KeptCommand) -> Option<Label>
    ensures { result ≡ spec.given_label command.now }
{
    match command.form() {
        Form::Socket { label, .. } | Form::UserSocket { label, .. } => Some(*label),
        Form::Accept { label, .. } | Form::Syn { label, .. } | Form::Ack { label, .. } => {
            Some(label.label())
        }
        Form::LongAccept { labels, .. } | Form::LongSyn { labels, .. } | Form::LongAck { labels } =>
            Some(labels.given),
        _ => None,
    }
}

/// The bytes of the label that a command gives to a new socket, where they are kept.
fn given_bytes(command: &KeptCommand) -> Option<&[u8]>
    ensures { option_copied result ≡ spec.given_label command.now }
{
    match command.form() {
        Form::Socket { label, .. } | Form::UserSocket { label, .. } => Some(label.as_bytes()),
        Form::Accept { label, .. } | Form::Syn { label, .. } | Form::Ack { label, .. } => {
            Some(label.as_bytes())
        }
        Form::LongAccept { labels, .. } | Form::LongSyn { labels, .. } | Form::LongAck { labels } =>
            Some(labels.given.as_bytes()),
        _ => None,
    }
}

/// Whether a command gives a label to a new socket.
pub fn gives_label(command: &KeptCommand) -> bool
    ensures { result ≡ is_some (spec.given_label command.now) }
{
    given_bytes(command).is_some()
}

/// The labels that a section's commands give, each at its number in the section, which is 1 or more.
fn labels_of(alloc: Global, commands: &[KeptCommand]) -> Result<Vec<&[u8]>, AllocError>
    ensures { IfOk result (λ labels. texts labels.items ≡ [] ∷ spec.given_labels commands.now) }
{
    let mut labels: Vec<&[u8]> = Vec::new(alloc);
    labels.push(&[])?;
    for command in commands {
        if let Some(label) = given_bytes(command) {
            labels.push(label)?;
        }
    }
    Ok(labels)
}

/// The label at that number, or none.
fn label_in<'a>(row: &[&'a [u8]], number: usize) -> &'a [u8]
    ensures { result.now ≡ unwrap_or (slice_get (texts row.now) number) [] }
{
    row.get(number).copied().unwrap_or(&[])
}

/// The labels of a script's sockets, found by their names.
#[derive(Drop)]
pub struct Labels<'a> {
    /// The labels of each section, at its number. None has number 0.
    pub by_section: Vec<Vec<&'a [u8]>>,
}

impl<'a> Labels<'a> {
    /// The labels that the commands of a script give.
    pub fn of_script(alloc: Global, script: &'a Script) -> Result<Self, AllocError>
        ensures { IfOk result (λ labels. tables labels.by_section.items ≡ label_table script.now.sections) }
    {
        let mut by_section = Vec::new(alloc);
        by_section.push(labels_of(alloc, &[])?)?;
        for commands in script.sections() {
            by_section.push(labels_of(alloc, commands)?)?;
        }
        Ok(Labels { by_section })
    }

    /// The label of the socket of that name, or none.
    pub fn of_name(&self, name: u64) -> &'a [u8]
        ensures { result.now ≡ label_at (tables self.now.by_section.items) name }
    {
        match self.by_section.get((name >> 56) as usize) {
            Some(row) => label_in(row, (name % 0x100_0000_0000_0000) as usize),
            None => &[],
        }
    }
}
