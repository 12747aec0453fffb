//! The whole text.

ghost use Rattle.std.specs.Prelude.{◌≡◌, IfOk};
ghost use Rattle.race_book.specs.Listed.{StampsDiffer, FitSlots};
ghost use Rattle.race_text.specs.Render.{command_lines, told_text};

use crate::record::Record;
use crate::text::{
    put_clock, put_cut, put_journals, put_lives, put_looked_lines, put_race, put_shape,
};
use capture_reader::Capture;
use flat_list::{Reply, Script};
use race_book::lives::lives;
use sock_script::Shown;
use sock_script::label::Labels;
use sock_script::output::{put, text};
use socket_list::Listing;
use std::alloc::{AllocError, Global};

/// The lines of the commands, as `run` writes them. What they show of the replies is let go with the return.
fn commands_text(
    alloc: Global,
    script: &Script,
    replies: &[Reply],
    listings: &[Listing],
) -> Result<Vec<u8>, AllocError>
    ensures { IfOk result (λ text. text.items ≡ command_lines script.now.sections replies.now listings.now) }
{
    let shown = Shown::of_each(alloc, replies)?;
    let lines = text(alloc, script, &Capture::new(alloc), &shown, listings)?;
    Ok(lines)
}

/// The text of what is written of a race of that script.
///
/// Takes memory for the text, and for the lives, and for what lines show of replies, on the way to it.
pub fn render(alloc: Global, script: &Script, told: &Record) -> Result<Vec<u8>, AllocError>
    requires slots { FitSlots told.now.shape.slots told.now.book }
    requires stamps { StampsDiffer told.now.book }
    ensures { IfOk result (λ text. text.items ≡ told_text script.now.sections told.now) }
{
    let labels = Labels::of_script(alloc, script)?;
    let commands = commands_text(alloc, script, &told.replies, &told.listings)?;
    let lives = lives(alloc, &told.book, told.shape.slots as usize)?;
    let mut out = Vec::new(alloc);
    put_race(&mut out, told.lookers, told.passes)?;
    put_shape(&mut out, &told.shape, told.seed)?;
    put(&mut out, &commands)?;
    put_journals(&mut out, &told.journals)?;
    put_lives(&mut out, &labels, &lives)?;
    put_looked_lines(&mut out, &labels, &told.looked)?;
    put_cut(&mut out, told.cut)?;
    put_clock(&mut out, told.clock)?;
    Ok(out)
}
