//! What is written for an input.
ghost use Rattle.std.specs.Prelude.{◌≡◌, ◌≤◌, length, IfOk};
ghost use Rattle.sock_script.specs.declared.parse.Mode.TheVariants as modes;
ghost use Rattle.inet_tool.specs.Table.{limit, IsReply, IsRunOf, fault_text};

use crate::fault::Fault;
use capture_reader::CaptureEnd;
use label_index::LabelSeed;
use race_run::run;
use sock_script::parse::parse;
use sock_script::{Mode, ScriptEnd, capture, output};
use std::alloc::{AllocError, Global};
use std::sync::Wait;

/// What is to be written, and what is wrong with the input, if anything is.
#[derive(Drop)]
pub struct Reply {
    pub text: Vec<u8>,
    pub fault: Option<Fault>,
}

/// The reply to an input within the limit, which is let go before its script runs.
/// The hashes of labels begin with the seed.
pub fn reply_to<R: Wait>(
    rt: &R,
    alloc: Global,
    seed: LabelSeed,
    bytes: Vec<u8>,
) -> Result<Reply, AllocError>
    requires { length bytes.items ≤ limit }
    ensures { IfOk result (λ reply. IsReply modes.Run IsRunOf bytes.items reply.fault reply.text.items) }
{
    let script = match parse(alloc, seed, &bytes, Mode::Run) {
        Ok(script) => script,
        Err(ScriptEnd::BadLine(n)) => return refusal(alloc, Fault::Line(n)),
        Err(ScriptEnd::Memory) => return Err(AllocError),
    };
    let capture = match capture::read(alloc, &script, &bytes) {
        Ok(capture) => capture,
        Err(CaptureEnd::BadHead) => return refusal(alloc, Fault::Capture),
        Err(CaptureEnd::Memory) => return Err(AllocError),
    };
    drop(bytes);
    let replies = run(rt, alloc, seed, &script, &capture)?;
    let text = output::text(alloc, &script, &capture, &replies.each, &replies.listings)?;
    Ok(Reply { text, fault: None })
}

/// The reply that says what is wrong.
pub fn refusal(alloc: Global, fault: Fault) -> Result<Reply, AllocError>
    ensures text { IfOk result (λ reply. reply.text.items ≡ fault_text fault) }
    ensures fault { IfOk result (λ reply. reply.fault ≡ Some fault) }
{
    let text = text_of(alloc, fault)?;
    Ok(Reply {
        text,
        fault: Some(fault),
    })
}

/// The line that says what is wrong.
fn text_of(alloc: Global, fault: Fault) -> Result<Vec<u8>, AllocError>
    ensures { IfOk result (λ text. text.items ≡ fault_text fault) }
{
    let line = match fault {
        Fault::Line(n) => format!(in alloc; "bad script line {n}\n")?,
        Fault::Capture => format!(in alloc; "bad capture\n")?,
    };
    Ok(line.into_bytes())
}
