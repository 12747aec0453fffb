//! The tables and the flat list, which is their definition, on the same scripts.

ghost use Rattle.std.specs.Prelude.{◌≤◌, ◌^◌, length};

use capture_reader::Capture;
use flat_list::Script;
use label_index::LabelSeed;
use sock_script::parse::parse;
use sock_script::{Mode, Replies, capture, output, run};
use std::alloc::{AllocError, Global};
use std::sync::Wait;
use std::test::Fail;

/// Scripts whose commands go through buckets, chains, groups, TIME_WAITs and searches, and are listed.
const SCRIPTS: [&str; 3] = [
    "table slots 4 bind 2 hash 2 listen 1\ntwreuse 1\nscript 1\nsocket a reuseaddr\n\
     bind a 10.0.0.1:5000\nconnect a to 10.0.0.2:80\nclose a\nsocket b reuseaddr\n\
     bind b 10.0.0.1:5000\nconnect b to 10.0.0.2:80\nat 1\nconnect b to 10.0.0.2:80\n\
     look 10.0.0.2:80 10.0.0.1:5000\nclose b\ndump\nat 61\nreap\nlook 10.0.0.2:80 10.0.0.1:5000\n\
     dump\n",
    "seed 559038725\nscript 1\nsocket a reuseport\nsocket b reuseport\nbind a 10.0.0.1:80\n\
     bind b 10.0.0.1:80\nlisten a\nlisten b\nlook 10.0.0.2:1002 10.0.0.1:80\ndrop a\n\
     look 10.0.0.2:1002 10.0.0.1:80\nscript 2\nsocket c uid 1 reuseport\nbind c 10.0.0.1:80\n\
     socket d net 2 dev 3\nbind d 0.0.0.0:80\nlisten d\ndump\n",
    "range 40000 40003\nscript 1\nsocket a\nlisten a\nsocket b\nconnect b from 10.0.0.1 to 10.0.0.2:80\n\
     accept a c from 10.0.0.2:7 at 10.0.0.1:40001\nlook 10.0.0.2:7 10.0.0.1:40001\nclose c\ndump\nreap\n",
];

/// What is written where that is replied and listed.
fn text_of(
    alloc: Global,
    script: &Script,
    capture: &Capture,
    replies: &Replies,
) -> Result<Vec<u8>, AllocError> {
    output::text(alloc, script, capture, &replies.each, &replies.listings)
}

/// Whether both reply and list alike at a script.
fn reply_alike<R: Wait>(rt: &R, alloc: Global, text: &[u8]) -> Result<bool, AllocError>
    requires { length text.now ≤ 2 ^ 24 }
{
    let seed = LabelSeed::fixed();
    let Ok(script) = parse(alloc, seed, text, Mode::Run) else {
        return Ok(false);
    };
    let Ok(capture) = capture::read(alloc, &script, text) else {
        return Ok(false);
    };
    let by_list = run::replies(alloc, &script, capture.items())?;
    let by_tables = race_run::run(rt, alloc, seed, &script, &capture)?;
    let list_text = text_of(alloc, &script, &capture, &by_list)?;
    let table_text = text_of(alloc, &script, &capture, &by_tables)?;
    Ok(list_text.as_slice() == table_text.as_slice())
}

#[test]
fn tables_reply_as_the_flat_list_does(rt: HostRuntime) -> Result<(), Fail> {
    for script in SCRIPTS {
        assert!(rt; reply_alike(&rt, rt.alloc(), script.as_bytes())?);
    }
    Ok(())
}
