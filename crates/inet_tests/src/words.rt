//! What the words of a command line ask for.

use inet_tool::words::{Ask, AskEnd, ask_of};
use std::alloc::{AllocError, Global};
use std::test::Fail;

/// Command lines, the words parted by a space, and what each asks for.
const ROWS: [(&str, Result<Ask, AskEnd>); 37] = [
    ("inet run", Ok(Ask::Run)),
    ("inet audit", Ok(Ask::Audit)),
    ("inet audit x", Err(AskEnd::Usage)),
    ("inet audit --passes 1", Err(AskEnd::Usage)),
    ("inet make 1 0", Ok(Ask::Make { seed: 1, count: 0 })),
    (
        "inet make 4294967295 100000",
        Ok(Ask::Make {
            seed: 4_294_967_295,
            count: 100_000,
        }),
    ),
    ("inet make +7 007", Ok(Ask::Make { seed: 7, count: 7 })),
    ("inet make 4294967296 0", Err(AskEnd::Usage)),
    ("inet make 1 100001", Err(AskEnd::Usage)),
    ("inet make 1 -1", Err(AskEnd::Usage)),
    ("inet make", Err(AskEnd::Usage)),
    ("inet make 1", Err(AskEnd::Usage)),
    ("inet make 1 2 3", Err(AskEnd::Usage)),
    ("inet run x", Err(AskEnd::Usage)),
    (
        "inet race --lookers 1 --passes 1",
        Ok(Ask::Race {
            lookers: 1,
            passes: 1,
        }),
    ),
    (
        "inet race --passes 64 --lookers 16",
        Ok(Ask::Race {
            lookers: 16,
            passes: 64,
        }),
    ),
    (
        "inet race --lookers=+4 --passes=008",
        Ok(Ask::Race {
            lookers: 4,
            passes: 8,
        }),
    ),
    ("inet race", Err(AskEnd::Usage)),
    ("inet race --lookers 4", Err(AskEnd::Usage)),
    ("inet race --passes 8", Err(AskEnd::Usage)),
    ("inet race --lookers 0 --passes 1", Err(AskEnd::Usage)),
    ("inet race --lookers 17 --passes 1", Err(AskEnd::Usage)),
    ("inet race --lookers 1 --passes 0", Err(AskEnd::Usage)),
    ("inet race --lookers 1 --passes 65", Err(AskEnd::Usage)),
    ("inet race --lookers 1 --passes -1", Err(AskEnd::Usage)),
    ("inet race --lookers --passes 1", Err(AskEnd::Usage)),
    (
        "inet race --lookers 1 --lookers 2 --passes 1",
        Err(AskEnd::Usage),
    ),
    ("inet race --lookers 1 --passes 1 x", Err(AskEnd::Usage)),
    ("inet race 1 1", Err(AskEnd::Usage)),
    ("inet race -h", Err(AskEnd::Usage)),
    ("inet run --lookers 1", Err(AskEnd::Usage)),
    ("inet help", Err(AskEnd::Usage)),
    ("inet --help", Err(AskEnd::Usage)),
    ("inet run -h", Err(AskEnd::Usage)),
    ("inet --version", Err(AskEnd::Usage)),
    ("inet walk", Err(AskEnd::Usage)),
    ("inet -- run", Err(AskEnd::Usage)),
];

/// The words of a line.
fn words_of(alloc: Global, line: &str) -> Result<Vec<String>, AllocError> {
    let mut words = Vec::new(alloc);
    for word in line.split(' ') {
        words.push(String::from_str(alloc, word)?)?;
    }
    Ok(words)
}

#[test]
fn words_ask_for_what_their_row_says(rt: HostRuntime) -> Result<(), Fail> {
    for (line, wanted) in ROWS {
        let words = words_of(rt.alloc(), line)?;
        assert_eq!(rt; ask_of(rt.alloc(), &words), wanted);
    }
    Ok(())
}

#[test]
fn no_words_ask_for_nothing(rt: HostRuntime) {
    assert_eq!(rt; ask_of(rt.alloc(), &[]), Err(AskEnd::Usage));
}
