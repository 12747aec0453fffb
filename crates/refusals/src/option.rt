//! Words that name an option and may stand where they do no more.
ghost use Rattle.std.specs.Prelude.{◌≡◌};
ghost use Rattle.sock_script.specs.Seen.{texts};
ghost use Rattle.refusals.specs.Options as spec;

use line_forms::{Misfit, Verb};

/// Whether the word names a device or a network namespace.
fn is_whence(word: &[u8]) -> bool
    ensures { result ≡ spec.is_whence word.now }
{
    word == b"dev".as_slice() || word == b"net".as_slice()
}

/// Whether the word names an option of a socket.
fn is_of_socket(word: &[u8]) -> bool
    ensures { result ≡ spec.is_of_socket word.now }
{
    is_whence(word)
        || word == b"uid".as_slice()
        || word == b"reuseaddr".as_slice()
        || word == b"reuseport".as_slice()
        || word == b"noport".as_slice()
}

/// Whether the word names an option of the verb.
fn is_option(verb: Verb, word: &[u8]) -> bool
    ensures { result ≡ spec.is_option verb word.now }
{
    match verb {
        Verb::Socket => is_of_socket(word),
        Verb::Capture | Verb::Look => is_whence(word),
        Verb::Connect => word == b"from".as_slice(),
        _ => false,
    }
}

/// The word at that place of the line, of the words behind its first.
fn word_at<'a>(words: &'a [&'a [u8]], place: usize) -> &'a [u8]
    ensures { result.now ≡ spec.word_at (texts words.now) place }
{
    match words.get(place.saturating_sub(2)) {
        Some(word) => word,
        None => &[],
    }
}

/// The place of a word that names an option and stands behind all that may stand there.
pub fn untimely<'a>(verb: Verb, words: &'a [&'a [u8]], misfit: Misfit) -> Option<usize>
    ensures { result ≡ spec.untimely verb (texts words.now) misfit }
{
    match misfit {
        Misfit::Surplus { place } if is_option(verb, word_at(words, place)) => Some(place),
        _ => None,
    }
}
