ghost use Rattle.std.specs.Prelude.{◌≡◌};
ghost use Rattle.sock_card.specs.Words.{packed};
ghost use Rattle.table_rule.specs.Beyond.{IsCardWords};
ghost use Rattle.table_rule.specs.Words.{words_of};

use sock_card::{Card, CardWords, unpack};

/// The card of words that are known to be one's: its words are these.
pub fn known_card(words: &CardWords) -> Card
    requires card { IsCardWords (words_of words.now) }
    ensures { packed result ≡ words.now }
{
    unpack(words)
}
