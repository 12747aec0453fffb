//! A place of a list, or none, in 32 bits.

ghost use Rattle.std.specs.Prelude.{◌≡◌, ◌+◌, ◌<◌, ◌^◌, None, Some};

use std::marker::Model;

/// How many places a list has at most of which each fits a [`MaybePlace`].
pub const MOST_PLACES: usize = 0xffff_ffff;

/// A place below 4,294,967,295, or none.
///
/// It takes a quarter of what an `Option<usize>` does.
#[derive(Clone, Copy)]
pub struct MaybePlace {
    /// One more than the place, and 0 for none.
    word: u32,
}

impl Model for MaybePlace {
    ghost use Rattle.std.specs.Prelude.{ℕ, Option};
    ghost use Rattle.bind_buckets.specs.MaybePlace.{place_of, word_of, word_back};

    ghost Value = { Option ℕ };

    ghost view = { λ p. place_of p.word };

    ghost inverse = { λ place. record { word = word_of place } };

    ghost inverse_ok = { λ p h i. record { word = word_back p.word i } };
}

impl MaybePlace {
    pub fn none() -> Self
        ensures { result ≡ None }
    {
        MaybePlace { word: 0 }
    }

    pub fn of(place: usize) -> Self
        requires { place + 1 < 2 ^ 32 }
        ensures { result ≡ Some place }
    {
        MaybePlace {
            word: place as u32 + 1,
        }
    }

    pub fn get(self) -> Option<usize>
        ensures { result ≡ self }
    {
        match self.word {
            0 => None,
            word => Some(word as usize - 1),
        }
    }
}
