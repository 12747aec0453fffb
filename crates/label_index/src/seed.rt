ghost use Rattle.std.specs.Prelude.{◌≡◌};
ghost use Rattle.label_index.specs.Seeds as spec;

use std::hash::{BuildHasher, FoldHasher, Hasher};
use std::random::RandomSource;

/// What the hashes of labels begin with. It decides how long a search takes, and never what is found.
#[derive(Clone, Copy)]
pub struct LabelSeed {
    /// A hasher that was fed the seed's number.
    first: FoldHasher,
}

impl LabelSeed {
    /// One that nobody can foresee, of eight bytes that the system draws. Where it draws none, it is [`fixed`], and
    /// labels can be chosen that are slow to find.
    ///
    /// [`fixed`]: LabelSeed::fixed
    pub fn random(rt: &impl RandomSource) -> LabelSeed {
        let mut bytes = [0; 8];
        match rt.fill_bytes(&mut bytes) {
            Ok(()) => LabelSeed::of(u64::from_le_bytes(bytes)),
            Err(_) => LabelSeed::fixed(),
        }
    }

    /// The same each time: for labels that no stranger chooses, as those of tests.
    pub fn fixed() -> LabelSeed
        ensures { result.first ≡ spec.fed 0 }
    {
        LabelSeed::of(0)
    }

    /// That of a number.
    pub(crate) fn of(number: u64) -> LabelSeed
        ensures { result.first ≡ spec.fed number }
    {
        let mut first = FoldHasher::default();
        first.write_u64(number);
        LabelSeed { first }
    }
}

impl BuildHasher for LabelSeed {
    type Hasher = FoldHasher;

    ghost build_hasher = { λ s. s.first };

    fn build_hasher(&self) -> FoldHasher {
        self.first
    }
}
