//! What a table asks of its values.

ghost use Rattle.std.specs.Prelude.{ℕ, List};
ghost use Rattle.turn_table.specs.declared.note.Note.{Note as NoteOf};

/// A value that stands for a list of entries, its journal.
///
/// The table never makes an entry. A value's own calls append them, each with a number that
/// [`Turns::draw`](crate::Turns::draw) gave and the number of the pass that called.
pub trait Journaled: Drop {
    /// What one call on a value is in its journal.
    type Entry;

    /// What the values of one table have in common: `()` where that is nothing.
    type Home;

    /// The entries that it stands for, oldest first.
    ghost notes: { Self → List (NoteOf Self.Entry) };

    /// It is what its entries leave, and they are legal.
    ghost is_replay: { Self → Type 0 };

    /// It is made for this place of a table of so many values.
    ghost made_for: { Self.Home → ℕ → ℕ → Self → Type 0 };

    /// The caller of that number may make this entry.
    ghost may_make: { ℕ → Self.Entry → Type 0 };
}

/// A value in a box is taken and given back without being moved.
impl<V: Journaled> Journaled for Box<V> {
    type Entry = V::Entry;

    type Home = V::Home;

    ghost notes = { λ b. V.notes b.value };

    ghost is_replay = { λ b. V.is_replay b.value };

    ghost made_for = { λ home i n b. V.made_for home i n b.value };

    ghost may_make = { V.may_make };
}
