//! What the definitions of searches give.

ghost use Rattle.port_search.specs.Rows as row;

/// The definition of a search of `bind` gives the worked example.
pub fn rows()
    ensures { row.BindsInTurn }
{}
