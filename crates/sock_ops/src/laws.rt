//! Laws of plans that were carried out, without code: what follows from the contracts of the operations, for the crates
//! above.

ghost use Rattle.table_model.specs.Operations.{Closed, Did};
ghost use Rattle.sock_ops.specs.Laws.{BindStands, ComeAlone};

/// On a worker that was never split, a plan that went to its end comes to that on the tables that the worker's own
/// entries and changes make.
pub fn plans_come_alone()
    ensures dids { ComeAlone Did }
    ensures closes { ComeAlone Closed }
{}

/// After `bind` the bound socket stands, and one that was refused, or for which the call was left off, stands as it
/// did.
pub fn bind_stands()
    ensures { BindStands }
{}
