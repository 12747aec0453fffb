//! What the plans of commands come to on tables that mean a flat list.

ghost use Rattle.table_model.specs.Means as law;
ghost use Rattle.table_model.specs.Goes as goes_law;
ghost use Rattle.table_model.specs.Operations.{Did};
ghost use Rattle.table_model.specs.Commands.{Replied};

/// New tables mean the empty list, and a section that hasn't begun knows nothing of itself yet.
pub fn beginnings()
    ensures tables { law.NewMeanEmpty }
    ensures section { law.StartsMeant }
{}

/// The owner of an open socket of a section's own stands in the bucket of its key, the first of its name; of
/// one without a port no bucket knows the name.
pub fn owners_stand()
    ensures stand { law.OwnersStand }
    ensures fresh { law.UnboundFresh }
{}

/// Each command's plan, carried out on tables that mean a list, comes to an end; it replies as the list
/// does, and leaves what the list leaves.
pub fn plans()
    ensures end { law.PlansEnd }
    ensures refine { law.PlansRefine }
{}

/// A plan that went on by entries and outcomes, whoever else was at the tables, is carried out so on
/// tables of one's own, where the pass that made the entries is alone.
pub fn alone()
    ensures operation { goes_law.GoesAlone Did }
    ensures command { goes_law.GoesAlone Replied }
    ensures went { goes_law.WentAlone Did }
{}

/// A command of one section, carried out on tables that mean a list, leaves what another section knows of
/// itself meant by the list that it leaves: so sections can take turns at the same tables.
pub fn others_stay()
    ensures stay { law.OthersStay }
{}
