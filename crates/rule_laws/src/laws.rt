//! Laws of the flat list, of its lookups and of the events of a script.

ghost use Rattle.std.specs.Prelude.{Some};
ghost use Rattle.flat_list.specs.Rows.{Answer, with_slots, with_range};
ghost use Rattle.rule_laws.specs.Dumps.{DumpsListEach};
ghost use Rattle.rule_laws.specs.Events.{EventsAreAll, ListingsAreAll, RepliesAreAll};
ghost use Rattle.rule_laws.specs.Finds.{FindsTheBest};
ghost use Rattle.rule_laws.specs.Leaves.{CommandsLeave, MomentsAreSet, RefusalsLeave};
ghost use Rattle.rule_laws.specs.Rows as row;
ghost use Rattle.rule_laws.specs.Scripts.{ScriptsAreOrderly};
ghost use Rattle.rule_laws.specs.TextRows as text;

/// What a packet finds in a sound list matches it, and no card matches it better; where it finds nothing,
/// none matches.
pub fn best_card()
    ensures { FindsTheBest }
{}

/// A dump of a sound list has each socket that lookups find exactly once, and no other, and their names ascend.
pub fn dumps()
    ensures { DumpsListEach }
{}

/// A command leaves the header and all sections but its own, which gives the command's label and draws one word at
/// most; `at` alone, where it isn't refused, sets its moment.
pub fn sections_stay()
    ensures each { CommandsLeave }
    ensures refused { RefusalsLeave }
    ensures moments { MomentsAreSet }
{}

/// A run comes to each command but `packets` and to each item of the capture, once and in their order, and there are
/// as many replies; and as many listings as there are dumps.
pub fn all_events()
    ensures events { EventsAreAll }
    ensures replies { RepliesAreAll }
    ensures listings { ListingsAreAll }
{}

/// Each script that a text is has 64 sections at most; the labels of one differ, what its commands say is in range,
/// and one for a race asks for no lookup.
pub fn orderly_scripts()
    ensures { ScriptsAreOrderly }
{}

/// The definitions give worked examples of rules that no row of the flat list shows.
pub fn rows()
    ensures groups { Answer (with_slots 1024) row.groups_apart }
    ensures reserved { Answer row.from_two row.kept_from_two }
    ensures bound { Answer (with_slots 1024) row.bound_before_in_use }
    ensures in_use { Answer (with_slots 1024) row.in_use_before_full }
    ensures late { Answer row.one_slot_two_ports row.late_without_slot }
    ensures source { Answer (with_slots 1024) row.source_is_taken }
    ensures listener { Answer (with_slots 1024) row.listener_before_taken }
    ensures child { Answer (with_range 40000 40001 (Some 0)) row.child_keeps_port }
    ensures tuple { Answer (with_slots 1024) row.one_tuple_on_two_devices }
    ensures refused_handshakes { Answer (with_slots 3) row.listener_before_slots }
    ensures wait_slot { Answer (with_slots 3) row.wait_keeps_slot }
    ensures handshake { Answer (with_slots 1024) row.handshake_on_device }
    ensures handed_port { Answer (with_range 40000 40001 (Some 0)) row.handshake_keeps_port }
    ensures upwards { Answer (with_range 40000 40005 (Some 0)) row.upwards }
    ensures seed { row.IsAdded }
{}

/// They give the scripts of worked texts, one of which has each form with the last numbers of its ranges; what is
/// written for two others, one of them with a list of its sockets; and a generated script's far ports.
pub fn text_rows()
    ensures unsaid { text.IsUnsaid }
    ensures written { text.IsWritten }
    ensures dumped { text.IsDumped }
    ensures forms { text.IsEachForm }
    ensures far_ports { text.GoesRound }
{}
