//! What the definitions of the flat list imply of every list that commands reach.

ghost use Rattle.std.specs.Prelude.{None, Some, true, false, [], ◌∷◌};
ghost use Rattle.flat_list.specs.Rows.{Answer, with_slots, with_range, with_seed, with_reserved, until_one_listens, beside_by_device, one_slot, accepted_goes_first, handed_over, not_handed_over, one_four_tuple, slot_is_freed, states_refuse, four_ports, binds_from_two, connects_from_two, shared_by_connect, listens_anywhere, late_ports, late_again, kept_ports, port_without_slot, words_are_drawn, closed_without_slot, child_stays, child_lets_in, shared_by_user, with_reuse, reused, waited_for, by_rank, with_known_hashes, chosen_by_hash, one_listener_too_many};
ghost use Rattle.flat_list.specs.Flat.{new_flat};
ghost use Rattle.flat_list.specs.MoreRows as more;
ghost use Rattle.flat_list.specs.Ports as ports;
ghost use Rattle.flat_list.specs.Sound as law;

/// A list that commands reach is sound: the empty one is, and each command leaves it so.
pub fn soundness()
    ensures starts { law.StartsSound }
    ensures stays { law.StaysSound }
    ensures runs { law.RunsSound }
{}

/// A refused command leaves all sockets and groups as they were.
pub fn refusals()
    ensures { law.RefusalKeeps }
{}

/// No command takes a slot that isn't there.
pub fn slots()
    ensures { law.StaysWithinSlots }
{}

/// A request's `ack` isn't refused EINVAL while its listener is open.
pub fn acks()
    ensures { law.AcksWhileOpen }
{}

/// A packet's lookup has one socket to choose from, at most, or one group of listeners.
pub fn one_best()
    ensures { law.FindsOneOrOneGroup }
{}

/// A search tries each port of its range once, wherever it begins.
pub fn port_order()
    ensures { ports.TriesEachOnce }
{}

/// The definitions give the worked examples.
pub fn rows()
    ensures shared_address { Answer (with_slots 1024) until_one_listens }
    ensures devices { Answer (with_slots 1024) beside_by_device }
    ensures slots { Answer (with_slots 1) one_slot }
    ensures accepted { Answer (with_slots 1024) accepted_goes_first }
    ensures handed_over { Answer (with_slots 1024) handed_over }
    ensures not_handed_over { Answer (with_slots 2) not_handed_over }
    ensures four_tuple { Answer (with_slots 1024) one_four_tuple }
    ensures freed { Answer (with_slots 1) slot_is_freed }
    ensures refusals { Answer (with_slots 1024) states_refuse }
    ensures four_ports { Answer (with_range 40000 40003 (Some 0)) four_ports }
    ensures binds { Answer (with_range 40000 40003 (Some 2)) binds_from_two }
    ensures connects { Answer (with_range 40000 40003 (Some 2)) connects_from_two }
    ensures shared_port { Answer (with_range 40000 40001 None) shared_by_connect }
    ensures listener { Answer (with_range 40000 40001 None) listens_anywhere }
    ensures late { Answer (with_range 40000 40001 None) late_ports }
    ensures late_again { Answer (with_range 40000 40001 None) late_again }
    ensures reserved { Answer with_reserved kept_ports }
    ensures no_slot { Answer (with_slots 1) port_without_slot }
    ensures words { Answer (with_seed 7) words_are_drawn }
    ensures closed { Answer (with_slots 1) closed_without_slot }
    ensures child_stays { Answer (with_slots 1024) child_stays }
    ensures child_lets_in { Answer (with_slots 1024) child_lets_in }
    ensures user { Answer (with_slots 1024) shared_by_user }
    ensures reused { Answer (with_reuse true) reused }
    ensures waited_for { Answer (with_reuse false) waited_for }
    ensures rank { Answer (with_slots 1024) by_rank }
    ensures hash { Answer with_known_hashes chosen_by_hash }
    ensures full_group { Answer (with_slots 1024) one_listener_too_many }
{}

/// They give those of several causes of a refusal, and of several sections.
pub fn more_rows()
    ensures refusals { Answer (with_slots 3) more.refusals }
    ensures full_and_grouped { Answer (with_slots 8) more.full_and_grouped }
    ensures sections { more.AllAnswer (new_flat more.for_sections) 1
        (more.section_one ∷ more.section_two ∷ more.section_three ∷ []) }
    ensures waits { Answer (with_slots 3) more.waits }
    ensures wait_taken { Answer (with_slots 1024) more.wait_taken }
    ensures requests { Answer (with_slots 2) more.requests }
    ensures wait_requested { Answer (with_slots 1024) more.wait_requested }
    ensures wait_shared { Answer (with_slots 1024) more.wait_shared }
    ensures searches { Answer (with_range 40000 40001 (Some 65535)) more.searches }
    ensures kept_mark { Answer (with_range 40000 40001 None) more.kept_mark }
    ensures devices { Answer (with_slots 1024) more.devices }
    ensures namespaces { Answer (with_slots 1024) more.namespaces }
    ensures searches_apart { Answer (with_range 40000 40001 (Some 0)) more.searches_apart }
    ensures buckets { more.IsApart }
{}
