ghost use Rattle.std.specs.Prelude.{Some, true};
ghost use Rattle.flat_list.specs.Rows.{with_slots, with_range, with_seed, until_one_listens, beside_by_device, one_four_tuple, states_refuse, four_ports, binds_from_two, connects_from_two, shared_by_connect, port_without_slot, words_are_drawn, child_stays, child_lets_in, shared_by_user, one_listener_too_many, with_reuse, handed_over, not_handed_over};
ghost use Rattle.flat_list.specs.MoreRows as more;
ghost use Rattle.table_model.specs.Rows.{BothAnswer, with_buckets, without_looks, wait_is_replaced, wait_is_reaped, three_groups, one_slot_each, group_is_full, bucket_is_full};

/// The worked examples answer what they say, by the plans as by the flat list.
pub fn worked_rows()
    ensures shared_address { BothAnswer (with_slots 1024) until_one_listens }
    ensures devices { BothAnswer (with_slots 1024) beside_by_device }
    ensures child_keeps { BothAnswer (with_slots 1024) child_stays }
    ensures child_shares { BothAnswer (with_slots 1024) child_lets_in }
    ensures four_tuple { BothAnswer (with_slots 1024) one_four_tuple }
    ensures refusals { BothAnswer (with_slots 1024) states_refuse }
    ensures four_ports { BothAnswer (with_range 40000 40003 (Some 0)) four_ports }
    ensures binds { BothAnswer (with_range 40000 40003 (Some 2)) binds_from_two }
    ensures connects { BothAnswer (with_range 40000 40003 (Some 2)) connects_from_two }
    ensures shared_ports { BothAnswer (with_range 40000 40001 (Some 0)) shared_by_connect }
    ensures port_given_up { BothAnswer (with_slots 1) port_without_slot }
    ensures drawn { BothAnswer (with_seed 7) words_are_drawn }
    ensures replaced { BothAnswer (with_reuse true) wait_is_replaced }
    ensures reaped { BothAnswer with_buckets wait_is_reaped }
    ensures groups { BothAnswer with_buckets three_groups }
    ensures slot { BothAnswer (with_slots 1) one_slot_each }
    ensures users { BothAnswer (with_slots 1024) shared_by_user }
    ensures one_too_many { BothAnswer with_buckets one_listener_too_many }
    ensures full_group { BothAnswer with_buckets group_is_full }
    ensures full_bucket { BothAnswer with_buckets bucket_is_full }
    ensures handed_over { BothAnswer with_buckets (without_looks handed_over) }
    ensures not_handed_over { BothAnswer (with_slots 2) (without_looks not_handed_over) }
    ensures requests { BothAnswer (with_slots 2) (without_looks more.requests) }
    ensures wait_requested { BothAnswer with_buckets (without_looks more.wait_requested) }
{}
