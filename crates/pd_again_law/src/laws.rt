//! The law of saves in whole runs.
ghost use Rattle.pd_again_law.specs.Laws.{SavesOpenAgain, StagesOpenAgain, BareBoxesLeaveNumbers, BareBoxesBringNoNumber};

/// In a run in which each edit is lawful, from where a patch opens to its end, whatever wires and boxes come, go and move, and whatever boxes become,
/// each save puts a text that opens again, under the patch's own `$0` numbers, as the patch that was saved. So it does as a file that is opened does,
/// where these numbers are the first ones from 1001 on, as they are until a box goes that takes one of them away, or one comes that brings one. It
/// does so with the files that are known by then, which begin with those that were gathered where the patch opened.
pub fn saves_open_again()
    ensures { SavesOpenAgain }
{
    pd_steady::delivery_passes_nothing_over();
    pd_steady::messages_keep_values();
    pd_steady::order_lasts();
    pd_steady::messages_keep_sizes();
    pd_steady::blocks_stay_in_order();
    pd_steady::commands_begin_in_order();
    pd_steady::opening_is_steady();
    pd_put_law::boxes_come_into_trees();
    pd_put_law::counts_follow_boxes();
    pd_put_law::boxes_can_be_saved();
    pd_take_law::boxes_go_from_trees();
    pd_take_law::counts_follow_deletes();
    pd_take_law::shorter_documents_can_be_saved();
    pd_shifted_law::trees_follow_moves();
    pd_shifted_law::names_follow_moves();
    pd_shift_law::wires_follow_moves();
    pd_shift_law::moved_trees_grow_again();
    pd_shift_law::moved_documents_can_be_saved();
    pd_retype_law::boxes_become_others_in_trees();
    pd_retype_law::counts_follow_retypes();
    pd_retype_law::retyped_boxes_can_be_saved();
    pd_reload_law::documents_tell_trees();
    pd_doc::written_read();
}

/// In such a run a patch that stands anywhere between two steps has a text that opens again so as that patch, also where nothing is saved.
pub fn stages_open_again()
    ensures { StagesOpenAgain }
{
    pd_steady::delivery_passes_nothing_over();
    pd_steady::messages_keep_values();
    pd_steady::order_lasts();
    pd_steady::messages_keep_sizes();
    pd_steady::blocks_stay_in_order();
    pd_steady::commands_begin_in_order();
    pd_steady::opening_is_steady();
    pd_put_law::boxes_come_into_trees();
    pd_put_law::counts_follow_boxes();
    pd_put_law::boxes_can_be_saved();
    pd_take_law::boxes_go_from_trees();
    pd_take_law::counts_follow_deletes();
    pd_take_law::shorter_documents_can_be_saved();
    pd_shifted_law::trees_follow_moves();
    pd_shifted_law::names_follow_moves();
    pd_shift_law::wires_follow_moves();
    pd_shift_law::moved_trees_grow_again();
    pd_shift_law::moved_documents_can_be_saved();
    pd_retype_law::boxes_become_others_in_trees();
    pd_retype_law::counts_follow_retypes();
    pd_retype_law::retyped_boxes_can_be_saved();
    pd_reload_law::documents_tell_trees();
    pd_doc::written_read();
}

/// A box without a canvas inside takes no `$0` number away where it goes, nor does a port of the box around.
pub fn bare_boxes_leave_numbers()
    ensures { BareBoxesLeaveNumbers }
{}

/// A box without a canvas inside brings no `$0` number where it comes, nor does a subpatch without boxes.
pub fn bare_boxes_bring_no_number()
    ensures { BareBoxesBringNoNumber }
{}
