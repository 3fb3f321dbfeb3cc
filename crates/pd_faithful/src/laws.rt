//! Laws of scripts and of whole plays.
ghost use Rattle.pd_faithful.specs.Laws as law;

/// With pd_engine's own events and blocks the run of a script is pd_play's.
pub fn scripts_are_by_events()
    ensures { law.ScriptsAreByEvents }
{}

/// From a steady point the run of a script in which each edit is lawful is steps, one after another: the names that a record brings, the time
/// that it comes to, and its command. Each is in order where the run has come to. Then the last block runs, where the run has come to its end.
pub fn scripts_are_steps()
    ensures { law.ScriptsAreSteps }
{
    pd_again_law::delivery_passes_nothing_over();
    pd_again_law::messages_keep_values();
    pd_again_law::order_lasts();
    pd_again_law::messages_keep_sizes();
    pd_again_law::blocks_stay_in_order();
    pd_again_law::commands_begin_in_order();
    pd_script::tables_go_on();
}

/// From a steady point nothing is ever passed over in the run of a script in which each edit is lawful, whatever its bytes are. A patch
/// opens at a steady point, so nothing is passed over from there to the end.
pub fn scripts_pass_nothing_over()
    ensures freely { law.ScriptsPassNothingOver }
    ensures opens { law.FilesOpenSteadily }
    ensures whole { law.RunsPassNothingOver }
{
    pd_again_law::delivery_passes_nothing_over();
    pd_again_law::messages_keep_values();
    pd_again_law::order_lasts();
    pd_again_law::messages_keep_sizes();
    pd_again_law::blocks_stay_in_order();
    pd_again_law::commands_begin_in_order();
    pd_script::tables_go_on();
    pd_again_law::opening_is_steady();
}

/// What a call of `play` prints, writes and puts into the folder, where the patch opens, is a run in which nothing is ever passed over. So it is
/// with a made patch.
pub fn play_passes_nothing_over()
    ensures opened { law.PlaysPassNothingOver }
    ensures made { law.MadePlaysPassNothingOver }
{
    pd_again_law::delivery_passes_nothing_over();
    pd_again_law::messages_keep_values();
    pd_again_law::order_lasts();
    pd_again_law::messages_keep_sizes();
    pd_again_law::blocks_stay_in_order();
    pd_again_law::commands_begin_in_order();
    pd_script::tables_go_on();
    pd_again_law::opening_is_steady();
    pd_again_law::boxes_come_into_trees();
    pd_again_law::counts_follow_boxes();
    pd_again_law::boxes_can_be_saved();
    pd_again_law::boxes_go_from_trees();
    pd_again_law::counts_follow_deletes();
    pd_again_law::shorter_documents_can_be_saved();
    pd_again_law::trees_follow_moves();
    pd_again_law::names_follow_moves();
    pd_again_law::wires_follow_moves();
    pd_again_law::moved_trees_grow_again();
    pd_again_law::moved_documents_can_be_saved();
    pd_again_law::boxes_become_others_in_trees();
    pd_again_law::counts_follow_retypes();
    pd_again_law::retyped_boxes_can_be_saved();
    pd_again_law::documents_tell_trees();
    pd_doc::written_read();
}
