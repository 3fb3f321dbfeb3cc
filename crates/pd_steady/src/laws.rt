//! Laws of whole runs.
ghost use Rattle.pd_steady.specs.Laws.{RunsAreByEvents, CommandsStaySteady, TimeStaysSteady, NamesStaySteady, OpeningIsSteady, RunsPassNothingOver, LinesTellAllBoxes, LoopsTellAllBoxes, OwnersGoOn};

/// With pd_engine's own events, edits and blocks the definitions of a run are pd_engine's.
pub fn runs_are_by_events()
    ensures { RunsAreByEvents }
{}

/// From a steady stage a command in order leads to a steady stage, and nothing is passed over in it, where its edits are lawful.
pub fn commands_stay_steady()
    ensures { CommandsStaySteady }
{
    pd_guards::delivery_passes_nothing_over();
    pd_guards::messages_keep_values();
    pd_guards::order_lasts();
    pd_sized::messages_keep_sizes();
    pd_guards::blocks_stay_in_order();
    pd_guards::commands_begin_in_order();
}

/// From a steady stage time leads to a steady stage, and nothing is passed over on the way, where it is a time at which events come and the
/// edits on the way are lawful.
pub fn time_stays_steady()
    ensures { TimeStaysSteady }
{
    pd_guards::delivery_passes_nothing_over();
    pd_guards::messages_keep_values();
    pd_guards::order_lasts();
    pd_sized::messages_keep_sizes();
    pd_guards::blocks_stay_in_order();
    pd_guards::commands_begin_in_order();
}

/// The names that a record brings leave a stage steady.
pub fn names_stay_steady()
    ensures { NamesStaySteady }
{}

/// Where a patch opens, the stage is steady, at first and, where the edits of its load event are lawful, after it, and then nothing is passed
/// over in that event.
pub fn opening_is_steady()
    ensures { OpeningIsSteady }
{
    pd_guards::delivery_passes_nothing_over();
    pd_guards::messages_keep_values();
    pd_guards::order_lasts();
    pd_sized::messages_keep_sizes();
    pd_guards::blocks_stay_in_order();
    pd_guards::commands_begin_in_order();
    pd_guards::grown_patches_are_in_order();
    pd_guards::grown_patches_are_near();
    pd_sized::what_is_made_has_sizes();
}

/// From a steady stage a run in which each edit is lawful stays steady along any commands in order, names that are read and times, and
/// nothing is passed over in it. So in a whole run in which each edit is lawful, from where a patch opens to its end, nothing is ever passed over.
pub fn runs_pass_nothing_over()
    ensures { RunsPassNothingOver }
{
    pd_guards::delivery_passes_nothing_over();
    pd_guards::messages_keep_values();
    pd_guards::order_lasts();
    pd_sized::messages_keep_sizes();
    pd_guards::blocks_stay_in_order();
    pd_guards::commands_begin_in_order();
    pd_guards::grown_patches_are_in_order();
    pd_guards::grown_patches_are_near();
    pd_sized::what_is_made_has_sizes();
}

/// In a run the two lines of a canvas's order tell all its boxes, whatever wires were made and cut and whatever boxes came, moved, became others and
/// went: there are never more than a line has room for.
pub fn lines_tell_all_boxes()
    ensures { LinesTellAllBoxes }
{}

/// Where a patch opens, the line of each signal loop tells all boxes of the loop, and so does each line that an edit tells of one, also of one in the
/// canvas around where it puts, takes or moves a port, and of those in the box that it puts: there are never more than a line has room for.
pub fn loops_tell_all_boxes()
    ensures { LoopsTellAllBoxes }
{
    pd_guards::orders_are_short();
    pd_wiring::rewiring_asks_alike();
}

/// In a run in which each edit is lawful, from where a patch opens through any commands, names and times, each box that was there, and that no edit
/// deletes, by itself or with a box around it, or makes another one, keeps what is of the same objects as what it kept at first; and so does, from
/// any stage on, each box that is there, also one that came. And where each table of names that is read goes on, the first owner of the name that a
/// box looks for always keeps what that box looks for, also at the end, whatever boxes came, moved, became others and went.
pub fn owners_go_on()
    ensures { OwnersGoOn }
{}
