//! What holds of open monitors over every history.
ghost use Rattle.pm_close.specs.OpenMonitors.{BootsHaveNoCrossings, GoOnLater, GoOnReaches, MayFollowPlans, MonitorsOpenStay};

/// What isn't on a monitor leaves what is kept of them. A law: the call does nothing.
pub fn monitors_open_stay()
    ensures { MonitorsOpenStay }
{}

/// What is prepared for a plan that jobs may enact can be followed beside them. A law: the call does nothing.
pub fn plans_have_places()
    ensures { MayFollowPlans }
{}

/// What can go on reaches to each later tick. A law: the call does nothing.
pub fn monitors_reach()
    ensures { GoOnReaches }
{}

/// Cells before the first needed tick may go. A law: the call does nothing.
pub fn monitors_go_on()
    ensures { GoOnLater }
{}

/// No crossing comes with ticks that a start of the program ends. A law: the call does nothing.
pub fn boots_have_no_crossings()
    ensures { BootsHaveNoCrossings }
{}
