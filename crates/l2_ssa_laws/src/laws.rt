//! What holds of a code's equations and its runs: functions without effect whose contracts are the laws.
ghost use Rattle.l2_ssa_laws.specs.Entering.{RunsEnter};
ghost use Rattle.l2_ssa_laws.specs.Events.{EventsNamed};
ghost use Rattle.l2_ssa_laws.specs.Rankings.{RowsRun, RanksRun, RunsFall, NoneWatched};

/// Where names solve the equations of a well-formed code with rankings and an event of a row is true, some cut run that tests the rows
/// alone ends at that row.
pub fn rows_run()
    ensures { RowsRun }
{}

/// Where an event of a watched loop's ranking is true, some cut run that tests the rows, and behind them the rankings of the watched
/// loops where turns count, ends at the ranking of a watched loop: with one loop watched, at its ranking.
pub fn ranks_run()
    ensures { RanksRun }
{}

/// Where such a cut run ends at a row or at a ranking, some values of the names that choices give make an event of it true, in
/// whatever way the equations are then solved.
pub fn runs_fall()
    ensures { RunsFall }
{}

/// Runs that watch no loop test the rows alone.
pub fn none_watched()
    ensures { NoneWatched }
{}

/// Where checks are events and a cut run fails, some values of the names that choices give, which enter the loops without back starts
/// and name no object without cells, make an event of that end true, in whatever way the equations are then solved.
pub fn runs_enter()
    ensures { RunsEnter }
{}

/// The goal of each event of a well-formed code's equations is a row of one of its loops, the ranking of one that has rows where
/// rankings are asked for, or elsewhere one of its checks.
pub fn events_named()
    ensures { EventsNamed }
{}
