//! Laws over the definitions.

ghost use Rattle.lerc_cli.specs.declared.words.Command.{Command};
ghost use Rattle.lerc_cli.specs.answers.Table.{AnswersOnce};
ghost use Rattle.lerc_cli.specs.words.Commands.{SpellsOne};
ghost use Rattle.lerc_cli.specs.crashes.CutRuns.{SurvivesCuts};
ghost use Rattle.lerc_cli.specs.crashes.Kept.{RestsKeepOneMap};

/// Words spell at most one command.
pub fn one_command()
    ensures { SpellsOne }
{}

/// Where all that a command reads is told, it has one answer.
pub fn one_answer()
    ensures { (c : Command) → AnswersOnce c }
{}

/// Kills and crashes that cut off one run after the other, each begun on what was handed on, hand
/// on what stands for the tiles after some of the first updates of each run, at least those that
/// were acknowledged.
pub fn survives_cuts()
    ensures { SurvivesCuts }
{}

/// Where nothing is pending at its start, a run keeps the one map that is read there, with its
/// first updates done.
pub fn runs_from_rest_keep_their_tiles()
    ensures { RestsKeepOneMap }
{}
