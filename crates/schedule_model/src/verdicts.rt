//! A schedule has one verdict for each choice at its crash lines. Each function has no code, and its contract is a law.
ghost use Rattle.schedule_model.specs.Laws.{OneKind, OneSetup, OneProperty, OneCommand, OneStep, StepsByChoice, OneAct, OneOutcome, OneRun, RunsByChoices, OneVerdict, VerdictsByChoices, OneKindOfVerdict, OnePlainVerdict};

/// A line of a schedule is read in one way: it says nothing, is a domain line, sets a property or is a command, and never two of
/// these; and it spells one setup, one property, or one command.
pub fn one_reading()
    ensures kind { OneKind }
    ensures setup { OneSetup }
    ensures property { OneProperty }
    ensures command { OneCommand }
{}

/// A step of a world by a command in form has one reply, and leads to one world; by a crash line it does so for each choice, and each
/// step is made by some choice.
pub fn one_step()
    ensures once { OneStep }
    ensures chosen { StepsByChoice }
{}

/// The lines of a schedule have one verdict by the same choices at their crash lines: at each stage a line acts in one way, or is
/// outside the grammar, and never both; so a run over lines writes one text and leads to one stage, and what becomes of the schedule
/// is one thing. Each run and each verdict is one by some choices. Whatever the choices are, the lines are finished or have the same first
/// bad line; and without a crash line there is one verdict.
pub fn one_verdict()
    ensures act { OneAct }
    ensures outcome { OneOutcome }
    ensures run { OneRun }
    ensures runs_chosen { RunsByChoices }
    ensures verdict { OneVerdict }
    ensures chosen { VerdictsByChoices }
    ensures kind { OneKindOfVerdict }
    ensures plain { OnePlainVerdict }
{}
