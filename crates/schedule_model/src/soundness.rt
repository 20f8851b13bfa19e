//! Every world that a schedule reaches is sound, and keeps what its clones answered. The functions have no code, and their
//! contracts are the laws of such worlds.
ghost use Rattle.schedule_model.specs.Laws.{FoundedIsSound, StepIsSound, RunsAreSound, SamePairs, SameAnswers, OneLeaf, AddRemembers, RemoveRemembers, UpdateRemembers, DidRemembers, StepRemembers, AnswersSurvive, RunsKeepPromises};

/// The founded world is sound, a step of a sound world by a command whose clones there are leads to a sound world, and so
/// each world that a schedule reaches is sound. Clones that know the same dots have the same pairs, and answer each query alike. No two
/// clones of a sound world hold one leaf.
pub fn sound_worlds()
    ensures founded { FoundedIsSound }
    ensures step { StepIsSound }
    ensures runs { RunsAreSound }
    ensures same_pairs { SamePairs }
    ensures same_answers { SameAnswers }
    ensures one_leaf { OneLeaf }
{}

/// An answer that tells of a dot, by `did` alone or before `crashed`, holds from then on. A clone *remembers* an operation where it is
/// live or down and knows the operation's dot, and the operation stands in the world's history.
///
/// The dot that an `add` tells of is that of an operation whose effect inserts the triple alone and deletes nothing. The dot
/// that a `remove` tells of is that of an operation whose effect inserts nothing and deletes all pairs of the triple, at least
/// one, that the clone had before. The dot that an `update` tells of is that of an operation by the effect of its plan on the
/// pairs that the clone had before. So it is where these are the commands of crash lines. Whatever command tells of a dot, its step
/// put the operation of that dot at the head of the history, and its clone remembers that operation after the step. What a clone
/// remembers before a step it remembers after it, whatever the command is, a crash line too. So in the world that a schedule reaches,
/// the operation of each of its lines that was answered with a dot is remembered by its clone.
pub fn answers_survive()
    ensures add { AddRemembers }
    ensures remove { RemoveRemembers }
    ensures update { UpdateRemembers }
    ensures did { DidRemembers }
    ensures kept { StepRemembers }
    ensures answered { AnswersSurvive }
{}

/// What is promised of the world that a schedule reaches: it is sound; its clones that know the same dots have the same pairs,
/// and answer each query alike; the operation of each of its lines that was answered with a dot stands unchanged, and its clone
/// knows it; no two clones hold one leaf.
pub fn promises_kept()
    ensures { RunsKeepPromises }
{}
