//! What a clone does, done or refused in the middle, as a step of the model and its durable steps.
ghost use Rattle.crash_laws.specs.CrashLaws.{PlannedDeeds, ReceivedDeeds, CompactionDeeds, TruncationDeeds, AdoptionDeeds, PassingDeeds, OpeningDeeds, UnchangedDeeds, UpdatedDeeds, TooManyDeeds, SingleDeeds, AnsweredDeeds, FullDeeds, DeepDeeds, UnsentDeeds, AskingDeeds, UncompactedDeeds, UntruncatedDeeds, DoneIsDeed};

/// What a clone of a sound world would have done when a call of its device failed is a step of the model, whose durable steps the
/// changes of its banks carry: an update, a message that comes, a compaction, a truncation, and a leaf that comes to one who asks.
pub fn deeds_refused()
    ensures planned { PlannedDeeds }
    ensures received { ReceivedDeeds }
    ensures compaction { CompactionDeeds }
    ensures truncation { TruncationDeeds }
    ensures adoption { AdoptionDeeds }
{}

/// So is what was done, and what changes nothing. What was done is the one deed of its command.
pub fn deeds_done()
    ensures updated { UpdatedDeeds }
    ensures too_many { TooManyDeeds }
    ensures single { SingleDeeds }
    ensures answered { AnsweredDeeds }
    ensures full { FullDeeds }
    ensures deep { DeepDeeds }
    ensures unsent { UnsentDeeds }
    ensures asking { AskingDeeds }
    ensures uncompacted { UncompactedDeeds }
    ensures untruncated { UntruncatedDeeds }
    ensures passing { PassingDeeds }
    ensures opening { OpeningDeeds }
    ensures unchanged { UnchangedDeeds }
    ensures deed { DoneIsDeed }
{}
