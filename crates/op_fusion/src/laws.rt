//! The laws of fused entries and of cuts, for all lawful histories. These functions do nothing: their clauses are the laws.
ghost use Rattle.op_fusion.specs.FusionLaws.{OneFused, FusedNetsAreNet, FusedTimeIsSecond, TakenIsClosed, TakenIsMeaning, CutDropsPresent, CutIsApplied, CutBehindIsApplied};
ghost use Rattle.op_fusion.specs.CompactingLaws.{FusedRunsAreCompacted, OneFusedRun, FusedIsEntry, FusedIsReady, FusedRaisesBoth, FusedCutsBoth};

/// What a fused entry is. Two entries have one. That of the net effects of two ranges which meet or overlap is the net
/// effect of the range of both, and its time is the second's.
pub fn fused_nets()
    ensures one { OneFused }
    ensures net { FusedNetsAreNet }
    ensures time { FusedTimeIsSecond }
{}

/// What it means to take an entry: the net effect of a range that is ready over a closed set of dots. The set with the
/// range is closed, and the cut of the meaning of the set is the meaning of the set with the range.
pub fn taken_ranges()
    ensures closed { TakenIsClosed }
    ensures meaning { TakenIsMeaning }
{}

/// What a cut is: it drops present pairs alone, and pairs to which it is applied are those behind the entry. The same holds of the cut of
/// an entry behind another change, both as one.
pub fn cut_pairs()
    ensures drops { CutDropsPresent }
    ensures applied { CutIsApplied }
    ensures behind { CutBehindIsApplied }
{}

/// What compacting entries is: runs of neighbours, each as long as it can be, become one range and one entry each, and
/// which of a run are fused first makes no difference. Of two entries that may be taken one after the other, in whatever
/// history, the fused one is an entry, is ready where the first is, raises the clock as both do, and cuts the pairs as both
/// do.
pub fn compacted_entries()
    ensures ranges { FusedRunsAreCompacted }
    ensures one { OneFusedRun }
    ensures entry { FusedIsEntry }
    ensures ready { FusedIsReady }
    ensures clock { FusedRaisesBoth }
    ensures cut { FusedCutsBoth }
{}
