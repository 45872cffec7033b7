//! Laws over the definitions of a command. Each is the contract of a function that takes no value.

ghost use Rattle.gba_command.specs.Law.{CountsItsEnds, CountsItsStops, EndsInItsOutcome, EndsOnce, HidesNothing};
ghost use Rattle.gba_command.specs.LeftFiles.{AtOnceIsWhole, LeavesItsFiles, LeavesItsFronts, ZeroLeavesItsFiles};

use gba_store::{Sink, Store};

/// Where the store tells its files, a plan that isn't stopped by the store or for want of memory ends in its outcome.
pub fn ends_in_its_outcome<S: Store>()
    ensures { EndsInItsOutcome S.gives S.Tells S.files }
{}

/// The count of absences rose where a file was absent, and that of faults where a read failed.
pub fn counts_its_stops<S: Store>()
    ensures { CountsItsStops S.gives S.absences S.faults }
{}

/// Where what a store says of its reads fixes its counts, none of them rose if memory was wanting.
pub fn hides_nothing<S: Store>()
    ensures { HidesNothing S.gives S.Reads S.absences S.faults }
{}

/// Over a store in memory a plan has one end, but for want of memory.
pub fn ends_once()
    ensures { EndsOnce }
{}

/// A run that is written answers 0; 9 with the sink's count of faults risen; or 10 with its count of wants risen.
pub fn counts_its_ends<O: Sink>()
    ensures { CountsItsEnds O.Tells }
{}

/// Where the sink tells its files and no call of a run failed, each of the run's files holds its bytes, standard output
/// has gained the summary alone, and every other file is as before.
pub fn leaves_its_files<O: Sink>()
    ensures { LeavesItsFiles O.Tells }
{}

/// Where a call of a run failed, the file of that call holds a front of its piece more at most, and every other one
/// exactly the pieces that were added before; where memory was wanting in the call, so does each.
pub fn leaves_its_fronts<O: Sink>()
    ensures { LeavesItsFronts O.Tells }
{}

/// Where a run answers 0 it ends with its summary, and leaves its files.
pub fn zero_leaves_its_files<O: Sink>()
    ensures { ZeroLeavesItsFiles O.Tells }
{}

/// Files of different names that are each written in one piece are the joins of their pieces.
pub fn at_once_is_whole()
    ensures { AtOnceIsWhole }
{}
