// Laws over the definitions of specs/Memory.antt, of which callers may make use. None of them runs.

ghost use Rattle.pi_memory.specs.Laws.{SpaceIsFound, WrittenIsRead, NumberIsRead, ApartIsKept, PlacesAreKept, OthersAreKept, PartIsRead, PartIsWritten};
ghost use Rattle.pi_memory.specs.Laws.{BumpIsZero, BumpKeeps, BumpLeavesOthers, WriteStaysLaid, BumpStaysLaid};

/// Bytes between the base and the mark of a space are found in that space.
pub fn space_is_found()
    ensures { SpaceIsFound }
{}

/// The bytes that were written are read.
pub fn written_is_read()
    ensures { WrittenIsRead }
{}

/// A number that was written is read.
pub fn number_is_read()
    ensures { NumberIsRead }
{}

/// A write changes no byte before and none behind its own, of whatever widths the write and the read are.
pub fn apart_is_kept()
    ensures { ApartIsKept }
{}

/// A write moves no mark: what was below one in a space is so after it.
pub fn places_are_kept()
    ensures { PlacesAreKept }
{}

/// A write leaves every other space as it was.
pub fn others_are_kept()
    ensures { OthersAreKept }
{}

/// A narrow read inside of a wide one gives a part of it.
pub fn part_is_read()
    ensures { PartIsRead }
{}

/// A narrow write inside of a wide read changes that part of it.
pub fn part_is_written()
    ensures { PartIsWritten }
{}

/// The bytes that a bump shows are 0.
pub fn bump_is_zero()
    ensures { BumpIsZero }
{}

/// A bump changes no byte that was below a mark, and leaves it in its space.
pub fn bump_keeps()
    ensures { BumpKeeps }
{}

/// A bump leaves every other space as it was.
pub fn bump_leaves_others()
    ensures { BumpLeavesOthers }
{}

/// After a write the ranges are apart as they were.
pub fn write_stays_laid()
    ensures { WriteStaysLaid }
{}

/// After a bump the ranges are apart as they were.
pub fn bump_stays_laid()
    ensures { BumpStaysLaid }
{}
