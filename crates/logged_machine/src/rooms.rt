//! Room in the log.
ghost use Rattle.journal.specs.JournalDisk.{TellsAllRoom};
ghost use Rattle.logged_machine.specs.RecordsBehindLog.{HasRoomInArea, IsAllBut, StayFree};

use journal::Journal;

/// How many bytes may be appended before a checkpoint is due.
pub fn room_left(journal: &Journal) -> usize
    ensures room { HasRoomInArea result journal.now.log }
    ensures all { IsAllBut result journal.now.log }
    ensures kept { StayFree result journal.now.log }
{
    let _all = journal.all_room();
    match journal.room() {
        Some(room) => room as usize,
        None => 0,
    }
}

/// How many bytes may be appended at all.
pub fn all_room(journal: &Journal) -> usize
    ensures room { HasRoomInArea result journal.now.log }
    ensures all { TellsAllRoom journal.now.log result }
{
    journal.all_room() as usize
}
