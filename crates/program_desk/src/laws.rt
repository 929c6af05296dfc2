//! Laws over the definitions alone, the contracts of functions that do nothing.

ghost use Rattle.program_desk.specs.RoomLaws.{TypedGoesFirst, WorkedRooms};

/// What is typed goes before a room's file.
pub fn typed_goes_first()
    ensures { TypedGoesFirst }
{}

/// Some words, with what a room's file gives.
pub fn worked_rooms()
    ensures { WorkedRooms }
{}
