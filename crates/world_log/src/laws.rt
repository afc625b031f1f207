//! What plans over the stripes make of the world as plain data.

ghost use Rattle.world_log.specs.Given.{GivenLaws};
ghost use Rattle.world_log.specs.PlanLaws.{ColdLaw, OpeningLaw, ReadLaws, RoomLaws, ValueLaw, WaitLaw};

use hybrid::laws::growth_adds_up;

/// A receipt is served while its place was not released, whatever else was written and released.
pub fn given_receipts_are_served()
    ensures { GivenLaws }
{}

/// Where a plan makes room, or meets a full stripe, pages leave their frames in stripes that it writes.
pub fn room_is_made()
    ensures { RoomLaws }
{}

/// A commit opens few pages, in stripes that it writes.
pub fn pages_are_opened()
    ensures { OpeningLaw }
{
    growth_adds_up();
}

/// Where parts became what no write and no mark makes of them, what keys have is the same.
pub fn values_stay()
    ensures { ValueLaw }
{}

/// A plan leaves all places that wait for their release.
pub fn plans_keep_what_waits()
    ensures { WaitLaw }
{}

/// A read changes no place.
pub fn reads_change_no_place()
    ensures { ReadLaws }
{}

/// The receipts that a plan names are of pages that are not resident, in stripes that the acting client holds.
pub fn cold_receipts_are_kept()
    ensures { ColdLaw }
{}
