//! The lines of a replay: what each tells of its own sample sets goes to the log and to the GOOSE capture.
ghost use Rattle.std.specs.Prelude.{◌≡◌, ◌≤◌, ℕ, ◌++◌, ◌∷◌, [], List, Option, length, map, Some};
ghost use Rattle.std.specs.List.{All};
ghost use Rattle.room_io.specs.Room.{IsReadyOut};
ghost use Rattle.room_io.specs.declared.room.Slot.TheVariants.{Goose, Log};
ghost use Rattle.sv_frame.specs.Asdu.{PlainAsdu};
ghost use Rattle.relay_settings.specs.Settings.{PlainLine};
ghost use Rattle.relay_settings.specs.declared.types.Common.{Common};
ghost use Rattle.event_record.specs.Printable.{IsPrintable};
ghost use Rattle.line_relay.specs.KeptLine.{StandsFor as LineStandsFor};
ghost use Rattle.relay_tool.specs.Output.{event_item, send_items};
ghost use Rattle.relay_tool.specs.Making.{Makes, OnlyWrites};

use crate::bank::Bank;
use crate::put::{Failed, put, put_event};
use arrayvec::ArrayVec;
use capture_feed::put_record;
use event_record::Event;
use goose_publish::{FrameRoom, Send};
use line_relay::{Burst, Line};
use relay_num::{NoMemory, Steps};
use relay_settings::Settings;
use room_io::{Room, Slot};
use station::Station;
use std::alloc::Global;
use std::sync::ledger::Ledger;
use sv_frame::Asdu;

/// The lines, and room for what one of them tells.
#[derive(Drop)]
pub struct Lines {
    station: Station,
    burst: Burst,
    sending: Sending,
}

/// Room for a frame that is sent, and for its record in the GOOSE capture. It is kept from frame to frame.
#[derive(Drop)]
struct Sending {
    frame: FrameRoom,
    record: ArrayVec<u8, 1064>,
}

impl Lines {
    ghost use Rattle.std.specs.Prelude.{◌≡◌, [], IfOk};
    ghost use Rattle.relay_settings.specs.Settings.{plain_settings};
    ghost use Rattle.relay_settings.specs.Ranges.{InRange};
    ghost use Rattle.station.specs.KeptStation.{StandsFor, heard_of};
    ghost use Rattle.relay_tool.specs.Lines.{station_of};

    /// The lines of these settings, which have heard nothing. `NoMemory`: they found no room.
    pub fn new(alloc: Global, settings: &Settings) -> Result<Lines, NoMemory>
        requires { InRange settings.now }
        ensures { IfOk result (λ lines. StandsFor (plain_settings settings.now) [] (station_of lines) × (heard_of (station_of lines) ≡ 0)) }
    {
        let station = Station::new(alloc, settings)?;
        Ok(Lines {
            station,
            burst: Burst::new(),
            sending: Sending {
                frame: FrameRoom::new(),
                record: ArrayVec::new(),
            },
        })
    }
}

impl Bank for Lines {
    ghost use Rattle.std.specs.Prelude.{◌≡◌};
    ghost use Rattle.relay_settings.specs.Settings.{PlainSettings};
    ghost use Rattle.station.specs.KeptStation.{heard_of};
    ghost use Rattle.relay_tool.specs.Lines.{station_of, TellsAs};
    ghost use Rattle.room_io.specs.declared.room.Slot.TheVariants.{Goose, Log};
    ghost use Rattle.std.specs.Prelude.{◌||◌};
    ghost use Rattle.relay_tool.specs.Files.{is_slot};

    ghost heard = { λ lines. heard_of (station_of lines) };

    ghost stands = { TellsAs };

    ghost outputs = { λ slot. is_slot slot Goose || is_slot slot Log };

    fn hear<R: Room, L: Ledger>(
        &mut self,
        a: &Asdu<'_>,
        room: &mut R,
        steps: &mut Steps<L>,
    ) -> Result<(), Failed> {
        let Some(place) = self.station.hear_into(a, &mut self.burst, steps) else {
            return Ok(());
        };
        put_burst(
            room,
            self.station.line(place),
            &self.burst,
            &mut self.sending,
        )
    }
}

/// Writes what a line tells of a sample set: the events, then the frame.
fn put_burst<R: Room>(
    room: &mut R,
    line: &Line,
    burst: &Burst,
    sending: &mut Sending,
) -> Result<(), Failed>
    requires goose { IsReadyOut Goose (R.state room.old) }
    requires log { IsReadyOut Log (R.state room.old) }
    requires printable { All IsPrintable burst.now.events.items }
    ensures only { OnlyWrites (R.state room.old) (R.state room.new) }
    ensures made { (common : Common) (settings : PlainLine) (asdus : List PlainAsdu) → LineStandsFor common settings asdus line.now →
        Makes (map (event_item settings.name) burst.now.events.items ++ send_items common settings burst.now.send) (R.state room.old) (R.state room.new) result }
{
    put_events(room, line.name(), burst.events.as_slice())?;
    match &burst.send {
        Some(send) => put_frame(room, line, send, sending),
        None => Ok(()),
    }
}

/// Writes the lines of a line's events.
fn put_events<R: Room>(room: &mut R, name: &[u8], events: &[Event]) -> Result<(), Failed>
    requires log { IsReadyOut Log (R.state room.old) }
    requires name { length name.now ≤ 16 }
    requires printable { All IsPrintable events.now }
    ensures { Makes (map (event_item name.now) events.now) (R.state room.old) (R.state room.new) result }
{
    for event in events {
        put_event(room, name, event)?;
    }
    Ok(())
}

/// Writes a frame that a line sends, as a record of the GOOSE capture. It isn't inlined, since few sample sets send one.
#[inline(never)]
fn put_frame<R: Room>(
    room: &mut R,
    line: &Line,
    send: &Send,
    sending: &mut Sending,
) -> Result<(), Failed>
    requires { IsReadyOut Goose (R.state room.old) }
    ensures only { OnlyWrites (R.state room.old) (R.state room.new) }
    ensures sends { (common : Common) (settings : PlainLine) (asdus : List PlainAsdu) → LineStandsFor common settings asdus line.now →
        Makes (send_items common settings (Some send.now)) (R.state room.old) (R.state room.new) result }
{
    let at = line.moment(send.number);
    line.frame_into(send, &mut sending.frame);
    sending.record.clear();
    put_record(
        &mut sending.record,
        at.seconds,
        at.nanos,
        sending.frame.bytes.as_slice(),
    );
    put(room, Slot::Goose, sending.record.as_slice())
}
