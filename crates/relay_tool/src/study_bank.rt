//! The bank of a study: what the line that owns a sample set tells of it goes to the log.
ghost use Rattle.std.specs.Prelude.{◌≡◌, ◌≤◌, ℕ, List, length};
ghost use Rattle.room_io.specs.Room.{IsReadyOut};
ghost use Rattle.room_io.specs.declared.room.Slot.TheVariants.{Log};
ghost use Rattle.line_bank.specs.KeptBank.{lines_of};
ghost use Rattle.relay_tool.specs.Output.{Item};
ghost use Rattle.relay_tool.specs.Making.{Makes};

use crate::bank::Bank;
use crate::put::Failed;
use line_bank::{LineBank, LineElement};
use relay_num::{NoMemory, Steps};
use relay_settings::Settings;
use room_io::Room;
use std::alloc::Global;
use std::sync::ledger::Ledger;
use sv_frame::Asdu;

/// An element of a line whose telling goes to the log.
pub trait Studied: LineElement {
    // The lines of the log, by the line's name.
    ghost items: { List ℕ → Self.Told → List Item };

    /// Writes what is told, in lines of the log that begin with the line's name.
    fn put<R: Room>(room: &mut R, name: &[u8], told: &Self::Told) -> Result<(), Failed>
        requires log { IsReadyOut Log (R.state room.old) }
        requires name { length name.now ≤ 16 }
        requires printable { Self.IsPrintable told.now }
        ensures { Makes (items name.now told.now) (R.state room.old) (R.state room.new) result };
}

/// The elements of all lines, with the lines' names.
#[derive(Drop)]
pub struct StudyBank<E: LineElement> {
    elements: LineBank<E>,
    settings: Settings,
    ghost same: { length (lines_of elements) ≡ length settings.lines.items },
}

impl<E: Studied> StudyBank<E> {
    ghost use Rattle.std.specs.Prelude.{ℕ, List, ◌≡◌, [], IfOk};
    ghost use Rattle.relay_tool.specs.Output.{Item};
    ghost use Rattle.relay_settings.specs.Settings.{plain_settings};
    ghost use Rattle.relay_settings.specs.Ranges.{InRange};
    ghost use Rattle.line_bank.specs.KeptBank.{heard_of};
    ghost use Rattle.relay_tool.specs.Banks.{elements_of, studied_items, TellsStudied};

    /// The elements of the lines of these settings, which have heard nothing, set to what is asked. `NoMemory`: they
    /// found no room.
    pub fn new(alloc: Global, settings: Settings, asked: E::Asked) -> Result<StudyBank<E>, NoMemory>
        requires settings { InRange settings }
        requires asked { E.IsAsked asked }
        // Where the lines of the log are those of what is said.
        ensures stands { (lines : List ℕ → E.Said → List Item) → ((name : List ℕ) (told : E.Told) → E.items name told ≡ lines name (E.said told)) →
            IfOk result (λ bank. TellsStudied E.items bank (studied_items lines (E.tells settings.common asked) (plain_settings settings).lines) []) }
        ensures heard { IfOk result (λ bank. heard_of (elements_of bank) ≡ 0) }
    {
        let elements = LineBank::new(alloc, &settings, asked)?;
        Ok(StudyBank { elements, settings })
    }
}

impl<E: Studied> Bank for StudyBank<E> {
    ghost use Rattle.line_bank.specs.KeptBank.{heard_of};
    ghost use Rattle.room_io.specs.declared.room.Slot.TheVariants.{Log};
    ghost use Rattle.relay_tool.specs.Files.{is_slot};
    ghost use Rattle.relay_tool.specs.Banks.{elements_of, TellsStudied};

    ghost heard = { λ bank. heard_of (elements_of bank) };

    ghost stands = { TellsStudied E.items };

    ghost outputs = { λ slot. is_slot slot Log };

    fn hear<R: Room, L: Ledger>(
        &mut self,
        a: &Asdu<'_>,
        room: &mut R,
        steps: &mut Steps<L>,
    ) -> Result<(), Failed> {
        let Some((place, told)) = self.elements.hear(a, steps) else {
            return Ok(());
        };
        E::put(room, self.settings.lines[place].name.as_slice(), &told)
    }
}
