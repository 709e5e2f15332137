//! A table of the file with its path, and the refusal of a key.
ghost use Rattle.std.specs.Prelude.{◌≡◌, ◌≤◌, ◌+◌, ◌++◌, decimal, length, option_map};
ghost use Rattle.toml.specs.View.{view, table_view};

use arrayvec::ArrayString;
use toml::{Table, Value};

/// Why a file is refused, and where.
#[derive(Clone, Copy, Debug)]
pub(crate) struct Refusal {
    pub(crate) number: u8,
    pub(crate) key: ArrayString<64>,
    ghost known: { (1 ≤ number) × (number ≤ 12) },
}

/// A table of the file: its own path, the path in front of its keys, and its members.
#[derive(Drop)]
pub(crate) struct Place<'a> {
    pub(crate) name: ArrayString<64>,
    pub(crate) prefix: ArrayString<64>,
    pub(crate) table: &'a Table,
    ghost name_fits: { length name.bytes ≤ 32 },
    ghost prefix_fits: { length prefix.bytes ≤ 32 },
}

impl Place<'_> {
    ghost use Rattle.settings_read.specs.View.{plain_refusal, plain_place};
    ghost use Rattle.settings_read.specs.Walk.{refused, path, found, below, numbered};

    /// The refusal of this number for a key of the table.
    pub(crate) fn refuse(&self, number: u8, key: &str) -> Refusal
        requires key { length key.now ≤ 32 }
        requires low { 1 ≤ number }
        requires high { number ≤ 12 }
        ensures { plain_refusal result ≡ refused number (path (plain_place self.now) key.now) }
    {
        let mut path = self.prefix;
        path.push_str(key);
        Refusal { number, key: path }
    }

    /// What the table has at a key.
    pub(crate) fn get(&self, key: &str) -> Option<&Value>
        ensures { option_map (λ v. view v.now) result ≡ found (plain_place self.now) key.now }
    {
        self.table.get(key)
    }

    /// A table at a key of the table.
    pub(crate) fn below<'b>(&self, key: &str, table: &'b Table) -> Place<'b>
        requires { length self.now.prefix.bytes + length key.now ≤ 31 }
        ensures { plain_place result ≡ below (plain_place self.now) key.now (table_view table.now) }
    {
        let mut name = self.prefix;
        name.push_str(key);
        let mut prefix = name;
        prefix.push_str(".");
        Place {
            name,
            prefix,
            table,
        }
    }

    /// A numbered table of a list at a key of the table.
    pub(crate) fn numbered<'b>(&self, key: &str, number: u8, table: &'b Table) -> Place<'b>
        requires room { length self.now.prefix.bytes + length key.now ≤ 24 }
        requires low { 1 ≤ number }
        requires high { number ≤ 16 }
        ensures value { plain_place result ≡ numbered (plain_place self.now) key.now number (table_view table.now) }
        ensures short { length result.prefix.bytes ≤ length self.now.prefix.bytes + length key.now + 4 }
    {
        let mut name = self.prefix;
        name.push_str(key);
        name.push_str(".");
        name.push_str(number_text(number));
        let mut prefix = name;
        prefix.push_str(".");
        Place {
            name,
            prefix,
            table,
        }
    }
}

#[tactic(auto, unfolding(crate::proofs::Numbers::decimals))]
fn number_text(number: u8) -> &'static str
    requires low { 1 ≤ number }
    requires high { number ≤ 16 }
    ensures text { result.now ≡ decimal number }
    ensures short { length result.now ≤ 2 }
{
    match number {
        1 => "1",
        2 => "2",
        3 => "3",
        4 => "4",
        5 => "5",
        6 => "6",
        7 => "7",
        8 => "8",
        9 => "9",
        10 => "10",
        11 => "11",
        12 => "12",
        13 => "13",
        14 => "14",
        15 => "15",
        _ => "16",
    }
}
