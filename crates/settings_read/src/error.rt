//! Why a file is not accepted.
ghost use Rattle.std.specs.Prelude.{◌≡◌};

use crate::place::Refusal;
use arrayvec::ArrayString;
use std::alloc::{AllocError, AllocFailed};

/// Why no settings were read.
#[derive(Clone, Copy, Debug)]
pub enum SettingsError {
    /// An allocation failed.
    NoMemory,
    /// The first refusal that the walk over the file meets: its number, from 1 to 12, and the path of
    /// the key, as `line.2.zone.1.delay_ms`.
    Refused { number: u8, key: ArrayString<64> },
}

impl From<Refusal> for SettingsError {
    ghost use Rattle.settings_read.specs.declared.error.SettingsError.TheVariants.{Refused};

    ghost from_gives = { λ r e. e ≡ Refused r.number r.key };

    fn from(r: Refusal) -> SettingsError {
        SettingsError::Refused {
            number: r.number,
            key: r.key,
        }
    }
}

impl From<AllocError> for SettingsError {
    ghost use Rattle.settings_read.specs.declared.error.SettingsError.TheVariants.{NoMemory};

    ghost from_gives = { λ _ e. e ≡ NoMemory };

    fn from(_e: AllocError) -> SettingsError {
        SettingsError::NoMemory
    }
}

impl<T: Drop> From<AllocFailed<T>> for SettingsError {
    ghost use Rattle.settings_read.specs.declared.error.SettingsError.TheVariants.{NoMemory};

    ghost from_gives = { λ _ e. e ≡ NoMemory };

    fn from(_e: AllocFailed<T>) -> SettingsError {
        SettingsError::NoMemory
    }
}
