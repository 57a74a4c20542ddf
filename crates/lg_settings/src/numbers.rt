//! Keys that are whole numbers, each of a kind.
ghost use Rattle.std.specs.Prelude.{◌≡◌, ◌*◌, ◌^◌, ◌<◌, ◌≤◌, IfOk, IfSome};
ghost use Rattle.std.specs.Option.{ok_or};
ghost use Rattle.toml.specs.View.{view, table_view};
ghost use Rattle.lg_settings.specs.Numbers.{within, number_of, number};
ghost use Rattle.lg_settings.specs.declared.fault.SettingsFault.TheVariants.{NotSettings};

use crate::fault::SettingsFault;
use toml::{Table, Value};

/// What a whole number may be, and in which unit it is kept.
#[derive(Clone, Copy, Debug, PartialEq, Eq)]
pub(crate) struct NumberKind {
    /// The least that it may be.
    pub(crate) least: u64,
    /// The greatest that it may be.
    pub(crate) greatest: u64,
    /// As how much 1 is kept.
    pub(crate) unit: u64,
}

/// The greatest number of seconds, and the greatest count.
const MOST: u64 = 1_000_000_000_000;

/// Seconds, kept in milliseconds.
pub(crate) const TIME: NumberKind = NumberKind {
    least: 0,
    greatest: MOST,
    unit: 1_000,
};

/// How many.
pub(crate) const COUNT: NumberKind = NumberKind {
    least: 0,
    greatest: MOST,
    unit: 1,
};

/// How many tasks the scheduler keeps.
pub(crate) const TASKS: NumberKind = NumberKind {
    least: 1,
    greatest: 1_000_000,
    unit: 1,
};

/// How much there is of a resource.
pub(crate) const AMOUNT: NumberKind = NumberKind {
    least: 0,
    greatest: 4_294_967_295,
    unit: 1,
};

impl NumberKind {
    /// The number that a key has, in the unit in which it is kept; `unset` of its own unit where the key is absent.
    pub(crate) fn key(&self, keys: &Table, name: &str, unset: u64) -> Result<u64, SettingsFault>
        requires fits { self.now.greatest * self.now.unit < 2 ^ 64 }
        requires some { self.now.least ≤ unset }
        requires most { unset ≤ self.now.greatest }
        ensures read { result ≡ ok_or (number name.now self.now unset (table_view keys.now)) NotSettings }
        ensures least { IfOk result (λ n. self.now.least * self.now.unit ≤ n) }
        ensures greatest { IfOk result (λ n. n ≤ self.now.greatest * self.now.unit) }
    {
        match keys.get(name) {
            None => Ok(unset * self.unit),
            Some(value) => self.number_of(value).ok_or(SettingsFault::NotSettings),
        }
    }

    /// A value that is a whole number of this kind, in the unit in which it is kept.
    pub(crate) fn number_of(&self, value: &Value) -> Option<u64>
        requires fits { self.now.greatest * self.now.unit < 2 ^ 64 }
        ensures read { result ≡ number_of self.now (view value.now) }
        ensures least { IfSome result (λ n. self.now.least * self.now.unit ≤ n) }
        ensures greatest { IfSome result (λ n. n ≤ self.now.greatest * self.now.unit) }
    {
        self.within(value.as_integer()?)
    }

    fn within(&self, number: i64) -> Option<u64>
        requires fits { self.now.greatest * self.now.unit < 2 ^ 64 }
        ensures read { result ≡ within self.now number }
        ensures least { IfSome result (λ n. self.now.least * self.now.unit ≤ n) }
        ensures greatest { IfSome result (λ n. n ≤ self.now.greatest * self.now.unit) }
    {
        match u64::try_from(number) {
            Ok(n) if self.least <= n && n <= self.greatest => Some(n * self.unit),
            _ => None,
        }
    }
}
