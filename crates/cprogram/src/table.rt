ghost use Rattle.std.specs.Prelude.{◌≡◌, ◌<◌, length, slice_get, OnSome};
ghost use Rattle.std.specs.Option.{option_copied};

use std::marker::Model;

/// Parts of a program by their number. Contracts see the list of them.
#[derive(Debug, Drop)]
pub struct Table<T> {
    entries: Vec<T>,
}

impl<T> Model for Table<T> {
    ghost use Rattle.std.specs.Prelude.{List};
    ghost use Rattle.std.specs.Coded.{coded_list};

    ghost Value = { List T };

    ghost coded = { coded_list T.code };

    ghost view = { λ table. table.entries.items };
}

impl<T> Table<T> {
    /// A table of these, which are not copied.
    pub fn new(entries: Vec<T>) -> Self
        ensures { result ≡ entries.items }
    {
        Table { entries }
    }

    pub fn len(&self) -> usize
        ensures { result ≡ length self.now }
    {
        self.entries.len()
    }

    /// The entry with this number.
    pub fn get(&self, number: u32) -> Option<&T>
        ensures value { option_copied result ≡ slice_get self.now number }
        ensures within { OnSome result (number < length self.now) }
    {
        self.entries.get(number as usize)
    }

    pub fn as_slice(&self) -> &[T]
        ensures { result.now ≡ self.now }
    {
        self.entries.as_slice()
    }
}
