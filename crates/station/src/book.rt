// The book: its entries, and the three changes of them.
ghost use Rattle.std.specs.Prelude.{◌≡◌, ◌<◌, ◌≤◌, length, IfSome};

use crate::entry::Entry;
use answer::fault::Fault;
use arrayvec::ArrayVec;

// At most 16 entries, in the order in which they were entered.
#[derive(Debug, Drop)]
pub struct Book {
    entries: ArrayVec<Entry, 16>,
    ghost fits: { length entries.items ≤ 16 },
}

impl Book {
    ghost use Rattle.answer.specs.Refusal.{read, if_ok};
    ghost use Rattle.station.specs.Book.{empty_book, entered, narrowed, retired};
    ghost use Rattle.station.specs.Frame.{entry_at};
    ghost use Rattle.station.specs.Calls.{retiring};
    ghost use Rattle.station.specs.Items.{items, placed, adding};

    pub(crate) fn new() -> Book
        ensures { items result ≡ empty_book }
    {
        Book {
            entries: ArrayVec::new(),
        }
    }

    // The entries, in the order in which they were entered.
    pub(crate) fn entries(&self) -> &[Entry]
        ensures { result.now ≡ (items self.now).entries }
    {
        self.entries.as_slice()
    }

    // The place of a number's entry.
    fn find(&self, number: u8) -> Option<usize>
        ensures is { result ≡ placed (items self.now).entries number }
        ensures within { IfSome result (λ i. i < length (items self.now).entries) }
    {
        self.entries
            .as_slice()
            .iter()
            .position(|entry| entry.number == number)
    }

    // A number's entry.
    pub(crate) fn get(&self, number: u8) -> Result<Entry, Fault>
        ensures { read result ≡ entry_at (items self.now) number }
    {
        let i = self.find(number).ok_or(Fault::NotHeld)?;
        Ok(self.entries[i])
    }

    // One entry more, at the end.
    pub(crate) fn add(&mut self, entry: Entry) -> Result<(), Fault>
        ensures answer { read result ≡ adding (items self.old) entry.number }
        ensures book { items self.new ≡ if_ok (adding (items self.old) entry.number) (entered (items self.old) entry) (items self.old) }
    {
        if self.find(entry.number).is_some() {
            return Err(Fault::InUse);
        }
        if self.entries.is_full() {
            return Err(Fault::Full);
        }
        self.entries.push(entry);
        Ok(())
    }

    // Another reach for a number, where it has an entry.
    pub(crate) fn lower(&mut self, number: u8, reach: u16)
        ensures { items self.new ≡ narrowed (items self.old) number reach }
    {
        if let Some(i) = self.find(number) {
            self.entries[i].reach = reach;
        }
    }

    // Closes the gap, so that the place is used again.
    pub(crate) fn remove(&mut self, number: u8) -> Result<(), Fault>
        ensures answer { read result ≡ retiring (items self.old) number }
        ensures book { items self.new ≡ if_ok (retiring (items self.old) number) (retired (items self.old) number) (items self.old) }
    {
        let i = self.find(number).ok_or(Fault::NotHeld)?;
        self.entries.remove(i);
        Ok(())
    }
}
