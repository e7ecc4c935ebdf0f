// The station: a bank and its book.
ghost use Rattle.std.specs.Prelude.{◌≡◌, length};
ghost use Rattle.answer.specs.Refusal.{read};
ghost use Rattle.code.specs.Model.{asked, length_of, written};
ghost use Rattle.station.specs.Book.{empty_book};
ghost use Rattle.station.specs.Calls.{Call, Change, entering, narrowing, retiring, step};
ghost use Rattle.station.specs.Frame.{sealed, taken};
ghost use Rattle.station.specs.Fitting.{Admitted};
ghost use Rattle.station.specs.Items.{items, seen};

use crate::book::Book;
use crate::entry::Entry;
use crate::parts::parts_of;
use crate::sealing::seal_by;
use crate::taking::open;
use answer::fault::Fault;
use answer::rules::need;
use code::description::Description;
use code::kind::Kind;

// The bank admits every entry of the book.
#[derive(Drop)]
pub struct Station<K: Kind> {
    bank: K,
    book: Book,
    ghost admitted: { Admitted (asked (K.model bank)) (items book) },
}

impl<K: Kind> Station<K> {
    pub fn new(bank: K) -> Station<K>
        ensures book { items result.book ≡ empty_book }
        ensures bank { result.bank ≡ bank }
    {
        Station {
            bank,
            book: Book::new(),
        }
    }

    // The entries of the book, in the order in which they were entered.
    pub fn entries(&self) -> &[Entry]
        ensures { result.now ≡ (items self.now.book).entries }
    {
        self.book.entries()
    }

    // A code under a number, for words of up to reach bytes.
    pub fn enter(&mut self, number: u8, d: Description, reach: u16) -> Result<(), Fault>
        ensures answer { read result ≡ entering (asked (K.model self.old.bank)) (items self.old.book) number d reach }
        ensures book { items self.new.book ≡ step (asked (K.model self.old.bank)) (items self.old.book) (Call.change (Change.enter number d reach)) }
        ensures bank { K.model self.new.bank ≡ K.model self.old.bank }
    {
        self.bank.admit(d, reach)?;
        self.book.add(Entry {
            number,
            description: d,
            reach,
        })
    }

    // A lower reach for a number.
    pub fn narrow(&mut self, number: u8, reach: u16) -> Result<(), Fault>
        ensures answer { read result ≡ narrowing (asked (K.model self.old.bank)) (items self.old.book) number reach }
        ensures book { items self.new.book ≡ step (asked (K.model self.old.bank)) (items self.old.book) (Call.change (Change.narrow number reach)) }
        ensures bank { K.model self.new.bank ≡ K.model self.old.bank }
    {
        let e = self.book.get(number)?;
        need(reach < e.reach, Fault::NotBelow)?;
        self.bank.admit(e.description, reach)?;
        self.book.lower(number, reach);
        Ok(())
    }

    // A number's entry is deleted.
    pub fn retire(&mut self, number: u8) -> Result<(), Fault>
        ensures answer { read result ≡ retiring (items self.old.book) number }
        ensures book { items self.new.book ≡ step (asked (K.model self.old.bank)) (items self.old.book) (Call.change (Change.retire number)) }
        ensures bank { K.model self.new.bank ≡ K.model self.old.bank }
    {
        self.book.remove(number)
    }

    // Writes the frame of a message at the start of the output, and answers its length.
    pub fn seal(&mut self, number: u8, message: &[u8], out: &mut [u8]) -> Result<usize, Fault>
        ensures answer { read result ≡ length_of (sealed (asked (K.model self.old.bank)) (items self.old.book) number message.now (length out.old)) }
        ensures written { out.new ≡ written (sealed (asked (K.model self.old.bank)) (items self.old.book) number message.now (length out.old)) out.old }
        ensures book { self.new.book ≡ self.old.book }
        ensures bank { K.model self.new.bank ≡ K.model self.old.bank }
    {
        let e = self.book.get(number)?;
        seal_by(&mut self.bank, e, number, message, out)
    }

    // Hands over the part of the frame that is the message.
    pub fn take<'f>(&mut self, frame: &'f [u8]) -> Result<&'f [u8], Fault>
        ensures answer { seen result ≡ taken (asked (K.model self.old.bank)) (items self.old.book) frame.now }
        ensures book { self.new.book ≡ self.old.book }
        ensures bank { K.model self.new.bank ≡ K.model self.old.bank }
    {
        let parts = parts_of(frame)?;
        let e = self.book.get(parts.number)?;
        open(&mut self.bank, e, parts)
    }
}
