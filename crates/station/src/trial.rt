// A byte planted in the caller's frame, and taken out again.
ghost use Rattle.std.specs.Prelude.{◌≡◌, ◌<◌, length, slice_set};
ghost use Rattle.answer.specs.Refusal.{read};
ghost use Rattle.code.specs.Model.{asked};
ghost use Rattle.station.specs.Calls.{trying};
ghost use Rattle.station.specs.Items.{items};

use crate::station::Station;
use answer::fault::Fault;
use answer::rules::need;
use code::kind::Kind;

// A frame with a byte in place of its own, which comes back when this is dropped.
struct Planted<'f> {
    frame: &'f mut [u8],
    at: usize,
    old: u8,
}

impl Drop for Planted<'_> {
    fn drop(self)
        requires { self.at < length self.frame.now }
        ensures { self.exit.0.now ≡ slice_set self.entry.frame.now self.entry.at self.entry.old }
    {
        self.frame[self.at] = self.old;
        let Planted {
            frame: _,
            at: _,
            old: _,
        } = self;
    }
}

impl Planted<'_> {
    fn bytes(&self) -> &[u8]
        ensures { result.now ≡ self.entry.now.frame.now }
    {
        self.frame
    }
}

impl<K: Kind> Station<K> {
    // Takes the frame with a byte planted at a place inside. The frame has its own byte back on every way out.
    fn take_planted(&mut self, frame: &mut [u8], at: usize, byte: u8) -> Result<(), Fault>
        requires { at < length frame.old }
        ensures answer { read result ≡ trying (asked (K.model self.old.bank)) (items self.old.book) frame.old at byte }
        ensures back { frame.new ≡ frame.old }
        ensures book { self.new.book ≡ self.old.book }
        ensures bank { K.model self.new.bank ≡ K.model self.old.bank }
    {
        let old = frame[at];
        frame[at] = byte;
        let planted = Planted { frame, at, old };
        let _message = self.take(planted.bytes())?;
        Ok(())
    }

    // Takes the frame with another byte at a place.
    pub fn trial(&mut self, frame: &mut [u8], at: usize, byte: u8) -> Result<(), Fault>
        ensures answer { read result ≡ trying (asked (K.model self.old.bank)) (items self.old.book) frame.old at byte }
        ensures back { frame.new ≡ frame.old }
        ensures book { self.new.book ≡ self.old.book }
        ensures bank { K.model self.new.bank ≡ K.model self.old.bank }
    {
        need(at < frame.len(), Fault::Outside(frame.len()))?;
        self.take_planted(frame, at, byte)
    }
}
