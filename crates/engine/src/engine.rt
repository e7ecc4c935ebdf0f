// What every engine does. An engine means a degree, a low part and a register; what it carries is fixed.
// The engines are no instances of one generic struct: for the C interface a type has no parameters, and with a Register each call is a line;
// `set` is more where tables are filled and where some generators are not carried, and there the engines differ anyway.
// What a call leaves of degree, low part, register and carrying is told by a clause each: a caller uses the one that it needs, and one
// equation of records would hide which of them the call alters.
ghost use Rattle.std.specs.Prelude.{◌≡◌, ℕ, Bool};
ghost use Rattle.answer.specs.Refusal.{read, if_ok};
ghost use Rattle.answer.specs.Rules.{by_rules};
ghost use Rattle.engine.specs.Feed.{fed, fed_all};
ghost use Rattle.engine.specs.Rules.{set_rules};
ghost use Rattle.engine.specs.Meaning.{Sound};

use answer::fault::Fault;

pub trait Engine: Sized {
    // the degree of the generator
    ghost degree_of: { Self → ℕ };

    // its low part
    ghost low_of: { Self → ℕ };

    ghost register_of: { Self → ℕ };

    // which degrees and low parts the engine carries: no call changes it
    ghost carries_of: { Self → ℕ → ℕ → Bool };

    // A new engine holds some generator that it carries, and a register of zero.
    fn new() -> Self
        ensures { register_of result ≡ 0 };

    // Takes up X^degree + low, with a register of zero; a refusal alters nothing.
    fn set(&mut self, degree: u8, low: u32) -> Result<(), Fault>
        ensures answer { read result ≡ by_rules (set_rules (carries_of self.old degree low) degree low) tt }
        ensures degree { degree_of self.new ≡ if_ok result degree (degree_of self.old) }
        ensures low { low_of self.new ≡ if_ok result low (low_of self.old) }
        ensures register { register_of self.new ≡ if_ok result 0 (register_of self.old) }
        ensures carries { carries_of self.new ≡ carries_of self.old };

    // Makes the register zero, and keeps the generator.
    fn clear(&mut self)
        ensures degree { degree_of self.new ≡ degree_of self.old }
        ensures low { low_of self.new ≡ low_of self.old }
        ensures register { register_of self.new ≡ 0 }
        ensures carries { carries_of self.new ≡ carries_of self.old };

    // Makes the register the remainder of register × X^8 + q × X^degree.
    fn feed(&mut self, q: u8)
        ensures degree { degree_of self.new ≡ degree_of self.old }
        ensures low { low_of self.new ≡ low_of self.old }
        ensures register { register_of self.new ≡ fed (degree_of self.old) (low_of self.old) (register_of self.old) q }
        ensures carries { carries_of self.new ≡ carries_of self.old };

    // The register.
    fn value(&self) -> u32
        ensures { result ≡ register_of self.now };

    // Feeds the bytes one after the other.
    fn feed_all(&mut self, bytes: &[u8])
        ensures degree { degree_of self.new ≡ degree_of self.old }
        ensures low { low_of self.new ≡ low_of self.old }
        ensures register { register_of self.new ≡ fed_all (degree_of self.old) (low_of self.old) (register_of self.old) bytes.now }
        ensures carries { carries_of self.new ≡ carries_of self.old }
    {
        for b in bytes {
            self.feed(*b);
        }
    }

    ghost sound: { (e : Self) → Sound (degree_of e) (low_of e) (register_of e) (carries_of e) };
}
