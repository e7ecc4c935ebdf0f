// Which degrees and low parts make a generator.
ghost use Rattle.std.specs.Prelude.{◌≡◌};
ghost use Rattle.answer.specs.Rules.{by_rules};
ghost use Rattle.poly.specs.Poly.{terms};
ghost use Rattle.poly.specs.Rules.{generator_rules, pair, seen};

use crate::generator::Generator;
use answer::fault::Fault;

impl Generator {
    // X^degree + low; refused with 12 where the degree is not from 2 to 32, then with 13 where the low part is too long or even.
    pub fn new(degree: u8, low: u32) -> Result<Generator, Fault>
        ensures { seen result ≡ by_rules (generator_rules 2 degree low) (pair degree low) }
    {
        if !(2..=32).contains(&degree) {
            return Err(Fault::EngineDegree);
        }
        if u64::from(low) >> degree != 0 {
            return Err(Fault::EngineLow);
        }
        if low % 2 == 0 {
            return Err(Fault::EngineLow);
        }
        Ok(Generator { degree, low })
    }

    pub fn degree(self) -> u8
        ensures { result ≡ self.degree }
    {
        self.degree
    }

    pub fn low(self) -> u32
        ensures { result ≡ self.low }
    {
        self.low
    }

    // The number of nonzero coefficients.
    pub fn terms(self) -> u32
        ensures { result ≡ terms self.degree self.low }
    {
        1 + self.low.count_ones()
    }
}
