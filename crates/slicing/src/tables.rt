// Filling the sixteen tables.
ghost use Rattle.std.specs.Prelude.{◌-◌, ◌*◌, ◌^◌};
ghost use Rattle.slicing.specs.Tables.{Tables};

use engine::filling::tabulate_at_top;
use poly::generator::Generator;

// Each table begins where the one before it would go on.
pub(crate) fn tabulate_all(tables: &mut [[u32; 256]; 16], generator: Generator)
    ensures { Tables (generator.low * 2 ^ (32 - generator.degree)) 16 tables.new }
{
    let mut first = generator.low();
    for table in tables.iter_mut() {
        first = tabulate_at_top(table, generator, first);
    }
}
