// What each published generator is, which engines carry it, and what it leaves of some messages, by every engine that carries it;
// and what each published code promises, admits and writes.
#![tactic(auto)]

use engine::bitwise::Bitwise;
use engine::fast::Fast;
use engine::ready_made::ReadyMade;
use engine::table::Table;
use listing::asked::Named;
use listing::codes::codes;
use listing::generators::generators;
use listing::refusals::refusals;
use std::io;

fn main(rt: HostRuntime) -> io::Result<()> {
    let bitwise: Named<Bitwise> = Named::new("bitwise");
    let table: Named<Table> = Named::new("table");
    let ready_made: Named<ReadyMade> = Named::new("ready-made");
    let fast: Named<Fast> = Named::new("fast");
    generators(&rt, &[&bitwise, &table, &ready_made, &fast])?;
    refusals(&rt)?;
    codes(&rt)
}
