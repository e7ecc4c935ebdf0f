// What each published generator is, which engines carry it, and what it leaves of some messages, by every engine that carries it;
// what each published code promises, admits and writes, over every engine; what is published of other generators; and every refusal of a
// line and of a station.
#![tactic(auto)]

mod answer_rows;
mod answers;
mod kinds_over;
mod published;
mod vectors;

use answers::answers;
use engine::bitwise::Bitwise;
use engine::fast::Fast;
use engine::ready_made::ReadyMade;
use engine::table::Table;
use kinds_over::kinds_over;
use listing::asked::{Asked, Named};
use listing::codes::codes;
use listing::generators::generators;
use listing::refusals::refusals;
use slicing::slicing::Slicing;
use std::io;
use vectors::vectors;

fn main(rt: HostRuntime) -> io::Result<()> {
    let bitwise: Named<Bitwise> = Named::new("bitwise");
    let table: Named<Table> = Named::new("table");
    let ready_made: Named<ReadyMade> = Named::new("ready-made");
    let fast: Named<Fast> = Named::new("fast");
    let slicing: Named<Slicing> = Named::new("slicing");
    let engines: &[&dyn Asked] = &[&bitwise, &table, &ready_made, &fast, &slicing];
    generators(&rt, engines)?;
    refusals(&rt)?;
    codes(&rt)?;
    kinds_over(&rt, engines)?;
    vectors(&rt, engines)?;
    answers(&rt)
}
