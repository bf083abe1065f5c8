//! The commands of a batch, from its class to its closing, and what becomes of its product.
use plant_base::Envelope;
use plant_text::{Line, read_line};
use std::alloc::Global;
use std::test::Fail;

/// A recipe with what it needs, an order of it, a lot of flour, and the batch, which runs and has taken 167 of the flour's 1000. Then it
/// ends, and its product is split, divided, merged, held and scrapped. A new desk accepts each.
const LINES: [&[u8]; 20] = [
    b"{\"at\":0,\"by\":\"anna\",\"do\":\"add_class\",\"class\":\"RAW\",\"name\":\"Raw goods\"}",
    b"{\"at\":0,\"by\":\"anna\",\"do\":\"add_definition\",\"def\":\"FLOUR\",\"class\":\"RAW\",\"name\":\"\",\"unit\":\"kg\"}",
    b"{\"at\":0,\"by\":\"anna\",\"do\":\"add_definition\",\"def\":\"DOUGH\",\"class\":\"RAW\",\"name\":\"\",\"unit\":\"kg\"}",
    b"{\"at\":0,\"by\":\"anna\",\"do\":\"add_recipe\",\"recipe\":\"CAKE\",\"version\":1,\"product\":\"DOUGH\",\"base\":300,\"min\":100,\"max\":900,\"title\":\"\",\"lines\":[{\"kind\":\"in\",\"def\":\"FLOUR\",\"qty\":100},{\"kind\":\"out\",\"def\":\"DOUGH\",\"qty\":300},{\"kind\":\"par\",\"name\":\"TEMP\",\"value\":\"80 C\"},{\"kind\":\"phase\",\"unit\":\"MIX\",\"oper\":\"BLEND\",\"phase\":\"STIR\"}]}",
    b"{\"at\":0,\"by\":\"anna\",\"do\":\"approve\",\"recipe\":\"CAKE\",\"version\":1}",
    b"{\"at\":0,\"by\":\"anna\",\"do\":\"import_orders\",\"orders\":[{\"order\":\"O-1\",\"recipe\":\"CAKE\",\"version\":1,\"size\":500,\"due\":\"2027-03-01\",\"priority\":5}]}",
    b"{\"at\":0,\"by\":\"anna\",\"do\":\"receive\",\"lot\":\"F-1\",\"def\":\"FLOUR\",\"amount\":1000,\"place\":\"A1\"}",
    b"{\"at\":0,\"by\":\"anna\",\"do\":\"release\",\"order\":\"O-1\",\"batch\":\"B-1\"}",
    b"{\"at\":0,\"by\":\"anna\",\"do\":\"batch\",\"batch\":\"B-1\",\"word\":\"start\"}",
    b"{\"at\":0,\"by\":\"anna\",\"do\":\"consume\",\"batch\":\"B-1\",\"lot\":\"F-1\",\"sub\":0,\"amount\":167}",
    b"{\"at\":0,\"by\":\"ben\",\"do\":\"phase_done\",\"batch\":\"B-1\",\"phase\":1}",
    b"{\"at\":1,\"by\":\"ben\",\"do\":\"produce\",\"batch\":\"B-1\",\"lot\":\"D-1\",\"def\":\"DOUGH\",\"amount\":490,\"place\":\"A2\"}",
    b"{\"at\":1,\"by\":\"ben\",\"do\":\"settle\",\"batch\":\"B-1\"}",
    b"{\"at\":2,\"by\":\"ben\",\"do\":\"close_batch\",\"batch\":\"B-1\"}",
    b"{\"at\":2,\"by\":\"ben\",\"do\":\"split\",\"lot\":\"D-1\",\"sub\":0,\"amount\":100,\"new\":\"D-2\",\"place\":\"A1\"}",
    b"{\"at\":2,\"by\":\"ben\",\"do\":\"divide\",\"lot\":\"D-1\",\"sub\":0,\"amount\":50,\"place\":\"A2\"}",
    b"{\"at\":2,\"by\":\"ben\",\"do\":\"merge\",\"new\":\"D-3\",\"place\":\"A3\",\"parts\":[{\"lot\":\"D-2\",\"sub\":0,\"amount\":60},{\"lot\":\"D-1\",\"sub\":1,\"amount\":50}]}",
    b"{\"at\":2,\"by\":\"ben\",\"do\":\"hold\",\"lot\":\"D-1\",\"hold\":\"H-1\"}",
    b"{\"at\":2,\"by\":\"ben\",\"do\":\"unhold\",\"lot\":\"D-1\",\"hold\":\"H-1\"}",
    b"{\"at\":2,\"by\":\"ben\",\"do\":\"scrap\",\"lot\":\"D-3\",\"sub\":0,\"amount\":10}",
];

/// The command that a line is.
pub(crate) fn command_of(alloc: Global, line: &[u8]) -> Result<Envelope, Fail> {
    match read_line(alloc, line) {
        Ok(Line::Command(envelope)) => Ok(envelope),
        _ => Err(Fail::from("no command")),
    }
}

/// The first of the twenty commands, so many.
pub(crate) fn first_commands(alloc: Global, count: usize) -> Result<Vec<Envelope>, Fail> {
    let mut list = Vec::new(alloc);
    for line in LINES.iter().take(count) {
        list.push(command_of(alloc, line)?)?;
    }
    Ok(list)
}
